// The order table of a file, written to a lent table.
#![tactic(auto)]

ghost use Rattle.trace.specs.Reading.{trace_of};
ghost use Rattle.accept.specs.Acceptance.{AcceptedTrace};
ghost use Rattle.order_table.specs.Table.{TableCall};

use index::{Index, IndexedFile};
use trace::{Counts, Refusal};

// Question 11 of an accepted file, and the table.
fn fill_if_room(x: &IndexedFile<'_>, table: &mut [u16]) -> Result<Counts, Refusal>
    requires { AcceptedTrace x.now.trace.bytes.now (trace_of x.now.trace.bytes.now) }
    ensures { TableCall x.now.trace.bytes.now table.old result table.new }
{
    let p = x.trace.workers as usize;
    let n = x.trace.operations as usize;
    if n * p <= table.len() {
        table_rows::fill(x, table);
        return Ok(x.trace.counts());
    }
    Err(Refusal {
        number: 11,
        place: 0,
    })
}

// Asks the file's questions and 11, of any bytes and any table; where none refuses, the order table, and the counts.
pub fn order_table(file: &[u8], table: &mut [u16]) -> Result<Counts, Refusal>
    ensures { TableCall file.now table.old result table.new }
{
    // A `match` and no `?`: the edit `place_of_reader` changes what a refusal is handed on as, and nothing else.
    let trace = match reader::open(file) {
        Ok(trace) => trace,
        Err(unread) => return Err(unread),
    };
    let mut index = Index::none();
    index.fill(&trace);
    let x = IndexedFile {
        trace,
        index: &index,
    };
    match accept::accept_if_complete(&x) {
        Ok(_) => fill_if_room(&x, table),
        Err(stuck) => Err(stuck),
    }
}
