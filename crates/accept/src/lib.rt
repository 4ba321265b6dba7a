// The questions that every call asks of a file first, of any bytes; reading a file asks no others. Question 10 takes the
// index of a file that reads as a trace.
#![tactic(auto)]

ghost use Rattle.std.specs.Prelude.{◌≡◌};
ghost use Rattle.index.specs.Indexed.{Indexed};
ghost use Rattle.trace.specs.Reading.{trace_of};
ghost use Rattle.trace.specs.Trace.{size};
ghost use Rattle.courses.specs.Courses.{Ended};
ghost use Rattle.accept.specs.Acceptance.{accept_answer};

use index::{Index, IndexedFile};
use trace::{Counts, Refusal, TraceFile};

// Question 10, from the done counts at the end of the walk that leaves out nothing. Of the index just the operations by
// worker are asked, which is less than an `IndexedFile`.
pub fn accept_if_done(
    trace: &TraceFile<'_>,
    index: &Index,
    done: &[u16; 16],
) -> Result<Counts, Refusal>
    requires { Indexed (trace_of trace.now.bytes.now) index.now.order index.now.starts
        × Ended (trace_of trace.now.bytes.now) (size (trace_of trace.now.bytes.now)) done.now }
    ensures { result ≡ accept_answer trace.now.bytes.now }
{
    let n = trace.operations as usize;
    let k = places::lowest_left(index, trace.workers as usize, n, done);
    if k < n {
        return Err(Refusal {
            number: 10,
            place: k as u32,
        });
    }
    Ok(trace.counts())
}

// Question 10 by a walk.
pub fn accept_if_complete(x: &IndexedFile<'_>) -> Result<Counts, Refusal>
    ensures { result ≡ accept_answer x.now.trace.bytes.now }
{
    let end = courses::walk_whole(x.index, x.trace.workers as usize);
    accept_if_done(&x.trace, x.index, &end.done)
}

// Asks the file's questions, of any bytes: the counts of an accepted file, or the refusal.
pub fn accept(file: &[u8]) -> Result<Counts, Refusal>
    ensures { result ≡ accept_answer file.now }
{
    let trace = reader::open(file)?;
    let mut index = Index::none();
    index.fill(&trace);
    accept_if_complete(&IndexedFile {
        trace,
        index: &index,
    })
}
