// The races of a file's trace, written to a lent list of race records.
#![tactic(auto)]

ghost use Rattle.std.specs.Prelude.{map, ◌≡◌, ◌+◌, ◌≤◌, length};
ghost use Rattle.std.proofs.Math.Seq.{paste};
ghost use Rattle.trace.specs.Reading.{trace_of};
ghost use Rattle.lent.specs.Written.{written_over};
ghost use Rattle.race_model.specs.RaceList.{pair, race_list, race_count};
ghost use Rattle.race_list.specs.Listing.{ListCall};

use race_model::Race;
use race_rows::SearchInPlace;
use races::Races;
use table_entries::FilledTable;
use trace::{Refusal, TraceFile};

// Writes a race of `lower` with each of the first `count` numbers of a row, from a place of the list on: the numbers
// behind these are of no race, and `count` stands beside the row as in `list_writer`.
fn write_row(list: &mut [Race], at: usize, count: usize, lower: u16, row: &[u16; 1024])
    requires { (at + count ≤ length list.old) × (count ≤ 1024) }
    ensures { list.new ≡ paste list.old at (map (pair lower) row.now) count }
{
    for i in 0..count {
        list[at + i] = Race {
            lower,
            higher: row[i],
        };
    }
}

// Writes all races, `count` of them, to the front of the list.
fn write_races(filled: &FilledTable<'_>, count: usize, list: &mut [Race])
    requires { (count ≡ race_count (trace_of filled.now.trace.bytes.now)) × (count ≤ length list.old) }
    ensures { list.new ≡ written_over (race_list (trace_of filled.now.trace.bytes.now)) list.old }
{
    if count == 0 {
        return;
    }
    let mut search = SearchInPlace::of(*filled);
    search.begin();
    let mut row = [0u16; 1024];
    let mut a: usize = 0;
    let mut at: usize = 0;
    // not over all operations: the rows end with the last race
    while at < count {
        let found = search.next_row(&mut row);
        write_row(list, at, found, a as u16, &row);
        at += found;
        a += 1;
    }
}

// Asks the file's questions, 11 and 16, of any bytes, any table and any list; where none refuses, the races, and the
// order table; where 16 does, the order table.
pub fn race_list(file: &[u8], table: &mut [u16], list: &mut [Race]) -> Result<Races, Refusal>
    ensures { ListCall file.now table.old list.old result table.new list.new }
{
    let races = races::fill_and_count(file, table, list.len())?;
    let trace = TraceFile::of(file);
    write_races(&FilledTable { trace, table }, races.races as usize, list);
    Ok(races)
}
