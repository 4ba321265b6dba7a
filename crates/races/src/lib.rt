// The races of a file's trace, written to two lent lists: their lower operations, and their higher ones.
#![tactic(auto)]

ghost use Rattle.std.specs.Prelude.{◌≡◌, ◌≤◌, length};
ghost use Rattle.trace.specs.Reading.{trace_of};
ghost use Rattle.race_model.specs.RaceList.{race_count};
ghost use Rattle.races.specs.Premises.{Hints, AllWritten, too_many, ListsCall};
ghost use Rattle.races.specs.Races.{races_answer, CountCall, RacesCall};

mod answer;

pub use answer::Races;
use race_rows::SearchInPlace;
use table_entries::FilledTable;
use trace::{Refusal, TraceFile};

// How many races there are; `counts` tells how many each operation has with later ones.
fn count_races(filled: &FilledTable<'_>, counts: &mut [u16; 1024]) -> u32
    ensures { (result ≡ race_count (trace_of filled.now.trace.bytes.now))
        × Hints (trace_of filled.now.trace.bytes.now) counts.new }
{
    let mut search = SearchInPlace::of(*filled);
    search.begin();
    let mut count: usize = 0;
    for a in 0..filled.trace.operations as usize {
        let found = search.count_row();
        counts[a] = found as u16;
        count += found;
    }
    count as u32
}

// Question 16 of a file whose table is filled, where the list holds `room` records.
fn count_if_room(filled: &FilledTable<'_>, room: usize) -> Result<Races, Refusal>
    ensures { result ≡ races_answer filled.now.trace.bytes.now (length filled.now.table.now) room }
{
    let mut counts = [0u16; 1024];
    let races = count_races(filled, &mut counts);
    if races as usize <= room {
        return Ok(Races {
            workers: filled.trace.workers,
            operations: filled.trace.operations,
            races,
        });
    }
    Err(Refusal {
        number: 16,
        place: races,
    })
}

// Asks the file's questions, 11 and 16, where the list holds `room` records; the table is filled where those before 16
// do not refuse.
pub fn fill_and_count(file: &[u8], table: &mut [u16], room: usize) -> Result<Races, Refusal>
    ensures { CountCall file.now table.old room result table.new }
{
    order_table::order_table(file, table)?;
    let trace = TraceFile::of(file);
    count_if_room(&FilledTable { trace, table }, room)
}

// Writes all races, their lower operations and their higher ones, and answers how many there are. `counts` may tell
// which operations have none.
fn write_rows(
    filled: &FilledTable<'_>,
    counts: &[u16; 1024],
    lower: &mut [u16],
    higher: &mut [u16],
) -> u32
    requires { Hints (trace_of filled.now.trace.bytes.now) counts.now
        × (race_count (trace_of filled.now.trace.bytes.now) ≤ length lower.old)
        × (race_count (trace_of filled.now.trace.bytes.now) ≤ length higher.old) }
    ensures { AllWritten (trace_of filled.now.trace.bytes.now) result lower.old lower.new higher.old higher.new }
{
    let n = filled.trace.operations as usize;
    let mut search = SearchInPlace::of(*filled);
    search.begin();
    let mut row = [0u16; 1024];
    let mut at: usize = 0;
    for a in 0..n {
        let count = search.list_row(counts[a], &mut row);
        list_writer::fill(lower, at, count, a as u16);
        list_writer::copy(higher, at, count, &row);
        at += count;
    }
    at as u32
}

// The number of races where they are more than `room`. They are counted only if they can be more.
fn too_many(filled: &FilledTable<'_>, room: usize, counts: &mut [u16; 1024]) -> Option<u32>
    requires { Hints (trace_of filled.now.trace.bytes.now) counts.old }
    ensures { (result ≡ too_many (race_count (trace_of filled.now.trace.bytes.now)) room)
        × Hints (trace_of filled.now.trace.bytes.now) counts.new }
{
    if pair_count::pair_count(&filled.trace) <= room {
        return None;
    }
    let count = count_races(filled, counts);
    if room < count as usize {
        return Some(count);
    }
    None
}

// Question 16 of a file whose table is filled; where it does not refuse, the races.
fn list_if_room(
    filled: &FilledTable<'_>,
    lower: &mut [u16],
    higher: &mut [u16],
) -> Result<Races, Refusal>
    ensures { ListsCall filled.now.trace.bytes.now (length filled.now.table.now) lower.old higher.old result
        lower.new higher.new }
{
    let room = lower.len().min(higher.len());
    let mut counts = [1u16; 1024];
    let refused = too_many(filled, room, &mut counts);
    if let Some(place) = refused {
        return Err(Refusal { number: 16, place });
    }
    let races = write_rows(filled, &counts, lower, higher);
    Ok(Races {
        workers: filled.trace.workers,
        operations: filled.trace.operations,
        races,
    })
}

// Asks the file's questions, 11 and 16, of any bytes, any table and any two lists; where none refuses, the races, and
// the order table; where 16 does, the order table.
pub fn races(
    file: &[u8],
    table: &mut [u16],
    lower: &mut [u16],
    higher: &mut [u16],
) -> Result<Races, Refusal>
    ensures { RacesCall file.now table.old lower.old higher.old result table.new lower.new higher.new }
{
    order_table::order_table(file, table)?;
    let trace = TraceFile::of(file);
    list_if_room(&FilledTable { trace, table }, lower, higher)
}
