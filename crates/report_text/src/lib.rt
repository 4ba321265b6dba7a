// The report of a file, as text in a lent output.
#![tactic(auto)]

ghost use Rattle.std.specs.Prelude.{◌+◌, ◌*◌, ◌≤◌, length, take};
ghost use Rattle.race_model.specs.RaceList.{pair};
ghost use Rattle.races.specs.Races.{race_records};
ghost use Rattle.text.specs.Placed.{Placed};
ghost use Rattle.report_text.specs.Premises.{RaceRoom, ListingRoom, to_write, answer_text};
ghost use Rattle.report_text.specs.ReportText.{race_line, race_lines, listing};
ghost use Rattle.report_text.specs.ReportText.{ReportCall};

use races::Races;
use trace::Refusal;

// How many bytes of a file decide its report: one more than an accepted file can have.
pub const FILE_SIZE: usize = 10251;

// A table for 1,024 operations and 16 workers, and space for 4,096 races.
const TABLE_SPACE: usize = 16384;

const RACE_SPACE: usize = 4096;

// No report is longer: at most 27 bytes for the counts, 17 for each race, and 17 for their number.
pub const TEXT_SIZE: usize = 27 + 17 * RACE_SPACE + 17;

// Places the line of a race from `at` on, and answers where it ends.
fn put_race_line(output: &mut [u8], at: usize, lower: u16, higher: u16) -> usize
    requires { at + 17 ≤ length output.old }
    ensures { Placed output.old at (race_line (pair lower higher)) result output.new
        × (result ≤ at + 17) }
{
    let lower = u32::from(lower);
    let higher = u32::from(higher);
    text::put_pair_line(output, at, b"race ", lower, b" ", higher)
}

// Places a line for each of the first `count` races from `at` on, and answers where they end.
fn put_race_lines(
    output: &mut [u8],
    at: usize,
    lower: &[u16],
    higher: &[u16],
    count: usize,
) -> usize
    requires { RaceRoom output.old at lower.now higher.now count }
    ensures { Placed output.old at
        (race_lines (take count (race_records lower.now higher.now))) result output.new
        × (result ≤ at + 17 * count) }
{
    let mut end = at;
    for i in 0..count {
        end = put_race_line(output, end, lower[i], higher[i]);
    }
    end
}

// Places the report of an accepted file, whose races the lists hold, from the start on, and answers where it ends.
fn put_listing(output: &mut [u8], found: Races, lower: &[u16], higher: &[u16]) -> usize
    requires { ListingRoom output.old lower.now higher.now found.races }
    ensures { Placed output.old 0
        (listing found.workers found.operations (take found.races (race_records lower.now higher.now)) found.races)
        result output.new }
{
    let workers = u32::from(found.workers);
    let first = text::put_pair_line(output, 0, b"ops ", found.operations, b" workers ", workers);
    let last = put_race_lines(output, first, lower, higher, found.races as usize);
    text::put_count_line(output, last, b"races ", found.races)
}

// Places the text of what the race list answered from the start on, and answers where it ends.
fn put_answer(
    output: &mut [u8],
    answer: Result<Races, Refusal>,
    lower: &[u16],
    higher: &[u16],
) -> usize
    requires { ListingRoom output.old lower.now higher.now (to_write answer) }
    ensures { Placed output.old 0
        (answer_text answer (race_records lower.now higher.now)) result output.new }
{
    match answer {
        Ok(found) => put_listing(output, found, lower, higher),
        Err(refusal) => {
            let number = u32::from(refusal.number);
            text::put_pair_line(output, 0, b"refused ", number, b" ", refusal.place)
        }
    }
}

// Asks the file's questions, 11 and 16, of any bytes, with space for 4,096 races; the report, and how many bytes it
// has.
pub fn report(file: &[u8], output: &mut [u8; TEXT_SIZE]) -> usize
    ensures { ReportCall file.now output.old result output.new }
{
    let mut table = [0u16; TABLE_SPACE];
    let mut lower = [0u16; RACE_SPACE];
    let mut higher = [0u16; RACE_SPACE];
    let answer = races::races(file, &mut table, &mut lower, &mut higher);
    put_answer(output, answer, &lower, &higher)
}
