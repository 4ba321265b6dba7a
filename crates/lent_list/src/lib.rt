// The call `race_list::race_list` on a local list, for tests: the records come from two lists of numbers, and go back
// to them.
#![tactic(auto)]

use race_model::Race;
use races::Races;
use trace::Refusal;

// Records of zeros, more than any trace has races.
fn no_races() -> [Race; 524288] {
    [Race {
        lower: 0,
        higher: 0,
    }; 524288]
}

// Writes the numbers of two lists to records.
fn copy_in(list: &mut [Race], lower: &[u16], higher: &[u16]) {
    for (race, (lower, higher)) in list.iter_mut().zip(lower.iter().zip(higher)) {
        *race = Race {
            lower: *lower,
            higher: *higher,
        };
    }
}

// Writes the numbers of records to two lists.
fn copy_back(list: &[Race], lower: &mut [u16], higher: &mut [u16]) {
    for (race, (lower, higher)) in list.iter().zip(lower.iter_mut().zip(higher)) {
        *lower = race.lower;
        *higher = race.higher;
    }
}

// Calls `race_list` on the first `room` records, or all.
pub fn list_races(
    file: &[u8],
    table: &mut [u16],
    room: usize,
    lower: &mut [u16],
    higher: &mut [u16],
) -> Result<Races, Refusal> {
    let mut list = no_races();
    copy_in(&mut list, lower, higher);
    let answer = race_list::race_list(file, table, &mut list[..room.min(524288)]);
    copy_back(&list, lower, higher);
    answer
}
