// The race list on records, through a local list of records, and on two lists of numbers, compared.
#![tactic(auto)]

use outcomes::{Answer, Kind, Seen};
use races::Races;
use test_memory::TwoLists;
use trace::Refusal;

// The largest table, with some numbers more.
pub const TABLE: usize = 16390;

// The two calls, as numbers

fn numbers_of(answer: Result<Races, Refusal>) -> Answer {
    match answer {
        Ok(found) => Answer {
            number: 0,
            place: 0,
            values: [u32::from(found.workers), found.operations, found.races, 0],
        },
        Err(refusal) => Answer {
            number: refusal.number,
            place: refusal.place,
            values: [0; 4],
        },
    }
}

// The two calls, with a table of `size` numbers.
#[derive(Clone, Copy)]
pub enum Call {
    // On two lists of `room` numbers.
    Numbers,
    // On a list of `room` records. The records come from two lists, and go back.
    Records,
}

impl Call {
    // Makes the call; where there is not so much memory, there is no answer. What is behind `size` and `room` is looked
    // at too, so all of the memory is handed on.
    pub fn answer<const N: usize>(
        self,
        file: &[u8],
        table: &mut [u16],
        size: usize,
        lists: &mut TwoLists<N>,
        room: usize,
    ) -> Option<Answer> {
        let rows = table.get_mut(..size)?;
        let answer = match self {
            Call::Numbers => {
                let lower = lists.first.get_mut(..room)?;
                let higher = lists.second.get_mut(..room)?;
                races::races(file, rows, lower, higher)
            }
            Call::Records if room <= N => {
                lent_list::list_races(file, rows, room, &mut lists.first, &mut lists.second)
            }
            Call::Records => return None,
        };
        Some(numbers_of(answer))
    }
}

// Notes what the call on records gave, what was due from it, and whether the memory is as due.
pub fn note_calls(seen: &mut Seen, given: Option<Answer>, due: Answer, memory: bool) {
    seen.compare(given, due, memory);
    seen.count(Kind::Races, due.values[2] as u64);
}

// Any trace

// Space for the races of a random trace.
pub const LIST: usize = 20000;

// Makes both calls. All numbers of the tables and of the lists are compared, and those behind the races with what was
// there before.
pub fn compare_calls(seen: &mut Seen, file: &[u8], size: usize, room: usize) {
    let mut table = [0u16; TABLE];
    let mut rows = [0u16; TABLE];
    let mut lists = TwoLists::<LIST>::filled();
    let mut lists_given = TwoLists::<LIST>::filled();
    test_memory::fill(&mut table);
    test_memory::fill(&mut rows);
    let due = Call::Numbers.answer(file, &mut table, size, &mut lists, room);
    let given = Call::Records.answer(file, &mut rows, size, &mut lists_given, room);
    let Some(due) = due else {
        seen.expect(false);
        return;
    };
    let written = due.values[2] as usize;
    let memory = rows == table
        && lists_given.hold(&lists, written)
        && lists.untouched_from(written);
    note_calls(seen, given, due, memory);
}
