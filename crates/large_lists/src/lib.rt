// The race list and the tidy file on a large trace, compared with the rows of its table and with document 01's words;
// and the calls on a large trace that is refused.
#![tactic(auto)]

use large_rows::{Rows, TABLE};
use outcomes::{Due, Kind, Question, Seen};
use test_memory::TwoLists;

// Space for a list of races and for a tidy file.
const LIST: usize = 20000;

const OUTPUT: usize = 12400;

// Races

// An accepted trace: its table, of which `size` numbers are due, what is due from reading it, and its races.
#[derive(Clone, Copy)]
struct Case<'a> {
    rows: &'a Rows<'a>,
    size: usize,
    reading: Due,
    lists: &'a TwoLists<LIST>,
    races: usize,
}

impl<'a> Case<'a> {
    // The race list in two lists of so many places.
    fn call(&self, seen: &mut Seen, room: usize) {
        let Rows { file, table, .. } = *self.rows;
        let mut lists = TwoLists::<LIST>::filled();
        let mut rows = [0u16; TABLE];
        test_memory::fill(&mut rows);
        let due = answers::races_due(self.reading, self.races, [room, room]);
        let answer = answers::races_answer(file, &mut rows, &mut lists, [self.size, room, room]);
        let written = if due.is_ok() { self.races } else { 0 };
        let memory = lists.hold(self.lists, written) && test_memory::holds(&rows, table, self.size);
        seen.compare(answer, due.into(), memory);
    }
}

// Lists that just fit, or that are as long as can be where there are very many races, and lists that are too short. Of
// the table `size` numbers are due.
pub fn race_calls(seen: &mut Seen, rows: &Rows<'_>, size: usize, reading: Due) {
    let mut lists = TwoLists::zeros();
    let races = rows.put_races(&mut lists);
    let room = races.min(LIST);
    let case = Case {
        rows,
        size,
        reading,
        lists: &lists,
        races,
    };
    case.call(seen, room);
    case.call(seen, room.saturating_sub(1));
    seen.count(Kind::Races, races as u64);
}

// The tidy file

// The tidy file is written, and reads back with the same counts.
pub fn tidy_call(seen: &mut Seen, file: &[u8], reading: Due) {
    let size = file.len();
    let mut tidy = [0u8; OUTPUT];
    let mut output = [0u8; OUTPUT];
    plain_file::tidy_file(file, &mut tidy);
    test_memory::fill(&mut output);
    let answer = answers::canonical_answer(file, &mut output, size);
    let due = answers::canonical_due(reading, size, size);
    seen.compare(answer, due.into(), test_memory::holds(&output, &tidy, size));
    if let Some(written) = output.get(..size) {
        seen.compare(Some(answers::accept_answer(written)), reading.into(), true);
    }
}

// Space that is too short

// A table and an output that are one too short.
pub fn short_calls(seen: &mut Seen, file: &[u8], size: usize) {
    let mut table = [0u16; TABLE];
    let mut output = [0u8; OUTPUT];
    test_memory::fill(&mut table);
    test_memory::fill(&mut output);
    let rows = answers::table_answer(file, &mut table, size.saturating_sub(1));
    let canonical = answers::canonical_answer(file, &mut output, file.len().saturating_sub(1));
    let rows_due: Due = Err(Question::TableSpace.at(0));
    let canonical_due: Due = Err(Question::OutputSpace.at(0));
    seen.compare(rows, rows_due.into(), test_memory::untouched(&table));
    seen.compare(
        canonical,
        canonical_due.into(),
        test_memory::untouched(&output),
    );
}

// Refused files

fn refused_lists(seen: &mut Seen, file: &[u8], due: Due) {
    let mut table = [0u16; 20];
    let mut lists = TwoLists::<20>::filled();
    test_memory::fill(&mut table);
    let rows = answers::table_answer(file, &mut table, 20);
    let races = answers::races_answer(file, &mut table, &mut lists, [20, 20, 20]);
    seen.compare(rows, due.into(), test_memory::untouched(&table));
    seen.compare(races, due.into(), lists.untouched_from(0));
}

fn refused_runs(seen: &mut Seen, file: &[u8], due: Due) {
    let mut runs = TwoLists::<20>::filled();
    let answer = answers::runs_answer(file, 0, 1, &mut runs, [20, 20]);
    seen.compare(Some(answers::order_answer(file, 0, 1)), due.into(), true);
    seen.compare(answer, due.into(), runs.untouched_from(0));
}

fn refused_tidy(seen: &mut Seen, file: &[u8], due: Due) {
    let mut output = [0u8; 20];
    test_memory::fill(&mut output);
    let canonical = answers::canonical_answer(file, &mut output, 20);
    seen.compare(canonical, due.into(), test_memory::untouched(&output));
}

// A refused file is refused by every call, and nothing is written.
pub fn refused_calls(seen: &mut Seen, file: &[u8], due: Due) {
    refused_lists(seen, file, due);
    refused_runs(seen, file, due);
    refused_tidy(seen, file, due);
}
