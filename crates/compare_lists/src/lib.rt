// The order table, the race list and the tidy file, compared with what all runs say.
#![tactic(auto)]

use expected::{Judgement, RACES, ROWS};
use outcomes::{Due, Kind, Question, Seen};
use test_memory::TwoLists;

// The order table

// How many numbers the table has, a row for each operation; of a refused file 128, so that memory is lent.
fn table_size(reading: Due) -> usize {
    match reading {
        Ok(counts) => test_memory::product(counts[1] as usize, counts[0] as usize),
        Err(_) => 128,
    }
}

// What is due from the table, where `reading` is due from reading the file.
fn table_due(reading: Due, size: usize) -> Due {
    if reading.is_ok() && size < table_size(reading) {
        return Err(Question::TableSpace.at(0));
    }
    reading
}

// Does the table hold the rows, where such an answer was due, and then what was there?
fn table_holds(table: &[u16; ROWS], judgement: &Judgement, due: Due) -> bool {
    let written = match due {
        Ok(_) => table_size(judgement.reading),
        Err(_) => 0,
    };
    test_memory::holds(table, &judgement.rows, written)
}

fn table_call(seen: &mut Seen, file: &[u8], judgement: &Judgement, size: usize) {
    let mut table = [0u16; ROWS];
    test_memory::fill(&mut table);
    let answer = answers::table_answer(file, &mut table, size);
    let due = table_due(judgement.reading, size);
    let memory = table_holds(&table, judgement, due);
    seen.compare(answer, due.into(), memory);
}

pub fn table_calls(seen: &mut Seen, file: &[u8], judgement: &Judgement) {
    let size = table_size(judgement.reading);
    table_call(seen, file, judgement, size);
    table_call(seen, file, judgement, size.saturating_sub(1));
    table_call(seen, file, judgement, size.saturating_add(5));
}

// The race list

// The races that are due, and how many there are; of a refused file 20, so that lists are lent.
#[derive(Clone, Copy)]
struct Races {
    due: TwoLists<RACES>,
    count: usize,
}

fn races_of(file: &[u8], judgement: &Judgement) -> Races {
    let mut due = TwoLists::zeros();
    let count = match judgement.reading {
        Ok(_) => judgement.put_races(file, &mut due),
        Err(_) => 20,
    };
    Races { due, count }
}

// The race list with a table and two lists of these sizes.
fn race_call(
    seen: &mut Seen,
    file: &[u8],
    judgement: &Judgement,
    races: &Races,
    sizes: [usize; 3],
) {
    let mut table = [0u16; ROWS];
    let mut lists = TwoLists::<34>::filled();
    test_memory::fill(&mut table);
    let of_table = table_due(judgement.reading, sizes[0]);
    let due = answers::races_due(of_table, races.count, [sizes[1], sizes[2]]);
    let answer = answers::races_answer(file, &mut table, &mut lists, sizes);
    let written = if due.is_ok() { races.count } else { 0 };
    let memory = table_holds(&table, judgement, of_table) && lists.hold(&races.due, written);
    seen.compare(answer, due.into(), memory);
}

// Space that just fits, that is longer, that is too short in one list or the other, and a table that is too short.
fn race_sizes(size: usize, races: usize) -> [[usize; 3]; 5] {
    let less = races.saturating_sub(1);
    let more = races.saturating_add(2);
    [
        [size, races, races],
        [
            size.saturating_add(3),
            races.saturating_add(4),
            races.saturating_add(6),
        ],
        [size, less, more],
        [size.saturating_add(1), races, less],
        [size.saturating_sub(1), less, less],
    ]
}

pub fn race_calls(seen: &mut Seen, file: &[u8], judgement: &Judgement) {
    let size = table_size(judgement.reading);
    let races = races_of(file, judgement);
    if judgement.reading.is_ok() {
        seen.count(Kind::Races, races.count as u64);
    }
    for sizes in race_sizes(size, races.count) {
        race_call(seen, file, judgement, &races, sizes);
    }
}

// The tidy file

// Tidies the file into an output of that size, and expects the tidy file.
fn canonical_call(seen: &mut Seen, file: &[u8], reading: Due, tidy: &[u8], size: usize) {
    let mut output = [0u8; 120];
    test_memory::fill(&mut output);
    let answer = answers::canonical_answer(file, &mut output, size);
    let due = answers::canonical_due(reading, file.len(), size);
    let written = if due.is_ok() { file.len() } else { 0 };
    let memory = test_memory::holds(&output, tidy, written);
    seen.compare(answer, due.into(), memory);
}

// The tidy file is accepted with the same counts, and its own tidy file is the same.
fn read_back(seen: &mut Seen, reading: Due, tidy: &[u8], size: usize) {
    match tidy.get(..size) {
        Some(file) => {
            seen.compare(Some(answers::accept_answer(file)), reading.into(), true);
            canonical_call(seen, file, reading, tidy, size);
        }
        None => seen.expect(false),
    }
}

pub fn canonical_calls(seen: &mut Seen, file: &[u8], reading: Due) {
    let mut tidy = [0u8; 108];
    let size = file.len();
    plain_file::tidy_file(file, &mut tidy);
    canonical_call(seen, file, reading, &tidy, size);
    canonical_call(seen, file, reading, &tidy, size.saturating_sub(1));
    canonical_call(seen, file, reading, &tidy, size.saturating_add(4));
    if reading.is_ok() {
        read_back(seen, reading, &tidy, size);
    }
}
