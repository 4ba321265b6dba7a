// Makes the calls on large traces, each in two file orders, and compares them with runs step by step, and with one
// another.
#![tactic(auto)]

use compare_shuffled::Shuffled;
use large_rows::{Rows, TABLE};
use outcomes::{Due, Kind, Seen};
use test_files::Form;

fn accepted_calls(seen: &mut Seen, file: &[u8], reading: Due, seed: u64) {
    let size = test_memory::product(plain_file::operations(file), plain_file::workers(file));
    let mut table = [0u16; TABLE];
    test_memory::fill(&mut table);
    let answer = answers::table_answer(file, &mut table, size);
    let untouched = test_memory::untouched_from(&table, size);
    seen.compare(answer, reading.into(), untouched);
    let rows = Rows::new(file, &table);
    rows.compare(seen, seed);
    large_pairs::pair_calls(seen, &rows, random_files::next(seed));
    large_lists::race_calls(seen, &rows, size, reading);
    large_lists::tidy_call(seen, file, reading);
    large_lists::short_calls(seen, file, size);
}

// Makes the calls on a file.
fn compare_calls(seen: &mut Seen, file: &[u8], seed: u64) {
    let reading = step_by_step::reading_due(file);
    seen.note_file(reading);
    seen.count(Kind::Operations, plain_file::operations(file) as u64);
    seen.compare(Some(answers::accept_answer(file)), reading.into(), true);
    match reading {
        Ok(_) => accepted_calls(seen, file, reading, seed),
        Err(_) => large_lists::refused_calls(seen, file, reading),
    }
}

// The cases

// The largest file, with some bytes more.
const LARGE_SIZE: usize = 12300;

fn large_case(seen: &mut Seen, seed: u64) {
    let mut file = [0u8; LARGE_SIZE];
    let mut other = [0u8; LARGE_SIZE];
    let mut renumbered = [0u16; 1024];
    let size = large_files::large_trace(&mut file, Form::Plain, seed);
    let second = random_files::next(seed / 5 + 1);
    large_files::shuffle(&file, &mut other, &mut renumbered, second);
    let (Some(file), Some(other)) = (file.get(..size), other.get(..size)) else {
        seen.expect(false);
        return;
    };
    compare_calls(seen, file, second);
    let shuffled = Shuffled {
        file,
        other,
        renumbered: &renumbered,
    };
    shuffled.compare(seen, second);
}

// What is seen in so many large traces.
pub fn large_traces(count: usize) -> Seen {
    let mut seen = Seen::nothing();
    let mut seed: u64 = 77;
    for _ in 0..count {
        seed = random_files::next(seed);
        large_case(&mut seen, random_files::next(seed / 2 + 1));
    }
    seen
}
