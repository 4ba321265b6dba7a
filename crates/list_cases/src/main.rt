// Runs the race list on records, through a local list of records, on example A of document 01, on the trace with the
// most races, on random traces and on damaged files; compares it with the race list on two lists of numbers, and prints
// what was seen. The first line has the mismatches of each of these parts.
#![tactic(auto)]

use compare_records::{LIST, TABLE};
use most_races::MOST;
use outcomes::{Kind, Seen};
use std::io;
use test_files::{Fields, Form};

// Example A

// The example's one race, in a list that has no place, that just fits and that is longer; and a table that just fits,
// that is longer and that is too short.
const EXAMPLE_SPACE: [(usize, usize); 5] = [(21, 0), (21, 1), (21, 5), (24, 1), (20, 1)];

fn example(seen: &mut Seen) {
    let mut file = [0u8; 80];
    let operations = [
        Fields::of_access(0, test_files::Kind::Write, 7, 1),
        Fields::of_event(0, test_files::Kind::Post, 1),
        Fields::of_event(1, test_files::Kind::Wait, 1),
        Fields::of_access(1, test_files::Kind::Read, 7, 1),
        Fields::of_event(2, test_files::Kind::Wait, 1),
        Fields::of_access(2, test_files::Kind::Write, 7, 1),
        Fields::of_event(2, test_files::Kind::Post, 1),
    ];
    test_files::put_header(&mut file, Form::Plain, 3, 7);
    for (k, fields) in operations.iter().enumerate() {
        test_files::put_operation(&mut file, k, *fields);
    }
    for (size, room) in EXAMPLE_SPACE {
        compare_records::compare_calls(seen, &file, size, room);
    }
}

// Random traces

// Up to three places less than there are races, or more, but no more than there is space for.
fn room_near(races: usize, seed: u64) -> usize {
    let room = races % 1000000 + random_files::below(seed, 7) as usize;
    room.saturating_sub(3).min(LIST)
}

// As many numbers as the table has, up to five more, or one less.
fn size_near(file: &[u8], seed: u64) -> usize {
    let size = test_memory::product(plain_file::operations(file), plain_file::workers(file));
    match random_files::below(seed, 8) {
        drawn if drawn < 6 => size + drawn as usize,
        6 => size,
        _ => size.saturating_sub(1),
    }
}

fn random_call(seen: &mut Seen, file: &[u8], seed: u64) {
    let mut table = [0u16; TABLE];
    let answer = races::fill_and_count(file, &mut table, MOST);
    let races = answer.map_or(0, |found| found.races as usize);
    let room = room_near(races, seed);
    compare_records::compare_calls(seen, file, size_near(file, random_files::next(seed)), room);
}

fn random_calls(seen: &mut Seen, file: &[u8], size: usize, seed: u64) {
    match file.get(..size) {
        Some(file) => random_call(seen, file, random_files::next(seed / 7 + 1)),
        None => seen.expect(false),
    }
}

fn small_case(seen: &mut Seen, seed: u64) {
    let mut file = [0u8; 128];
    let size = random_files::random_trace(&mut file, Form::Plain, seed);
    random_calls(seen, &file, size, seed);
}

fn damaged_case(seen: &mut Seen, seed: u64) {
    let mut file = [0u8; 128];
    let size = random_files::random_trace(&mut file, Form::Plain, seed);
    let left = random_files::damaged(&mut file, size, random_files::next(seed / 3 + 1));
    random_calls(seen, &file, left, seed);
}

fn large_case(seen: &mut Seen, seed: u64) {
    let mut file = [0u8; 10250];
    let size = large_files::large_trace(&mut file, Form::Plain, seed);
    random_calls(seen, &file, size, seed);
}

// Traces of up to eight operations, damaged files, and large traces, so many of each.
fn random_cases(small: &mut Seen, damaged: &mut Seen, large: &mut Seen, count: usize) {
    let mut seed: u64 = 31;
    for _ in 0..count {
        seed = random_files::next(seed);
        let second = random_files::next(seed / 2 + 1);
        small_case(small, second);
        damaged_case(damaged, random_files::next(second));
        large_case(large, random_files::next(second / 5 + 1));
    }
}

// What is printed

fn print_seen<H: Print>(rt: &H, title: &str, seen: &Seen) -> io::Result<()> {
    println!(rt; "{title}")?;
    for (number, calls) in seen.calls.iter().enumerate() {
        match (number, *calls) {
            (_, 0) => (),
            (0, _) => println!(rt; "  listed: {calls}")?,
            _ => println!(rt; "  refused {number}: {calls}")?,
        }
    }
    let races = seen.kinds[Kind::Races as usize];
    if races != 0 {
        println!(rt; "  races compared: {races}")?;
    }
    Ok(())
}

// How many small traces, damaged files and large traces.
const CASES: usize = 300;

fn main(rt: HostRuntime) -> io::Result<()> {
    let mut of_example = Seen::nothing();
    let mut most = Seen::nothing();
    let mut small = Seen::nothing();
    let mut damaged = Seen::nothing();
    let mut large = Seen::nothing();
    example(&mut of_example);
    most_races::most_races(&mut most);
    random_cases(&mut small, &mut damaged, &mut large, CASES);
    print!(rt; "mismatches")?;
    for seen in [of_example, most, small, damaged, large] {
        print!(rt; " {}", seen.mismatches())?;
    }
    print_seen(&rt, "\nexample A", &of_example)?;
    print_seen(&rt, "the most races", &most)?;
    print_seen(&rt, "random traces", &small)?;
    print_seen(&rt, "damaged files", &damaged)?;
    print_seen(&rt, "large traces", &large)
}
