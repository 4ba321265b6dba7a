// Runs the calls on the typed cases of its standard input, on random traces of up to eight operations and four workers,
// on damaged files, on random pairs of lists, and on large random traces, compares their answers and lent memory with
// what is due, and prints what was seen. The first line has the mismatches of each of these parts.
#![tactic(auto)]

use outcomes::{KINDS, Seen};
use small_cases::Part;
use std::io;
use std::io::Read;

// What is printed

// What is counted beside calls and files, by the names of `outcomes::Kind`, in its order.
const LABELS: [&str; KINDS] = [
    "mismatches ...................",
    "runs tried ...................",
    "complete runs ................",
    "a Wait of several Posts ......",
    "pairs ordered ................",
    "of these, different workers ..",
    "of these, in conflict ........",
    "pairs not ordered ............",
    "races ........................",
    "beginnings of runs ...........",
    "operations ...................",
    "rows compared ................",
    "steps of runs ................",
    "traces in two file orders ....",
    "lines ........................",
    "looks at lent memory .........",
];

// The counts by number that are not 0, on lines: that of 0 behind one label, and the others behind the other one.
fn print_counts<H: Print>(rt: &H, label: &str, refused: &str, counts: &[u64]) -> io::Result<()> {
    for (number, count) in counts.iter().enumerate() {
        match (number, *count) {
            (_, 0) => (),
            (0, _) => println!(rt; "  {label}: {count}")?,
            _ => println!(rt; "  {refused} {number}: {count}")?,
        }
    }
    Ok(())
}

// What was seen in a part.
fn print_seen<H: Print>(rt: &H, title: &str, seen: &Seen) -> io::Result<()> {
    println!(rt; "{title}")?;
    print_counts(rt, "accepted", "refused", &seen.files)?;
    print_counts(rt, "calls that succeeded", "calls refused", &seen.calls)?;
    for (label, count) in LABELS.iter().zip(seen.kinds.iter()) {
        if *count != 0 {
            println!(rt; "  {label} {count}")?;
        }
    }
    Ok(())
}

// The parts

// The typed cases; a text that is not read up to its end, or does not end within the space, counts as a mismatch.
fn typed_part<R: Read>(reader: &mut R) -> Seen {
    let mut text = [0u8; 65536];
    let input = streams::read_up_to(reader, &mut text);
    let length = input.count;
    if input.whole && length < 65536 {
        return typed_cases::typed_cases(&text[..length]);
    }
    let mut seen = Seen::nothing();
    seen.expect(false);
    seen
}

// How many random traces, how many damaged files and how many pairs of lists.
const CASES: usize = 40000;

// How many large traces.
const LARGE: usize = 1000;

fn main(rt: HostRuntime) -> io::Result<()> {
    let typed = typed_part(&mut rt.stdin());
    let random = Part::Traces.cases(CASES);
    let damaged = Part::Damaged.cases(CASES);
    let lists = Part::Lists.cases(CASES);
    let large = large_cases::large_traces(LARGE);
    print!(rt; "mismatches")?;
    for seen in [typed, random, damaged, lists, large] {
        print!(rt; " {}", seen.mismatches())?;
    }
    print_seen(&rt, "\ntyped cases", &typed)?;
    print_seen(&rt, "random traces", &random)?;
    print_seen(&rt, "damaged files", &damaged)?;
    print_seen(&rt, "pairs of lists", &lists)?;
    print_seen(&rt, "large traces", &large)
}
