// The pair order and the two runs on a large trace, compared with the rows of its table and with runs step by step.
#![tactic(auto)]

use large_rows::Rows;
use outcomes::{Due, Kind, Question, Seen};
use test_memory::TwoLists;

// Space for a run.
const RUN: usize = 1030;

// How many pairs of each kind are compared.
const PAIRS: usize = 8;

// Does a stand in the list, and b not before it?
fn stands_first(list: &[u16], a: usize, b: usize) -> bool {
    match list
        .iter()
        .map(|x| usize::from(*x))
        .find(|x| *x == a || *x == b)
    {
        Some(x) => x == a,
        None => false,
    }
}

// Does the buffer start with the run that holds b back, with a before b, and then hold what was there?
fn run_holds(file: &[u8], a: usize, b: usize, buffer: &[u16]) -> bool {
    let n = plain_file::operations(file);
    match buffer.get(..n) {
        Some(run) => {
            test_memory::untouched_from(buffer, n)
                && step_by_step::is_held_back_run(file, run, b)
                && stands_first(run, a, b)
        }
        None => false,
    }
}

// A size that just fits n numbers, that is larger, or now and then too small; `compare_pairs` takes others.
fn room(n: usize, way: usize) -> usize {
    match way % 5 {
        4 => n.saturating_sub(1),
        more => n.saturating_add(more),
    }
}

// The two runs of a and b, where their order is due.
fn runs_call(seen: &mut Seen, file: &[u8], a: usize, b: usize, order: Due) {
    let n = plain_file::operations(file);
    let mut runs = TwoLists::<RUN>::filled();
    let x = test_memory::number(a);
    let y = test_memory::number(b);
    let sizes = [room(n, a), room(n, b)];
    let answer = answers::runs_answer(file, x, y, &mut runs, sizes);
    let due = answers::runs_due(order, n, sizes);
    let memory = match due {
        Ok(_) => run_holds(file, a, b, &runs.first) && run_holds(file, b, a, &runs.second),
        Err(_) => runs.untouched_from(0),
    };
    seen.compare(answer, due.into(), memory);
    if due.is_ok() {
        seen.count(Kind::Steps, 2 * n as u64);
    }
}

// The order of a pair, by the largest runs, by the rows and by the call, and its two runs.
fn pair_call(seen: &mut Seen, rows: &Rows<'_>, a: usize, b: usize) {
    let file = rows.file;
    let answer = answers::order_answer(file, test_memory::number(a), test_memory::number(b));
    if a == b {
        let due: Due = Err(Question::Different.at(0));
        seen.compare(Some(answer), due.into(), true);
        return;
    }
    let order = step_by_step::order_of(file, a, b);
    let due: Due = Ok([outcomes::order_value(order), 0, 0, 0]);
    seen.compare(Some(answer), due.into(), rows.order(a, b) == order);
    let apart = plain_file::worker_of(file, a) != plain_file::worker_of(file, b);
    seen.note_order(order, apart, plain_file::conflict(file, a, b));
    runs_call(seen, file, a, b, due);
}

// The first operation from b on, going round, that is another than a and in conflict with it, if there is one.
fn partner(file: &[u8], a: usize, b: usize) -> Option<usize> {
    let n = plain_file::operations(file);
    (0..n)
        .map(|i| (b % 1024 + i) % n)
        .find(|x| *x != a && plain_file::conflict(file, a, *x))
}

// The first operation from a on, going round, that has a partner, if there is one.
fn with_partner(file: &[u8], a: usize) -> Option<usize> {
    let n = plain_file::operations(file);
    (0..n)
        .map(|i| (a % 1024 + i) % n)
        .find(|x| partner(file, *x, 0).is_some())
}

// A pair in conflict, where there is one.
fn conflict_call(seen: &mut Seen, rows: &Rows<'_>, from: usize, to: usize) {
    let file = rows.file;
    if let Some(a) = with_partner(file, from)
        && let Some(b) = partner(file, a, to)
    {
        pair_call(seen, rows, a, b);
    }
}

// Pairs of any operations, and pairs in conflict.
pub fn pair_calls(seen: &mut Seen, rows: &Rows<'_>, seed: u64) {
    let file = rows.file;
    let n = plain_file::operations(file) as u64;
    let past = answers::order_answer(file, n as u32, 0);
    let past_due: Due = Err(Question::InTrace.at(0));
    seen.compare(Some(past), past_due.into(), true);
    let mut state = seed;
    for _ in 0..PAIRS {
        let other_state = random_files::next(state);
        let a = random_files::below(state, n) as usize;
        let b = random_files::below(other_state, n) as usize;
        pair_call(seen, rows, a, b);
        conflict_call(seen, rows, a, b);
        state = random_files::next(other_state);
    }
}
