// The pair order, the two runs and the beginning of a run, compared with what all runs say.
#![tactic(auto)]

use expected::Judgement;
use outcomes::{Answer, Due, Kind, Question, Seen};
use test_memory::TwoLists;

// The order of a pair

// What is due from the pair order.
fn order_due(judgement: &Judgement, a: usize, b: usize) -> Due {
    let [_, count, _, _] = judgement.reading?;
    let count = count as usize;
    if count <= a || count <= b {
        return Err(Question::InTrace.at(0));
    }
    if a == b {
        return Err(Question::Different.at(0));
    }
    Ok([outcomes::order_value(judgement.order(a, b)), 0, 0, 0])
}

// The beginning of a run

// How long the part is that ends with the first appearance of `chosen`, if the other number differs, appears after it
// and not before it.
fn part_due(list: &[u16], chosen: usize, other: usize) -> Option<usize> {
    let i = list.iter().position(|x| usize::from(*x) == chosen)?;
    let first_other = list.iter().position(|x| usize::from(*x) == other)?;
    if i < first_other { Some(i + 1) } else { None }
}

// The beginning is the part of the first list, failing that of the second, failing both the empty part: which list, and
// how many of its numbers.
fn beginning_due(first: &[u16], second: &[u16], chosen: usize, other: usize) -> (u32, usize) {
    if let Some(length) = part_due(first, chosen, other) {
        return (0, length);
    }
    match part_due(second, chosen, other) {
        Some(length) => (1, length),
        None => (0, 0),
    }
}

fn beginning_holds<'a>(first: &'a [u16], second: &'a [u16], chosen: usize, other: usize) -> bool {
    let (list, length) = beginning_due(first, second, chosen, other);
    let x = test_memory::number(chosen);
    let y = test_memory::number(other);
    let answer = answers::beginning_answer(first, second, x, y);
    let part = beginning::beginning(first, second, x, y);
    let due = Answer::from(Ok([list, test_memory::number(length), 0, 0]));
    let whole = if list == 0 { first } else { second };
    answer == due && part.len() == length && whole.starts_with(part)
}

// The beginning of two lists of any numbers, counted where there is one.
pub fn beginning_call<'a>(
    seen: &mut Seen,
    first: &'a [u16],
    second: &'a [u16],
    chosen: usize,
    other: usize,
) {
    if beginning_due(first, second, chosen, other).1 != 0 {
        seen.count(Kind::Beginnings, 1);
    }
    seen.note(0, beginning_holds(first, second, chosen, other));
}

// The two runs

// Operations a and b of a file, what is due from their order, and the sizes of the buffers for their two runs.
#[derive(Clone, Copy)]
struct Pair<'a> {
    file: &'a [u8],
    a: usize,
    b: usize,
    order: Due,
    sizes: [usize; 2],
}

// Does the buffer start with the run that holds b back, a complete run with a before b, and then hold what was there?
fn run_holds(file: &[u8], a: usize, b: usize, buffer: &[u16]) -> bool {
    let mut run = [0u16; 8];
    let length = expected::held_back_run(file, b, &mut run);
    match buffer.get(..plain_file::operations(file)) {
        Some(whole) => {
            expected::is_complete_run(file, whole)
                && part_due(whole, a, b).is_some()
                && test_memory::holds(buffer, &run, length)
        }
        None => false,
    }
}

// Do the beginnings of two runs hold, with each of the two operations chosen, and with a number that is in neither?
fn beginnings_hold<'a>(run: &'a [u16], other: &'a [u16], a: usize, b: usize) -> bool {
    beginning_holds(run, other, a, b)
        && beginning_holds(run, other, b, a)
        && beginning_holds(run, other, 9, b)
}

impl<'a> Pair<'a> {
    // Are the buffers as is due after the two runs?
    fn buffers_hold(&self, runs: &TwoLists<12>) -> bool {
        let n = plain_file::operations(self.file);
        let (Some(run), Some(other)) = (runs.first.get(..n), runs.second.get(..n)) else {
            return false;
        };
        run_holds(self.file, self.a, self.b, &runs.first)
            && run_holds(self.file, self.b, self.a, &runs.second)
            && beginnings_hold(run, other, self.a, self.b)
    }

    fn call(&self, seen: &mut Seen) {
        let mut runs = TwoLists::<12>::filled();
        let x = test_memory::number(self.a);
        let y = test_memory::number(self.b);
        let answer = answers::runs_answer(self.file, x, y, &mut runs, self.sizes);
        let due = answers::runs_due(self.order, plain_file::operations(self.file), self.sizes);
        let memory = match due {
            Ok(_) => self.buffers_hold(&runs),
            Err(_) => runs.untouched_from(0),
        };
        seen.compare(answer, due.into(), memory);
        if due.is_ok() {
            seen.count(Kind::Beginnings, 2);
        }
    }
}

// A size that just fits n numbers, that is larger, or that is too small; `large_pairs` takes others, by another rule.
fn room(n: usize, way: usize) -> usize {
    match way % 3 {
        0 => n,
        1 => n.saturating_add(3),
        _ => n.saturating_sub(1),
    }
}

// The pair order and the two runs of a and b.
fn pair_call(seen: &mut Seen, pair: Pair<'_>, judgement: &Judgement) {
    let (file, a, b) = (pair.file, pair.a, pair.b);
    let answer = answers::order_answer(file, test_memory::number(a), test_memory::number(b));
    seen.compare(Some(answer), pair.order.into(), true);
    if pair.order.is_ok() {
        let apart = plain_file::worker_of(file, a) != plain_file::worker_of(file, b);
        seen.note_order(
            judgement.order(a, b),
            apart,
            plain_file::conflict(file, a, b),
        );
    }
    pair.call(seen);
}

// Each pair of numbers up to the operation count, and buffers for as many operations as the trace has; of a refused
// file numbers up to 1, and buffers for 8. `way` decides on the sizes of the buffers.
pub fn pair_calls(seen: &mut Seen, file: &[u8], judgement: &Judgement, way: usize) {
    let (most, n) = match judgement.reading {
        Ok(values) => (values[1] as usize, values[1] as usize),
        Err(_) => (1, 8),
    };
    // one loop a function, so a and b are counted as one number
    for i in 0..81 {
        let (a, b) = (i / 9, i % 9);
        if a <= most && b <= most {
            let way = way % 9 + i;
            let pair = Pair {
                file,
                a,
                b,
                order: order_due(judgement, a, b),
                sizes: [room(n, way), room(n, way / 3)],
            };
            pair_call(seen, pair, judgement);
        }
    }
}
