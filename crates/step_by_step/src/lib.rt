// Runs of a trace of any size, step by step, by document 01's words. What the calls answer on large traces is compared
// with it; it shares nothing with them.
#![tactic(auto)]

use outcomes::{Due, Question};
use std::array;
use std::cmp::Ordering;
use test_files::Kind;

// The run at hand of a trace: next[q] is the first operation of worker q that is not in it, or the operation count
// where all of them are, so that those below it are in the run; posted[e] says whether a Post of event e is in it.
#[derive(Clone, Copy)]
pub struct Run<'a> {
    file: &'a [u8],
    next: [usize; 16],
    posted: [bool; 256],
}

// Each sweep but the last adds an operation.
const SWEEPS: usize = 1025;

impl<'a> Run<'a> {
    // The empty run.
    fn empty(file: &'a [u8]) -> Self {
        Run {
            file,
            next: array::from_fn(|q| plain_file::first_from(file, 0, q)),
            posted: [false; 256],
        }
    }

    // Is x in the run?
    pub fn has(&self, x: usize) -> bool {
        x < self.next[plain_file::worker_of(self.file, x) % 16]
    }

    // Has x what it needs by its kind: a Wait a Post of its event, and the others nothing? What is not known never
    // runs.
    fn has_needed(&self, x: usize) -> bool {
        match plain_file::kind_of(self.file, x) {
            Some(Kind::Wait) if plain_file::length_of(self.file, x) == 0 => {
                self.posted[plain_file::number_of(self.file, x) as usize % 256]
            }
            Some(Kind::Wait) | None => false,
            Some(Kind::Post | Kind::Read | Kind::Write) => true,
        }
    }

    // May x follow the run?
    fn may_follow(&self, x: usize) -> bool {
        x < plain_file::operations(self.file)
            && self.next[plain_file::worker_of(self.file, x) % 16] == x
            && self.has_needed(x)
    }

    // Adds x to the run.
    fn add(&mut self, x: usize) {
        let q = plain_file::worker_of(self.file, x);
        self.next[q % 16] = plain_file::first_from(self.file, x % 1024 + 1, q);
        if plain_file::kind_of(self.file, x) == Some(Kind::Post) {
            self.posted[plain_file::number_of(self.file, x) as usize % 256] = true;
        }
    }

    // Adds each operation but `held` that may follow when its turn comes, in file order; was there one?
    fn sweep(&mut self, held: usize) -> bool {
        let mut added = false;
        for x in 0..plain_file::operations(self.file) {
            if x != held && self.may_follow(x) {
                self.add(x);
                added = true;
            }
        }
        added
    }

    // A run without `held` that nothing but `held` can follow: the largest one. It lacks nothing where `held` is no
    // operation.
    pub fn largest_without(file: &'a [u8], held: usize) -> Self {
        let mut run = Run::empty(file);
        for _ in 0..SWEEPS {
            if !run.sweep(held) {
                break;
            }
        }
        run
    }

    // The lowest operation outside the run, if there is one.
    fn lowest_outside(&self) -> Option<usize> {
        (0..plain_file::operations(self.file)).find(|x| !self.has(*x))
    }

    // How many operations of worker q are in the run.
    pub fn of_worker(&self, q: usize) -> usize {
        (0..plain_file::operations(self.file))
            .filter(|x| plain_file::worker_of(self.file, *x) == q && self.has(*x))
            .count()
    }

    // Can the next operation of some worker below q run, other than `held`?
    fn can_run_below(&self, q: usize, held: usize) -> bool {
        self.next
            .iter()
            .take(q)
            .any(|x| *x != held && self.may_follow(*x))
    }

    // Is x the next operation of the lowest-numbered worker whose next operation may run, other than `held`?
    fn is_turn_of(&self, x: usize, held: usize) -> bool {
        x != held
            && self.may_follow(x)
            && !self.can_run_below(plain_file::worker_of(self.file, x), held)
    }
}

// What is due from reading the file: its questions, of which the last is asked of the largest run, and the counts.
pub fn reading_due(file: &[u8]) -> Due {
    plain_file::questions(file)?;
    let count = plain_file::operations(file);
    if let Some(outside) = Run::largest_without(file, count).lowest_outside() {
        return Err(Question::CompleteRun.at(test_memory::number(outside)));
    }
    let workers = test_memory::number(plain_file::workers(file));
    Ok([workers, test_memory::number(count), 0, 0])
}

// Is operation a certain before b? b is not in the largest run without a.
fn must_precede(file: &[u8], a: usize, b: usize) -> bool {
    !Run::largest_without(file, a).has(b)
}

// The order of a and b, which differ.
pub fn order_of(file: &[u8], a: usize, b: usize) -> Option<Ordering> {
    if must_precede(file, a, b) {
        return Some(Ordering::Less);
    }
    if must_precede(file, b, a) {
        return Some(Ordering::Greater);
    }
    None
}

// Is the list the complete run that holds `held` back: at each step the lowest-numbered worker whose next operation may
// run, other than `held`, takes it, and where none can, `held` is allowed from there on?
pub fn is_held_back_run(file: &[u8], list: &[u16], held: usize) -> bool {
    let none = plain_file::operations(file);
    let mut run = Run::empty(file);
    let mut kept = held;
    for x in list {
        let x = usize::from(*x);
        if x == kept && !run.can_run_below(16, kept) {
            kept = none;
        }
        if !run.is_turn_of(x, kept) {
            return false;
        }
        run.add(x);
    }
    list.len() == none
}
