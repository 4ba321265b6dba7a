// What is due from the calls on a file of up to eight operations: what all its runs say, by document 01's words.
#![tactic(auto)]

use every_run::Search;
use outcomes::{Due, Question};
use small_rules::{Rules, Set};
use std::array;
use std::cmp::Ordering;
use test_memory::TwoLists;

// Space for the rows of a table.
pub const ROWS: usize = 136;

// Space for the races of eight operations.
pub const RACES: usize = 28;

// What is due from reading a file; of an accepted file also entry q of row k of its table at k × p + q, and the order
// of a and b at a × 8 + b. `sound` says that the rules are known, that the search came to its end, that each largest
// run contains every run that lacks its operation, and that a trace with a complete run has no dead end; `shared`, that
// the file is accepted and the event of some Wait has several Posts.
#[derive(Clone, Copy)]
pub struct Judgement {
    pub reading: Due,
    pub rows: [u16; ROWS],
    pub orders: [Option<Ordering>; 64],
    pub sound: bool,
    pub shared: bool,
    pub runs: u64,
    pub complete: u64,
}

// How many operations of worker q are in the set.
fn of_worker(file: &[u8], set: Set, q: usize) -> u16 {
    let of_q = (0..8).filter(|x| set.has(*x) && plain_file::worker_of(file, *x) == q);
    (of_q.count() % 9) as u16
}

// The rows, of the largest run without each operation.
fn rows_of(file: &[u8], largest: [Set; 8]) -> [u16; ROWS] {
    let p = plain_file::workers(file);
    array::from_fn(|i| {
        if 0 < p {
            of_worker(file, largest[i / p % 8], i % p)
        } else {
            0
        }
    })
}

fn order_of(search: &Search, a: usize, b: usize) -> Option<Ordering> {
    if search.must_precede(a, b) {
        return Some(Ordering::Less);
    }
    if search.must_precede(b, a) {
        return Some(Ordering::Greater);
    }
    None
}

// Is there a set of several operations, one of which has to be done?
fn has_shared_event(rules: &Rules) -> bool {
    rules.of.iter().any(|rule| match rule {
        Some(rule) => rule.has_choice(),
        None => false,
    })
}

// Is each of the sets the largest run without its operation, and `whole` the largest run?
fn are_largest(search: &Search, largest: [Set; 8], whole: Set) -> bool {
    let contained = largest
        .iter()
        .enumerate()
        .all(|(a, set)| search.contains_runs(Some(a), *set));
    contained && search.contains_runs(None, whole)
}

// The last of the file's questions: the lowest operation outside the largest run, where that is not complete.
fn reading_of(file: &[u8], search: &Search, whole: Set) -> Due {
    let count = plain_file::operations(file);
    if search.complete == 0 {
        let outside = (0..count.min(8))
            .find(|x| !whole.has(*x))
            .unwrap_or(count.min(8));
        return Err(Question::CompleteRun.at(test_memory::number(outside)));
    }
    let workers = test_memory::number(plain_file::workers(file));
    Ok([workers, test_memory::number(count), 0, 0])
}

// The last of the file's questions, and what all runs say of the trace.
fn judged(file: &[u8]) -> Judgement {
    let rules = Rules::new(file);
    let search = Search::through(rules);
    let whole = search.largest_without(None);
    let largest = array::from_fn(|a| search.largest_without(Some(a)));
    let ended = rules.are_known() && search.over;
    Judgement {
        reading: reading_of(file, &search, whole),
        rows: rows_of(file, largest),
        orders: array::from_fn(|i| order_of(&search, i / 8, i % 8)),
        sound: ended
            && are_largest(&search, largest, whole)
            && (search.complete == 0 || search.dead_ends == 0),
        shared: search.complete != 0 && has_shared_event(&rules),
        runs: search.runs,
        complete: search.complete,
    }
}

impl Judgement {
    // Asks the file's questions, of any bytes; of an accepted file of up to eight operations also all its runs.
    pub fn new(file: &[u8]) -> Self {
        match plain_file::questions(file) {
            Ok(()) => judged(file),
            Err(refusal) => Judgement {
                reading: Err(refusal),
                rows: [0; ROWS],
                orders: [None; 64],
                sound: true,
                shared: false,
                runs: 0,
                complete: 0,
            },
        }
    }

    pub fn order(&self, a: usize, b: usize) -> Option<Ordering> {
        self.orders[a % 8 * 8 + b % 8]
    }

    fn is_race(&self, file: &[u8], a: usize, b: usize) -> bool {
        let different = a < b && b < plain_file::operations(file);
        different && self.order(a, b).is_none() && plain_file::conflict(file, a, b)
    }

    // The races of an accepted file, ascending by lower, then higher operation; how many there are.
    pub fn put_races(&self, file: &[u8], lists: &mut TwoLists<RACES>) -> usize {
        // one loop a function, so a and b are counted as one number
        let mut n: usize = 0;
        for i in 0..64 {
            if self.is_race(file, i / 8, i % 8) {
                lists.put(n, i / 8, i % 8);
                n = n.saturating_add(1);
            }
        }
        n
    }
}

// The two runs

// The next operation of worker q, the first of its operations that is not done, if there is one.
fn next_of(file: &[u8], done: Set, q: usize) -> Option<usize> {
    (0..plain_file::operations(file)).find(|x| plain_file::worker_of(file, *x) == q
        && !done.has(*x))
}

// The next operation of the lowest-numbered worker whose next operation may run, other than `held`, if there is one.
fn next_by_rule(file: &[u8], rules: &Rules, done: Set, held: Option<usize>) -> Option<usize> {
    (0..plain_file::workers(file)).find_map(|q| {
        next_of(file, done, q).filter(|x| Some(*x) != held && rules.may_follow(done, *x))
    })
}

// The run that holds back operation `held` by document 01's rule; how many operations it has. Where none but `held` can
// run, nothing is held back from there on.
pub fn held_back_run(file: &[u8], held: usize, list: &mut [u16; 8]) -> usize {
    let rules = Rules::new(file);
    let mut done = Set::EMPTY;
    let mut kept = Some(held);
    for (i, place) in list.iter_mut().enumerate() {
        let mut next = next_by_rule(file, &rules, done, kept);
        if next.is_none() {
            kept = None;
            next = next_by_rule(file, &rules, done, None);
        }
        let Some(x) = next else {
            return i;
        };
        *place = (x % 65536) as u16;
        done = done.with(x);
    }
    8
}

// Is the list a complete run? Each number may follow those before it, and there are as many as operations.
pub fn is_complete_run(file: &[u8], list: &[u16]) -> bool {
    let rules = Rules::new(file);
    let mut done = Set::EMPTY;
    for x in list {
        if !rules.may_follow(done, usize::from(*x)) {
            return false;
        }
        done = done.with(usize::from(*x));
    }
    list.len() == rules.count
}
