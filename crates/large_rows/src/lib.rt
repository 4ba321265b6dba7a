// The rows of a large trace's table compared with runs step by step, and the orders and races that the rows say.
#![tactic(auto)]

use outcomes::{Kind, Seen};
use std::cmp::Ordering;
use step_by_step::Run;
use test_memory::TwoLists;

// Space for a table, a little longer than the largest trace needs.
pub const TABLE: usize = 16390;

// How many rows are compared.
const SOME: usize = 6;

// A trace with its table, and for each operation its rank.
#[derive(Clone, Copy)]
pub struct Rows<'a> {
    pub file: &'a [u8],
    pub table: &'a [u16; TABLE],
    rank: [usize; 1024],
}

fn ranks_of(file: &[u8]) -> [usize; 1024] {
    let mut rank = [0; 1024];
    let mut counts = [0usize; 16];
    for x in 0..plain_file::operations(file) {
        let q = plain_file::worker_of(file, x) % 16;
        counts[q] = counts[q].saturating_add(1);
        rank[x % 1024] = counts[q];
    }
    rank
}

impl<'a> Rows<'a> {
    pub fn new(file: &'a [u8], table: &'a [u16; TABLE]) -> Self {
        Rows {
            file,
            table,
            rank: ranks_of(file),
        }
    }

    // Entry q of row k.
    fn entry(&self, k: usize, q: usize) -> usize {
        let start = test_memory::product(k, plain_file::workers(self.file));
        usize::from(self.table[(start + q % 256) % TABLE])
    }

    // Does row k count the operations of the largest run without k?
    fn row_holds(&self, k: usize) -> bool {
        let run = Run::largest_without(self.file, k);
        (0..plain_file::workers(self.file)).all(|q| self.entry(k, q) == run.of_worker(q))
    }

    pub fn compare(&self, seen: &mut Seen, seed: u64) {
        let count = plain_file::operations(self.file) as u64;
        let mut state = seed;
        for _ in 0..SOME {
            let k = random_files::below(state / 4096, count) as usize;
            seen.count(Kind::Rows, 1);
            seen.expect(self.row_holds(k));
            state = random_files::next(state);
        }
    }

    // Is b in the largest run without a, as row a counts it?
    fn is_counted(&self, a: usize, b: usize) -> bool {
        self.rank[b % 1024] <= self.entry(a, plain_file::worker_of(self.file, b))
    }

    // The order of a and b that the rows say.
    pub fn order(&self, a: usize, b: usize) -> Option<Ordering> {
        if !self.is_counted(a, b) {
            return Some(Ordering::Less);
        }
        if !self.is_counted(b, a) {
            return Some(Ordering::Greater);
        }
        None
    }

    fn is_race(&self, a: usize, b: usize) -> bool {
        plain_file::conflict(self.file, a, b) && self.order(a, b).is_none()
    }

    // Puts the races of a with higher operations into the lists, from race n on; how many there are then.
    fn put_races_of<const N: usize>(&self, a: usize, n: usize, lists: &mut TwoLists<N>) -> usize {
        let mut count = n;
        for b in a.saturating_add(1)..plain_file::operations(self.file) {
            if self.is_race(a, b) {
                lists.put(count, a, b);
                count = count.saturating_add(1);
            }
        }
        count
    }

    // Puts the races, ascending by lower, then higher operation, as far as the lists go; how many there are.
    pub fn put_races<const N: usize>(&self, lists: &mut TwoLists<N>) -> usize {
        let operations = 0..plain_file::operations(self.file);
        operations.fold(0, |count, a| self.put_races_of(a, count, lists))
    }
}
