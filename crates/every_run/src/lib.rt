// Runs of a trace of up to eight operations: every one of them is tried.
#![tactic(auto)]

use small_rules::{Rules, Set};

// The search through all runs, with the run at hand, the first `length` places of the list, since there is no heap;
// `from` is the lowest operation that was not yet tried behind it. reached[s] says whether there is a run of the
// operations of set s; after[x] has the operations that stand after x in some complete run.
#[derive(Clone, Copy)]
pub struct Search {
    rules: Rules,
    list: [usize; 8],
    length: usize,
    done: Set,
    from: usize,
    pub over: bool,
    pub runs: u64,
    pub complete: u64,
    pub dead_ends: u64,
    reached: [bool; 256],
    after: [Set; 8],
}

// Eight operations have at most 109,601 runs, and the search comes to each of them twice.
const TURNS: usize = 250000;

impl Search {
    fn start(rules: Rules) -> Self {
        let mut search = Search {
            rules,
            list: [0; 8],
            length: 0,
            done: Set::EMPTY,
            from: 0,
            over: false,
            runs: 1,
            complete: 0,
            dead_ends: 0,
            reached: [false; 256],
            after: [Set::EMPTY; 8],
        };
        search.note();
        search
    }

    // Notes the order of each two operations in the complete run at hand.
    fn note_order(&mut self) {
        let mut later = Set::EMPTY;
        for x in self.list.iter().take(self.length).rev() {
            let after = self.after[*x % 8];
            self.after[*x % 8] = Set(after.0 | later.0);
            later = later.with(*x);
        }
    }

    // Notes the run at hand: it is one, and where it is complete, which operations stand before which.
    fn note(&mut self) {
        self.reached[usize::from(self.done.0)] = true;
        if self.length == self.rules.count {
            self.note_order();
            self.complete = self.complete.saturating_add(1);
        }
    }

    // Goes on to the run with x added at its end.
    fn extend(&mut self, x: usize) {
        self.list[self.length % 8] = x;
        self.length = self.length % 8 + 1;
        self.done = self.done.with(x);
        self.from = 0;
        self.runs = self.runs.saturating_add(1);
        self.note();
    }

    // Goes back to the run without its last operation; what comes behind that one is to be tried.
    fn go_back(&mut self) {
        if self.from == 0 && self.length < self.rules.count {
            self.dead_ends = self.dead_ends.saturating_add(1);
        }
        if self.length == 0 {
            self.over = true;
            return;
        }
        self.length = (self.length - 1) % 8;
        let last = self.list[self.length];
        self.done = self.done.without(last);
        self.from = last % 8 + 1;
    }

    // The search goes on: to a run that is longer by one operation, or back where none is left to be tried.
    fn step(&mut self) {
        match (self.from..8).find(|x| self.rules.may_follow(self.done, *x)) {
            Some(x) => self.extend(x),
            None => self.go_back(),
        }
    }

    // Tries every run: all lists that grow from the empty one by operations that may follow.
    pub fn through(rules: Rules) -> Self {
        let mut search = Search::start(rules);
        for _ in 0..TURNS {
            if search.over {
                break;
            }
            search.step();
        }
        search
    }

    // Is operation a certain before b? No complete run has b before it.
    pub fn must_precede(&self, a: usize, b: usize) -> bool {
        a != b && !self.after[b % 8].has(a)
    }

    // Is there a run of the set that lacks `a`? Nothing is lacking where there is none.
    fn has_run(&self, set: Set, a: Option<usize>) -> bool {
        self.reached[usize::from(set.0)] && !a.is_some_and(|a| set.has(a))
    }

    // The operations of the run that lacks `a` and has the most operations.
    pub fn largest_without(&self, a: Option<usize>) -> Set {
        let mut best = Set::EMPTY;
        for set in 0..=u8::MAX {
            if self.has_run(Set(set), a) && best.size() < Set(set).size() {
                best = Set(set);
            }
        }
        best
    }

    // Does the set contain every run that lacks `a`?
    pub fn contains_runs(&self, a: Option<usize>, best: Set) -> bool {
        (0..=u8::MAX).all(|set| !self.has_run(Set(set), a) || best.contains(Set(set)))
    }
}
