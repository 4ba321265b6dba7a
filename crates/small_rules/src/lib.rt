// What may follow what in a run of a trace of up to eight operations, by document 01's definition of a run.
#![tactic(auto)]

ghost use Rattle.std.specs.Prelude.{◌≤◌};

use std::array;
use test_files::Kind;

// A set of operations: a bit for each.
#[derive(Clone, Copy, PartialEq, Eq)]
pub struct Set(pub u8);

impl Set {
    pub const EMPTY: Set = Set(0);

    pub fn has(self, x: usize) -> bool {
        (self.0 >> (x % 8)) % 2 == 1
    }

    pub fn with(self, x: usize) -> Set {
        Set(self.0 | 1 << (x % 8))
    }

    pub fn without(self, x: usize) -> Set {
        Set(self.0 & !(1 << (x % 8)))
    }

    // Is each operation of the other set in this one?
    pub fn contains(self, other: Set) -> bool {
        other.0 & self.0 == other.0
    }

    // Have the two sets a common operation?
    pub fn meets(self, other: Set) -> bool {
        self.0 & other.0 != 0
    }

    pub fn size(self) -> u32
        ensures { result ≤ 8 }
    {
        self.0.count_ones()
    }
}

// An operation may follow when all of a set are done, and one of each of up to eight other sets.
#[derive(Clone, Copy)]
pub struct Rule {
    all: Set,
    pub one_of: [Option<Set>; 8],
}

impl Rule {
    // The same, and one of the set; none where there are eight such sets.
    fn and_one_of(mut self, set: Set) -> Option<Rule> {
        let free = self.one_of.iter().position(|other| other.is_none())?;
        *self.one_of.get_mut(free)? = Some(set);
        Some(self)
    }

    fn allows(&self, done: Set) -> bool {
        let has_each = self.one_of.iter().all(|set| match set {
            Some(set) => set.meets(done),
            None => true,
        });
        done.contains(self.all) && has_each
    }

    // Is there a set of several operations, one of which has to be done?
    pub fn has_choice(&self) -> bool {
        self.one_of.iter().any(|set| match set {
            Some(set) => 1 < set.size(),
            None => false,
        })
    }
}

// What may follow what: the rule of each operation of which one is known.
#[derive(Clone, Copy)]
pub struct Rules {
    pub count: usize,
    pub of: [Option<Rule>; 8],
}

// The earlier operations of x's worker.
fn earlier(file: &[u8], x: usize) -> Set {
    let worker = plain_file::worker_of(file, x);
    (0..8)
        .filter(|y| *y < x && plain_file::worker_of(file, *y) == worker)
        .fold(Set::EMPTY, |set, y| set.with(y))
}

fn is_post_of(file: &[u8], y: usize, event: u32) -> bool {
    plain_file::kind_of(file, y) == Some(Kind::Post) && plain_file::number_of(file, y) == event
}

// The Posts of an event.
fn posts(file: &[u8], event: u32) -> Set {
    let count = plain_file::operations(file);
    (0..8)
        .filter(|y| *y < count && is_post_of(file, *y, event))
        .fold(Set::EMPTY, |set, y| set.with(y))
}

// What x needs: the earlier operations of its worker, and by its kind a Wait a Post of its event.
fn rule_of(file: &[u8], x: usize) -> Option<Rule> {
    let rule = Rule {
        all: earlier(file, x),
        one_of: [None; 8],
    };
    match plain_file::kind_of(file, x)? {
        Kind::Wait if plain_file::length_of(file, x) != 0 => None,
        Kind::Wait => rule.and_one_of(posts(file, plain_file::number_of(file, x))),
        Kind::Post | Kind::Read | Kind::Write => Some(rule),
    }
}

impl Rules {
    pub fn new(file: &[u8]) -> Self {
        let count = plain_file::operations(file);
        Rules {
            count,
            of: array::from_fn(|x| if x < count { rule_of(file, x) } else { None }),
        }
    }

    // Is the rule of each operation known?
    pub fn are_known(&self) -> bool {
        self.count <= 8 && self.of.iter().take(self.count).all(|rule| rule.is_some())
    }

    // May x follow a run of the operations in `done`? It is not among them, and what it needs is.
    pub fn may_follow(&self, done: Set, x: usize) -> bool {
        match self.of.get(x) {
            Some(Some(rule)) => !done.has(x) && rule.allows(done),
            _ => false,
        }
    }
}
