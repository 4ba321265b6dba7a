// What is due from a call, what a call answers, and what was seen, counted.
#![tactic(auto)]

ghost use Rattle.std.specs.Prelude.{◌≡◌, ◌≤◌, IsTrue, slice_index};

use std::cmp::Ordering;

// The questions, by their names in include/mersohki.h; a question's number is its value.
#[derive(Clone, Copy, PartialEq, Eq)]
pub enum Question {
    Header = 1,
    WorkerCount,
    OperationCount,
    FileSize,
    Mark,
    Worker,
    Kind,
    Event,
    Cells,
    CompleteRun,
    TableSpace,
    InTrace,
    Different,
    Unordered,
    RunSpace,
    RaceSpace,
    OutputSpace,
}

impl Question {
    // The refusal by this question.
    pub fn at(self, place: u32) -> Refusal
        ensures asked { result.question ≡ self }
        ensures there { result.place ≡ place }
    {
        Refusal {
            question: self,
            place,
        }
    }
}

// The first question whose answer is "no", and its place.
#[derive(Clone, Copy, PartialEq, Eq)]
pub struct Refusal {
    pub question: Question,
    pub place: u32,
}

// What is due from a call: its values, or its refusal.
pub type Due = Result<[u32; 4], Refusal>;

// What a call of the C interface answers, as numbers, so that each number of its struct is compared: the number 0 and
// its values, or the number and place of its refusal.
#[derive(Clone, Copy, PartialEq, Eq)]
pub struct Answer {
    pub number: u8,
    pub place: u32,
    pub values: [u32; 4],
}

impl From<Due> for Answer {
    fn from(due: Due) -> Self {
        match due {
            Ok(values) => Answer {
                number: 0,
                place: 0,
                values,
            },
            Err(Refusal { question, place }) => Answer {
                number: question as u8,
                place,
                values: [0; 4],
            },
        }
    }
}

// The order of two operations as a value: 1 where the first is certain before the second, 2 where the second is certain
// before the first, else 0.
pub fn order_value(order: Option<Ordering>) -> u32
    ensures { result ≤ 2 }
{
    match order {
        Some(Ordering::Less) => 1,
        Some(Ordering::Greater) => 2,
        _ => 0,
    }
}

// What was seen

// Refusals have lower numbers.
pub const NUMBERS: usize = 30;

// What is counted beside calls and files, in the order in which `conformance` prints it. Pairs are ordered, of these
// some of different workers, and of these some in conflict; of large traces operations, rows of tables, steps of runs,
// and traces told in two file orders are counted; of typed cases lines, and looks at lent memory.
#[derive(Clone, Copy)]
pub enum Kind {
    Mismatches,
    Runs,
    Complete,
    SharedEvents,
    Ordered,
    OrderedApart,
    ConflictsOrdered,
    Unordered,
    Races,
    Beginnings,
    Operations,
    Rows,
    Steps,
    Shuffled,
    Lines,
    Looks,
}

pub const KINDS: usize = Kind::Looks as usize + 1;

// Calls by the number of their refusal, and files by the number by which they are refused, where 0 is success; and how
// many there were of each kind.
#[derive(Clone, Copy)]
pub struct Seen {
    pub calls: [u64; NUMBERS],
    pub files: [u64; NUMBERS],
    pub kinds: [u64; KINDS],
}

// Counts at a place; is there such a place?
fn count_at(counts: &mut [u64], at: usize, by: u64) -> bool {
    match counts.get_mut(at) {
        Some(count) => {
            *count = count.saturating_add(by);
            true
        }
        None => false,
    }
}

impl Seen {
    pub fn nothing() -> Self {
        Seen {
            calls: [0; NUMBERS],
            files: [0; NUMBERS],
            kinds: [0; KINDS],
        }
    }

    pub fn mismatches(&self) -> u64
        ensures { result ≡ slice_index self.now.kinds 0 }
    {
        self.kinds[Kind::Mismatches as usize]
    }

    pub fn count(&mut self, kind: Kind, by: u64)
        ensures calls { self.new.calls ≡ self.old.calls }
        ensures files { self.new.files ≡ self.old.files }
    {
        let count = &mut self.kinds[kind as usize];
        *count = count.saturating_add(by);
    }

    // Counts what must hold, and does not.
    pub fn expect(&mut self, holds: bool)
        ensures calls { self.new.calls ≡ self.old.calls }
        ensures files { self.new.files ≡ self.old.files }
        ensures nothing { IsTrue holds → self.new ≡ self.old }
    {
        if !holds {
            self.count(Kind::Mismatches, 1);
        }
    }

    // Counts a call for which `number` was due, and a mismatch where not all was as due.
    pub fn note(&mut self, number: u8, holds: bool)
        ensures { self.new.files ≡ self.old.files }
    {
        let known = count_at(&mut self.calls, number as usize, 1);
        self.expect(known && holds);
    }

    // Counts a call: its answer, if it was made, what was due, and whether lent memory is as due.
    pub fn compare(&mut self, given: Option<Answer>, due: Answer, memory: bool)
        ensures { self.new.files ≡ self.old.files }
    {
        self.note(due.number, memory && given == Some(due));
    }

    // Counts a file: that it is accepted, or by which question it is refused.
    pub fn note_file(&mut self, reading: Due)
        ensures { self.new.calls ≡ self.old.calls }
    {
        let known = count_at(&mut self.files, Answer::from(reading).number as usize, 1);
        self.expect(known);
    }

    // Counts a pair of operations with its order, and whether they are of different workers and in conflict.
    pub fn note_order(&mut self, order: Option<Ordering>, apart: bool, conflict: bool)
        ensures calls { self.new.calls ≡ self.old.calls }
        ensures files { self.new.files ≡ self.old.files }
    {
        if order.is_none() {
            self.count(Kind::Unordered, 1);
            return;
        }
        self.count(Kind::Ordered, 1);
        if apart {
            self.count(Kind::OrderedApart, 1);
        }
        if apart && conflict {
            self.count(Kind::ConflictsOrdered, 1);
        }
    }
}
