// One pair of ends in a worker's set: their entries and ranks, and one operation taken in or let out.
ghost use Rattle.std.specs.Prelude.{◌≡◌, ◌<◌};
ghost use Rattle.trace.specs.Reading.{trace_of};
ghost use Rattle.trace.specs.Trace.{size};
ghost use Rattle.unordered.specs.Kept.{high_of, low_of, rank_at, due_of, gone_of};
ghost use Rattle.unordered.specs.Turns.{TwoWorkers, TakenOne, LetOne, RanksKept, moves_bit};

use crate::Unordered;
use table_entries::FilledTable;

// Entry q of row k; a number above all entries where k is not below `end`.
pub fn rank(filled: &FilledTable<'_>, end: usize, k: usize, q: usize) -> u32
    requires { k < end → (k < size (trace_of filled.now.trace.bytes.now))
        × (q < (trace_of filled.now.trace.bytes.now).workers) }
    ensures { result
        ≡ rank_at filled.now.table.now (trace_of filled.now.trace.bytes.now).workers end k q }
{
    if k < end {
        return filled.entry(k, q);
    }
    65536
}

// 1 where one of the two ends has to move, 0 otherwise.
pub fn moves_bit(bound: u32, due: u32, own: u32, gone: u32) -> u32
    ensures { result ≡ moves_bit bound due own gone }
{
    u32::from(due < bound) | u32::from(gone <= own)
}

impl Unordered {
    // The high end of worker q's operations in w's set.
    pub(crate) fn high_end(&self, w: usize, q: usize) -> usize
        requires { TwoWorkers w q }
        ensures { result ≡ high_of self.now w q }
    {
        self.high[16 * w + q] as usize
    }

    // The low end.
    pub(crate) fn low_end(&self, w: usize, q: usize) -> usize
        requires { TwoWorkers w q }
        ensures { result ≡ low_of self.now w q }
    {
        self.low[16 * w + q] as usize
    }

    // Takes q's operation k into w's set, with the high end behind it.
    pub(crate) fn take_one(&mut self, w: usize, q: usize, k: usize, after: u32)
        requires { TwoWorkers w q × (k < 1024) }
        ensures { TakenOne w q k after self.old self.new }
    {
        let at = 32 * w + k / 32;
        self.sets[at] = words::with(self.sets[at], (k % 32) as u32);
        self.high[16 * w + q] = after;
    }

    // Lets q's operation k out of w's set, with the low end behind it.
    pub(crate) fn let_one(&mut self, w: usize, q: usize, k: usize, after: u32)
        requires { TwoWorkers w q × (k < 1024) }
        ensures { LetOne w q k after self.old self.new }
    {
        let at = 32 * w + k / 32;
        self.sets[at] = words::without(self.sets[at], (k % 32) as u32);
        self.low[16 * w + q] = after;
    }

    // Keeps the ranks of both ends.
    pub(crate) fn keep(&mut self, w: usize, q: usize, due: u32, gone: u32)
        requires { TwoWorkers w q }
        ensures { RanksKept w q due gone self.old self.new }
    {
        self.due[16 * w + q] = due;
        self.gone[16 * w + q] = gone;
    }

    // The rank that is kept of the high end.
    pub(crate) fn kept_due(&self, w: usize, q: usize) -> u32
        requires { TwoWorkers w q }
        ensures { result ≡ due_of self.now w q }
    {
        self.due[16 * w + q]
    }

    // That of the low end.
    pub(crate) fn kept_gone(&self, w: usize, q: usize) -> u32
        requires { TwoWorkers w q }
        ensures { result ≡ gone_of self.now w q }
    {
        self.gone[16 * w + q]
    }
}
