// The operations that are unordered with a worker's operation, kept as bits along that worker. Of another worker q they
// are those from a low end to a high one, and both ends only move up. The ranks of both ends are kept beside them, and
// tell for all q whether an end has to move.
#![tactic(auto)]

ghost use Rattle.std.specs.Prelude.{◌≡◌, List, ℕ, ◌+◌, ◌<◌, false, replicate};
ghost use Rattle.trace.specs.Reading.{trace_of};
ghost use Rattle.trace.specs.Trace.{size};
ghost use Rattle.unordered.specs.Beginning.{ReadFrom, first_end, EndsSet};
ghost use Rattle.unordered.specs.Kept.{IsOf, HoldsNext, high_of, AllRanks, Carried, Now};
ghost use Rattle.unordered.specs.Turns.{Ahead, Turn, OtherRanks, AllStill};

mod pair;

use table_entries::FilledTable;
use trace::TraceFile;

// Reads the trace from its end: the next operation of each operation's worker, and the first of each worker; 1024 where
// there is none, as in `HoldsNext`: what is asked is which operation is lower.
fn read_next(trace: &TraceFile<'_>, next: &mut [u32; 1024]) -> [u32; 16]
    ensures { HoldsNext (trace_of trace.now.bytes.now) next.new
        × ReadFrom (trace_of trace.now.bytes.now) 0 next.new result }
{
    let mut firsts = [1024u32; 16];
    for k in (0..trace.operations as usize).rev() {
        let q = trace.worker(k);
        next[k] = firsts[q];
        firsts[q] = k as u32;
    }
    firsts
}

// Where both ends of pair i start.
fn first_end(firsts: &[u32; 16], i: usize) -> u32
    requires { i < 256 }
    ensures { result ≡ first_end firsts.now i }
{
    if i / 16 == i % 16 {
        return 1024;
    }
    firsts[i % 16]
}

// Where the ends of all pairs start.
fn first_ends(firsts: &[u32; 16]) -> [u32; 256]
    ensures { EndsSet firsts.now 256 result }
{
    let mut ends = [0u32; 256];
    for i in 0..256 {
        ends[i] = first_end(firsts, i);
    }
    ends
}

// For each operation the next one of its worker, and the 32 words of each worker's set; for the pair of workers w and
// q, at 16 * w + q, the high and the low end of q's operations in w's set, and the ranks of both.
// Flat arrays of fixed size, in the order in which the search goes through them: four words at a time.
#[derive(Drop)]
pub struct Unordered {
    next: [u32; 1024],
    pub sets: [u32; 512],
    high: [u32; 256],
    low: [u32; 256],
    due: [u32; 256],
    gone: [u32; 256],
}

impl Unordered {
    // Nothing is in any set. Made in the caller's frame, and nowhere else: a search's arrays are some 23 KiB.
    #[inline(always)]
    pub fn none() -> Unordered
        ensures { result.sets ≡ replicate 512 0 }
    {
        Unordered {
            next: [0; 1024],
            sets: [0; 512],
            high: [0; 256],
            low: [0; 256],
            due: [0; 256],
            gone: [0; 256],
        }
    }

    // Before the first operation of a trace all sets are empty, whatever was here before.
    pub fn begin(&mut self, trace: &TraceFile<'_>)
        ensures { (table : List ℕ) → Carried (trace_of trace.now.bytes.now) table 0 self.new }
    {
        let firsts = read_next(trace, &mut self.next);
        let ends = first_ends(&firsts);
        self.sets = [0; 512];
        self.high = ends;
        self.low = ends;
        self.due = [0; 256];
        self.gone = [0; 256];
    }

    // Takes into w's set those of q's operations that a is the first of w's not to be certain before.
    fn take_in(&mut self, filled: &FilledTable<'_>, a: usize, w: usize, q: usize)
        requires { IsOf (trace_of filled.now.trace.bytes.now) w a
            × (q < (trace_of filled.now.trace.bytes.now).workers)
            × Turn (trace_of filled.now.trace.bytes.now) a w q self.old
            × OtherRanks (trace_of filled.now.trace.bytes.now) filled.now.table.now w q self.old }
        ensures { Turn (trace_of filled.now.trace.bytes.now) a w q self.new
            × Ahead (trace_of filled.now.trace.bytes.now) a q (high_of self.new w q)
            × OtherRanks (trace_of filled.now.trace.bytes.now) filled.now.table.now w q self.new }
    {
        let n = filled.trace.operations as usize;
        let bound = filled.entry(a, q);
        let mut k = self.high_end(w, q);
        let mut due = pair::rank(filled, n, k, q);
        // a walk along `next`, so no range to go over
        while due < bound {
            let after = self.next[k];
            self.take_one(w, q, k, after);
            k = after as usize;
            due = pair::rank(filled, n, k, q);
        }
    }

    // Lets those of q's operations out of w's set that are certain before a.
    fn let_out(&mut self, filled: &FilledTable<'_>, a: usize, w: usize, q: usize)
        requires { IsOf (trace_of filled.now.trace.bytes.now) w a
            × (q < (trace_of filled.now.trace.bytes.now).workers)
            × Turn (trace_of filled.now.trace.bytes.now) a w q self.old
            × Ahead (trace_of filled.now.trace.bytes.now) a q (high_of self.old w q)
            × OtherRanks (trace_of filled.now.trace.bytes.now) filled.now.table.now w q self.old }
        ensures { Turn (trace_of filled.now.trace.bytes.now) a w (q + 1) self.new
            × OtherRanks (trace_of filled.now.trace.bytes.now) filled.now.table.now w q self.new }
    {
        let bound = filled.entry(a, w);
        let high = self.high_end(w, q);
        let mut k = self.low_end(w, q);
        let mut gone = pair::rank(filled, high, k, w);
        // a walk along `next`, so no range to go over
        while gone <= bound {
            let after = self.next[k];
            self.let_one(w, q, k, after);
            k = after as usize;
            gone = pair::rank(filled, high, k, w);
        }
    }

    // Keeps the ranks of both ends.
    fn keep_ranks(&mut self, filled: &FilledTable<'_>, a: usize, w: usize, q: usize)
        requires { IsOf (trace_of filled.now.trace.bytes.now) w a
            × (q < (trace_of filled.now.trace.bytes.now).workers)
            × Turn (trace_of filled.now.trace.bytes.now) a w (q + 1) self.old
            × OtherRanks (trace_of filled.now.trace.bytes.now) filled.now.table.now w q self.old }
        ensures { Turn (trace_of filled.now.trace.bytes.now) a w (q + 1) self.new
            × AllRanks (trace_of filled.now.trace.bytes.now) filled.now.table.now self.new }
    {
        let high = self.high_end(w, q);
        let low = self.low_end(w, q);
        let due = pair::rank(filled, filled.trace.operations as usize, high, q);
        let gone = pair::rank(filled, high, low, w);
        self.keep(w, q, due, gone);
    }

    // Moves the ends of w's set to where they are right for a.
    fn move_ends(&mut self, filled: &FilledTable<'_>, a: usize, w: usize)
        requires { IsOf (trace_of filled.now.trace.bytes.now) w a
            × Carried (trace_of filled.now.trace.bytes.now) filled.now.table.now a self.old }
        ensures { Turn (trace_of filled.now.trace.bytes.now) a w (trace_of filled.now.trace.bytes.now).workers self.new
            × AllRanks (trace_of filled.now.trace.bytes.now) filled.now.table.now self.new }
    {
        for q in 0..usize::from(filled.trace.workers) {
            self.take_in(filled, a, w, q);
            self.let_out(filled, a, w, q);
            self.keep_ranks(filled, a, w, q);
        }
    }

    // Does an end of w's set have to move for a? The pairs are joined without a branch, so that the compiler tests
    // several at once.
    fn any_moves(&self, filled: &FilledTable<'_>, a: usize, w: usize) -> bool
        requires { IsOf (trace_of filled.now.trace.bytes.now) w a }
        ensures { result ≡ false
            → AllStill filled.now.table.now self.now (trace_of filled.now.trace.bytes.now).workers a w }
    {
        let own = filled.entry(a, w);
        let mut any: u32 = 0;
        for q in 0..usize::from(filled.trace.workers) {
            let due = self.kept_due(w, q);
            let gone = self.kept_gone(w, q);
            let entry = filled.entry(a, q);
            any |= pair::moves_bit(entry, due, own, gone);
        }
        any != 0
    }

    // Carries the set of a's worker on to a, whose turn it is.
    pub fn carry_on(&mut self, filled: &FilledTable<'_>, a: usize)
        requires { (a < size (trace_of filled.now.trace.bytes.now))
            × Carried (trace_of filled.now.trace.bytes.now) filled.now.table.now a self.old }
        ensures { Carried (trace_of filled.now.trace.bytes.now) filled.now.table.now (a + 1) self.new
            × Now (trace_of filled.now.trace.bytes.now) a self.new }
    {
        let w = filled.trace.worker(a);
        if self.any_moves(filled, a, w) {
            self.move_ends(filled, a, w);
        }
    }
}
