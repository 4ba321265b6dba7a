// The cells of all operations, and the operations in conflict with one, as sets: a bit for each.
#![tactic(auto)]

ghost use Rattle.std.specs.Prelude.{◌≡◌, ◌+◌, ◌*◌, ◌^◌, ◌<◌, get_or};
ghost use Rattle.trace.specs.Reading.{trace_of};
ghost use Rattle.trace.specs.Trace.{Trace, size, is_write};
ghost use Rattle.conflicts.specs.Cells.{bit, BitFits, first_cell, last_cell, CellsFit, place, CellsRead};
ghost use Rattle.conflicts.specs.Cells.{CellsHold, meet, met_at, BlockMet, ConflictsIn};

use trace::{Operation, TraceFile};

// The first cell of a Read or Write; 2^32 - 1 for another operation.
fn first_cell(o: Operation) -> u32
    ensures { result ≡ first_cell o }
{
    if trace::is_access(o.kind) {
        return o.number;
    }
    4294967295
}

// The last cell of a Read or Write; 0 for another operation.
fn last_cell(o: Operation) -> u32
    requires { CellsFit o }
    ensures { result ≡ last_cell o }
{
    if trace::is_access(o.kind) {
        return o.number + (u32::from(o.length) - 1);
    }
    0
}

// 1 for a Write; 0 for another operation.
fn write_bit(o: Operation) -> u32
    ensures { result ≡ bit (is_write o.kind) }
{
    u32::from(o.kind == 4)
}

// Where the cells of operation k stand.
fn place_of(k: usize) -> usize
    requires { k < 1024 }
    ensures { (result ≡ place k) × (result < 1024) }
{
    k / 128 * 128 + k % 32 * 4 + k / 32 % 4
}

// A word of j bits, with one more in front.
fn add_bit(x: u32, b: u32, j: usize) -> u32
    requires { BitFits x b j }
    ensures { result ≡ x + b * 2 ^ j }
{
    x + (b << j)
}

// 1 where each of two rows of cells starts at or before the last one of the other; 0 otherwise.
fn meets(first: u32, last: u32, other_first: u32, other_last: u32) -> u32
    ensures { result ≡ bit (meet first last other_first other_last) }
{
    u32::from(first <= other_last) & u32::from(other_first <= last)
}

// The first and the last cell of each operation, and a bit for each Write. Flat arrays, of which four words are tested
// side by side; an operation without cells has a row that meets none, and no Option, so that the test is one.
#[derive(Drop)]
pub struct Cells {
    pub first: [u32; 1024],
    pub last: [u32; 1024],
    pub writes: [u32; 32],
}

impl Cells {
    // Those of no operation. Made in the caller's frame, and nowhere else: a search's arrays are some 23 KiB.
    #[inline(always)]
    pub fn none() -> Cells
        ensures { (t : Trace) → CellsRead t 0 result }
    {
        Cells {
            first: [0; 1024],
            last: [0; 1024],
            writes: [0; 32],
        }
    }

    // Reads those of a trace, whatever was here before.
    pub fn fill(&mut self, trace: &TraceFile<'_>)
        ensures { CellsHold (trace_of trace.now.bytes.now) self.new }
    {
        self.writes = [0; 32];
        for k in 0..trace.operations as usize {
            self.read(trace, k);
        }
    }

    // Reads the cells of operation k, and marks it if it is a Write.
    fn read(&mut self, trace: &TraceFile<'_>, k: usize)
        requires { CellsRead (trace_of trace.now.bytes.now) k self.old
            × (k < size (trace_of trace.now.bytes.now)) }
        ensures { CellsRead (trace_of trace.now.bytes.now) (k + 1) self.new }
    {
        let o = trace.operation(k);
        let at = place_of(k);
        self.first[at] = first_cell(o);
        self.last[at] = last_cell(o);
        self.writes[k / 32] = add_bit(self.writes[k / 32], write_bit(o), k % 32);
    }

    // The first cell of operation k.
    pub fn first_of(&self, k: usize) -> u32
        requires { k < 1024 }
        ensures { result ≡ get_or self.now.first (place k) 0 }
    {
        self.first[place_of(k)]
    }

    // Its last cell.
    pub fn last_of(&self, k: usize) -> u32
        requires { k < 1024 }
        ensures { result ≡ get_or self.now.last (place k) 0 }
    {
        self.last[place_of(k)]
    }

    // A word, with one more bit behind: do the cells that stand at a place meet these?
    fn add_met(&self, first: u32, last: u32, at: usize, x: u32) -> u32
        requires { (at < 1024) × (x < 2147483648) }
        ensures { result ≡ 2 * x + bit (met_at self.now first last at) }
    {
        2 * x + meets(first, last, self.first[at], self.last[at])
    }

    // Which operations of a block of 128 meet these cells, in four words. The four are made side by side, so that the
    // compiler tests four operations at once.
    pub fn meet_block(&self, first: u32, last: u32, block: usize) -> [u32; 4]
        requires { block < 8 }
        ensures { BlockMet self.now first last block result }
    {
        let base = 128 * block;
        let mut x0: u32 = 0;
        let mut x1: u32 = 0;
        let mut x2: u32 = 0;
        let mut x3: u32 = 0;
        for j in (0..32).rev() {
            let i = base + 4 * j;
            x0 = self.add_met(first, last, i, x0);
            x1 = self.add_met(first, last, i + 1, x1);
            x2 = self.add_met(first, last, i + 2, x2);
            x3 = self.add_met(first, last, i + 3, x3);
        }
        [x0, x1, x2, x3]
    }

    // Of the 32 operations from 32 v on, those in `met` of which one or operation a is a Write.
    pub fn conflict_word(&self, a: usize, met: u32, v: usize) -> u32
        requires { (a < 1024) × (v < 32) }
        ensures { ConflictsIn self.now a met v result }
    {
        let all = 4294967295 * ((self.writes[a / 32] >> (a % 32)) % 2);
        words::common(met, words::joined(all, self.writes[v]))
    }
}
