// The races of one operation with 32 others at a time: what is unordered with it and in conflict with it, as sets of
// bits.
#![tactic(auto)]

ghost use Rattle.std.specs.Prelude.{true, ◌≡◌, ◌/◌, ◌<◌, ◌≤◌, length};
ghost use Rattle.trace.specs.Reading.{trace_of};
ghost use Rattle.meetings.specs.Meetings.{Notes};
ghost use Rattle.race_model.specs.RaceRows.{race_row, RowHolds};
ghost use Rattle.race_words.specs.RaceWords.{After, RaceWord, BlockEmpty, BlockDone, ToNote, RowReady};

use conflicts::Cells;
use meetings::Meetings;
use trace::TraceFile;
use unordered::Unordered;

// Of the 32 operations from 32 v on, those after a.
fn after(a: usize, v: usize) -> u32
    requires { (a < 1024) × (v < 32) × (a / 32 ≤ v) }
    ensures { After a v result }
{
    if a < 32 * v {
        return 4294967295;
    }
    words::above((a % 32) as u32)
}

// Has the kept set of worker w no operation in a block?
fn is_empty(kept: &Unordered, w: usize, block: usize) -> bool
    requires { (w < 16) × (block < 8) }
    ensures { result ≡ true → BlockEmpty kept.now w block }
{
    let at = 32 * w + 4 * block;
    let low = words::joined(kept.sets[at], kept.sets[at + 1]);
    let high = words::joined(kept.sets[at + 2], kept.sets[at + 3]);
    words::joined(low, high) == 0
}

// Notes which operations of a block meet the slot's cells, if it has an operation of the kept set of worker w.
fn note_free(
    cells: &Cells,
    kept: &Unordered,
    w: usize,
    slot: usize,
    block: usize,
    seen: &mut Meetings,
)
    requires { Notes cells.now seen.old × (w < 16) × (slot < 32) × (block < 8) }
    ensures { BlockDone cells.now kept.now seen.old w slot block seen.new }
{
    if !is_empty(kept, w, block) {
        seen.note_block(cells, slot, block);
    }
}

// Notes all that row a needs: of each block from its own on that has an operation of the kept set. It makes what `Row`
// knows, so it cannot take one; a struct for its arguments would have one use.
pub fn note_row(
    trace: &TraceFile<'_>,
    cells: &Cells,
    kept: &Unordered,
    a: usize,
    w: usize,
    slot: usize,
    seen: &mut Meetings,
)
    requires { ToNote (trace_of trace.now.bytes.now) a cells.now kept.now seen.old w slot }
    ensures { RowReady (trace_of trace.now.bytes.now) a cells.now kept.now seen.new w slot }
{
    let n = trace.operations as usize;
    for block in a / 128..n.div_ceil(128) {
        note_free(cells, kept, w, slot, block, seen);
    }
}

// Row a of the races, ready to be read: worker w is a's, and what a's cells meet is noted in the slot.
#[derive(Clone, Copy)]
pub struct Row<'a> {
    pub trace: TraceFile<'a>,
    pub cells: &'a Cells,
    pub kept: &'a Unordered,
    pub seen: &'a Meetings,
    pub a: usize,
    pub w: usize,
    pub slot: usize,
    pub ghost ready: { RowReady (trace_of trace.bytes.now) a cells.now kept.now seen.now w slot },
}

impl Row<'_> {
    // Of the 32 operations from 32 v on, those that race with a.
    fn word(&self, v: usize) -> u32
        requires { (v < 32) × (self.now.a / 32 ≤ v) }
        ensures { RaceWord (trace_of self.now.trace.bytes.now) self.now.a v result }
    {
        let met = self.seen.met_word(self.slot, v);
        let conflicts = self.cells.conflict_word(self.a, met, v);
        let free = words::common(conflicts, self.kept.sets[32 * self.w + v]);
        words::common(free, after(self.a, v))
    }

    // How many operations race with a, of those after it.
    pub fn count(&self) -> usize
        ensures { result ≡ length (race_row (trace_of self.now.trace.bytes.now) self.now.a) }
    {
        let n = self.trace.operations as usize;
        let mut count: usize = 0;
        for v in self.a / 32..n.div_ceil(32) {
            count += words::count(self.word(v)) as usize;
        }
        count
    }

    // Lists the operations that race with a, of those after it, and answers how many there are.
    pub fn list(&self, row: &mut [u16; 1024]) -> usize
        ensures { RowHolds (race_row (trace_of self.now.trace.bytes.now) self.now.a) result row.new }
    {
        let n = self.trace.operations as usize;
        let mut at: usize = 0;
        for v in self.a / 32..n.div_ceil(32) {
            at = word_lists::list(self.word(v), 32 * v, at, row);
        }
        at
    }
}
