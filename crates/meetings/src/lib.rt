// Which operations meet the cells of an operation, noted so that the same cells are not looked for twice.
#![tactic(auto)]

ghost use Rattle.std.specs.Prelude.{◌&&◌, ◌≡◌, ◌+◌, ◌*◌, ◌<◌, eqb, get_or};
ghost use Rattle.meetings.specs.Meetings.{Forgotten, Notes, SlotFor, BlockNoted};

use conflicts::Cells;

// A slot for cells first..last: any would do.
fn slot_of(first: u32, last: u32) -> usize
    ensures { result < 32 }
{
    ((first % 32 * 5 + last % 32) % 32) as usize
}

// Notes in 32 slots: 32 words of operations for each slot, in one flat array, which a row looks through four words at a
// time; then, for each slot, the first of its cells, the last of them, and which of the eight blocks of operations are
// noted.
#[derive(Drop)]
pub struct Meetings {
    met: [u32; 1024],
    first: [u32; 32],
    last: [u32; 32],
    noted: [u32; 32],
}

impl Meetings {
    // Nothing is noted. Made in the caller's frame, and nowhere else: a search's arrays are some 23 KiB.
    #[inline(always)]
    pub fn none() -> Meetings
        ensures { Forgotten result }
    {
        Meetings {
            met: [0; 1024],
            first: [0; 32],
            last: [0; 32],
            noted: [0; 32],
        }
    }

    // Forgets all that is noted.
    pub fn forget(&mut self)
        ensures { Forgotten self.new }
    {
        self.noted = [0; 32];
    }

    // Is the slot the one of these cells?
    fn is_for(&self, slot: usize, first: u32, last: u32) -> bool
        requires { slot < 32 }
        ensures { result ≡ (eqb (get_or self.now.first slot 0) first && eqb (get_or self.now.last slot 0) last) }
    {
        self.first[slot] == first && self.last[slot] == last
    }

    // The slot of operation a's cells. What is noted there of other cells is forgotten.
    pub fn slot_for(&mut self, cells: &Cells, a: usize) -> usize
        requires { Notes cells.now self.old × (a < 1024) }
        ensures { Notes cells.now self.new × SlotFor cells.now self.new a result }
    {
        let first = cells.first_of(a);
        let last = cells.last_of(a);
        let slot = slot_of(first, last);
        if self.is_for(slot, first, last) {
            return slot;
        }
        self.first[slot] = first;
        self.last[slot] = last;
        self.noted[slot] = 0;
        slot
    }

    // Notes which operations of a block meet the slot's cells, unless they are noted.
    pub fn note_block(&mut self, cells: &Cells, slot: usize, block: usize)
        requires { Notes cells.now self.old × (slot < 32) × (block < 8) }
        ensures { BlockNoted cells.now self.old slot block self.new }
    {
        let noted = self.noted[slot];
        if words::holds(noted, block as u32) {
            return;
        }
        let met = cells.meet_block(self.first[slot], self.last[slot], block);
        let at = 32 * slot + 4 * block;
        self.met[at..at + 4].copy_from_slice(&met);
        self.noted[slot] = words::with(noted, block as u32);
    }

    // Word v of the operations that are noted in the slot.
    pub fn met_word(&self, slot: usize, v: usize) -> u32
        requires { (slot < 32) × (v < 32) }
        ensures { result ≡ get_or self.now.met (32 * slot + v) 0 }
    {
        self.met[32 * slot + v]
    }
}
