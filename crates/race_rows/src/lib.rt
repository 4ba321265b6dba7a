// The races of one operation with all later ones, row by row.
#![tactic(auto)]

ghost use Rattle.std.specs.Prelude.{[], ◌≡◌, ◌+◌, ◌<◌, length};
ghost use Rattle.trace.specs.Reading.{trace_of};
ghost use Rattle.trace.specs.Trace.{size, worker_of};
ghost use Rattle.race_model.specs.RaceRows.{race_row, RowHolds};
ghost use Rattle.race_words.specs.RaceWords.{RowReady};
ghost use Rattle.race_rows.specs.Rows.{Ready, Searching};

use conflicts::Cells;
use meetings::Meetings;
use race_words::Row;
use table_entries::FilledTable;
use unordered::Unordered;

// A search for the races of a trace, row by row from row 0 on: `next` is the row that comes next. Its arrays, some
// 23 KiB, are made in the caller's frame and filled there by `begin`: a search that is handed over whole stands in two.
#[derive(Drop)]
pub struct SearchInPlace<'a> {
    pub filled: FilledTable<'a>,
    cells: Cells,
    kept: Unordered,
    seen: Meetings,
    pub next: usize,
}

impl<'a> SearchInPlace<'a> {
    // A search that has not begun.
    #[inline(always)]
    pub fn of(filled: FilledTable<'a>) -> SearchInPlace<'a>
        ensures { (result.filled ≡ filled.entry) × (result.next ≡ 0) }
    {
        SearchInPlace {
            filled,
            cells: Cells::none(),
            kept: Unordered::none(),
            seen: Meetings::none(),
            next: 0,
        }
    }

    // Begins the search before row 0, whatever was found before.
    pub fn begin(&mut self)
        ensures { Ready self.new × (self.new.filled ≡ self.old.filled) × (self.new.next ≡ 0) }
    {
        let trace = self.filled.trace;
        self.cells.fill(&trace);
        self.kept.begin(&trace);
        self.seen.forget();
        self.next = 0;
    }

    // Goes on to the next row, and answers the slot of its cells.
    fn open(&mut self) -> usize
        requires { Ready self.old × (self.old.next < size (trace_of self.old.filled.trace.bytes.now)) }
        ensures { RowReady (trace_of self.old.filled.trace.bytes.now) self.old.next self.new.cells self.new.kept
            self.new.seen (worker_of (trace_of self.old.filled.trace.bytes.now) self.old.next) result
            × Ready self.new
            × (self.new.filled ≡ self.old.filled)
            × (self.new.next ≡ self.old.next + 1) }
    {
        let a = self.next;
        let filled = self.filled;
        let w = filled.trace.worker(a);
        self.kept.carry_on(&filled, a);
        let slot = self.seen.slot_for(&self.cells, a);
        race_words::note_row(
            &filled.trace,
            &self.cells,
            &self.kept,
            a,
            w,
            slot,
            &mut self.seen,
        );
        self.next = a + 1;
        slot
    }

    // Row a, which is open, with the slot of its cells.
    fn row(&self, a: usize, slot: usize) -> Row<'_>
        requires { RowReady (trace_of self.now.filled.trace.bytes.now) a self.now.cells self.now.kept self.now.seen
            (worker_of (trace_of self.now.filled.trace.bytes.now) a) slot }
        ensures { (result.trace.bytes.now ≡ self.now.filled.trace.bytes.now) × (result.a ≡ a) }
    {
        let trace = self.filled.trace;
        Row {
            trace,
            cells: &self.cells,
            kept: &self.kept,
            seen: &self.seen,
            a,
            w: trace.worker(a),
            slot,
        }
    }

    // How many races there are whose lower operation is that of the next row. One that is no Read or Write has none.
    pub fn count_row(&mut self) -> usize
        requires { Ready self.old × (self.old.next < size (trace_of self.old.filled.trace.bytes.now)) }
        ensures { (result ≡ length (race_row (trace_of self.old.filled.trace.bytes.now) self.old.next))
            × Ready self.new
            × (self.new.filled ≡ self.old.filled)
            × (self.new.next ≡ self.old.next + 1) }
    {
        let a = self.next;
        let o = self.filled.trace.operation(a);
        if trace::is_access(o.kind) {
            let slot = self.open();
            return self.row(a, slot).count();
        }
        self.next = a + 1;
        0
    }

    // Lists the higher operations of the races whose lower one is that of the next row, and answers how many there are;
    // where `some` is 0, it is known to have none. It is a count, and no bool: a row of one race is not passed over.
    pub fn list_row(&mut self, some: u16, row: &mut [u16; 1024]) -> usize
        requires { Ready self.old × (self.old.next < size (trace_of self.old.filled.trace.bytes.now))
            × (some ≡ 0 → race_row (trace_of self.old.filled.trace.bytes.now) self.old.next ≡ []) }
        ensures { RowHolds (race_row (trace_of self.old.filled.trace.bytes.now) self.old.next) result row.new
            × Ready self.new
            × (self.new.filled ≡ self.old.filled)
            × (self.new.next ≡ self.old.next + 1) }
    {
        let a = self.next;
        let o = self.filled.trace.operation(a);
        let possible = 0 < some;
        if possible && trace::is_access(o.kind) {
            let slot = self.open();
            return self.row(a, slot).list(row);
        }
        self.next = a + 1;
        0
    }

    // The same, of which nothing is known.
    pub fn next_row(&mut self, row: &mut [u16; 1024]) -> usize
        requires { Ready self.old × (self.old.next < size (trace_of self.old.filled.trace.bytes.now)) }
        ensures { RowHolds (race_row (trace_of self.old.filled.trace.bytes.now) self.old.next) result row.new
            × Ready self.new
            × (self.new.filled ≡ self.old.filled)
            × (self.new.next ≡ self.old.next + 1) }
    {
        self.list_row(1, row)
    }
}

// A search that has begun, as its type says: who holds one can take the next row, that of `next`. It is handed over
// whole; the calls, which have its arrays stand once, search in place.
#[derive(Drop)]
pub struct Search<'a> {
    pub filled: FilledTable<'a>,
    rows: SearchInPlace<'a>,
    pub next: usize,
    pub ghost searching: { Searching (trace_of filled.trace.bytes.now) filled.table.now next rows.cells rows.kept
        rows.seen },
}

impl<'a> Search<'a> {
    // A search that stands before row 0.
    pub fn of(filled: FilledTable<'a>) -> Search<'a>
        ensures { (result.filled ≡ filled.entry) × (result.next ≡ 0) }
    {
        let mut rows = SearchInPlace::of(filled);
        rows.begin();
        Search {
            filled,
            rows,
            next: 0,
        }
    }

    // Its holder may have set `filled` and `next`: the search in place is given them before each row.
    fn set_rows(&mut self)
        ensures { Ready self.new.rows × (self.new.rows.filled ≡ self.old.filled)
            × (self.new.rows.next ≡ self.old.next)
            × (self.new.filled ≡ self.old.filled)
            × (self.new.next ≡ self.old.next) }
    {
        self.rows.filled = self.filled;
        self.rows.next = self.next;
    }

    // How many races there are whose lower operation is that of the next row. One that is no Read or Write has none.
    pub fn count_row(&mut self) -> usize
        requires { self.old.next < size (trace_of self.old.filled.trace.bytes.now) }
        ensures { (result ≡ length (race_row (trace_of self.old.filled.trace.bytes.now) self.old.next))
            × (self.new.filled ≡ self.old.filled)
            × (self.new.next ≡ self.old.next + 1) }
    {
        self.set_rows();
        let count = self.rows.count_row();
        self.next += 1;
        count
    }

    // Lists the higher operations of the races whose lower one is that of the next row, and answers how many there are;
    // where `some` is 0, it is known to have none.
    pub fn list_row(&mut self, some: u16, row: &mut [u16; 1024]) -> usize
        requires { (self.old.next < size (trace_of self.old.filled.trace.bytes.now))
            × (some ≡ 0 → race_row (trace_of self.old.filled.trace.bytes.now) self.old.next ≡ []) }
        ensures { RowHolds (race_row (trace_of self.old.filled.trace.bytes.now) self.old.next) result row.new
            × (self.new.filled ≡ self.old.filled)
            × (self.new.next ≡ self.old.next + 1) }
    {
        self.set_rows();
        let count = self.rows.list_row(some, row);
        self.next += 1;
        count
    }

    // The same, of which nothing is known.
    pub fn next_row(&mut self, row: &mut [u16; 1024]) -> usize
        requires { self.old.next < size (trace_of self.old.filled.trace.bytes.now) }
        ensures { RowHolds (race_row (trace_of self.old.filled.trace.bytes.now) self.old.next) result row.new
            × (self.new.filled ≡ self.old.filled)
            × (self.new.next ≡ self.old.next + 1) }
    {
        self.set_rows();
        let count = self.rows.next_row(row);
        self.next += 1;
        count
    }
}
