// The order table of an accepted file, filled.
#![tactic(auto)]

ghost use Rattle.std.specs.Prelude.{◌≡◌, ◌+◌, ◌*◌, ◌<◌, get_or};
ghost use Rattle.trace.specs.Reading.{trace_of};
ghost use Rattle.trace.specs.Trace.{size};
ghost use Rattle.table_entries.specs.Entries.{HoldsTable};

use trace::TraceFile;

// An accepted file, and its order table.
#[derive(Clone, Copy)]
pub struct FilledTable<'a> {
    pub trace: TraceFile<'a>,
    pub table: &'a [u16],
    pub ghost holds: { HoldsTable trace.bytes.now table.now },
}

impl FilledTable<'_> {
    // Entry q of row k.
    pub fn entry(&self, k: usize, q: usize) -> u32
        requires { (k < size (trace_of self.now.trace.bytes.now))
            × (q < (trace_of self.now.trace.bytes.now).workers) }
        ensures { (result ≡ get_or self.now.table.now (k * (trace_of self.now.trace.bytes.now).workers + q) 0)
            × (result < 65536) }
    {
        let p = usize::from(self.trace.workers);
        u32::from(self.table[k * p + q])
    }
}
