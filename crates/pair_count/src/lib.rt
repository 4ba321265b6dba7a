// The pairs of operations of two workers, counted.
#![tactic(auto)]

ghost use Rattle.std.specs.Prelude.{◌≡◌};
ghost use Rattle.trace.specs.Reading.{trace_of};
ghost use Rattle.pair_count.specs.Pairs.{pair_count};

use trace::TraceFile;

// How many pairs of operations of two workers there are. There are no more races.
pub fn pair_count(trace: &TraceFile<'_>) -> usize
    ensures { result ≡ pair_count (trace_of trace.now.bytes.now) }
{
    let mut seen = [0usize; 16];
    let mut count: usize = 0;
    for k in 0..trace.operations as usize {
        let q = trace.worker(k);
        count += k - seen[q];
        seen[q] += 1;
    }
    count
}
