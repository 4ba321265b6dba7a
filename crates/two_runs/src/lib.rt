// Two complete runs of a file's trace for a pair of operations that is not ordered, written to two lent buffers.
#![tactic(auto)]

ghost use Rattle.std.specs.Prelude.{false, ◌≡◌, ◌<◌};
ghost use Rattle.trace.specs.Reading.{trace_of};
ghost use Rattle.model.specs.Computed.{must_precede_in};
ghost use Rattle.accept.specs.Acceptance.{AcceptedTrace};
ghost use Rattle.pair_order.specs.Premises.{Pair};
ghost use Rattle.run_writer.specs.Writing.{WritesRun};
ghost use Rattle.two_runs.specs.Premises.{RunFound, BothFound};
ghost use Rattle.two_runs.specs.Runs.{RunsCall};

use courses::Twice;
use index::{Index, IndexedFile};
use trace::Refusal;

// Question 15 of a pair that is not ordered, whose runs are found, and the runs.
fn runs_if_room(
    x: &IndexedFile<'_>,
    a: u32,
    b: u32,
    one: &[u16; 1024],
    other: &[u16; 1024],
    first: &mut [u16],
    second: &mut [u16],
) -> Result<u32, Refusal>
    requires { BothFound x.now.trace.bytes.now x.now.trace.operations a b one.now other.now }
    ensures { RunsCall x.now.trace.bytes.now a b first.old second.old result first.new second.new }
{
    let n = x.trace.operations as usize;
    if first.len() < n {
        return Err(Refusal {
            number: 15,
            place: 0,
        });
    }
    if second.len() < n {
        return Err(Refusal {
            number: 15,
            place: 0,
        });
    }
    first[..n].copy_from_slice(&one[..n]);
    second[..n].copy_from_slice(&other[..n]);
    Ok(x.trace.operations)
}

// Writes the run that holds operation k back. The walk without k that it starts with ends at the done counts `held`,
// and the whole walk at `whole`.
fn find_run(x: &IndexedFile<'_>, k: usize, run: &mut [u16; 1024]) -> Twice
    requires { k < x.now.trace.operations }
    ensures { WritesRun (trace_of x.now.trace.bytes.now) k result.held result.whole run.new }
{
    let prior = pair_order::count_prior(&x.trace, x.index, k);
    run_writer::write_run(
        x.index,
        x.trace.workers as usize,
        x.trace.worker(k),
        prior,
        run,
    )
}

// Question 14 where b need not precede a: by the walk without a, with the run that holds a back; and the runs.
fn runs_if_unordered(
    x: &IndexedFile<'_>,
    a: u32,
    b: u32,
    one: &[u16; 1024],
    first: &mut [u16],
    second: &mut [u16],
) -> Result<u32, Refusal>
    requires { AcceptedTrace x.now.trace.bytes.now (trace_of x.now.trace.bytes.now)
        × Pair x.now.trace.operations a b
        × (must_precede_in (trace_of x.now.trace.bytes.now) b a ≡ false)
        × RunFound (trace_of x.now.trace.bytes.now) x.now.trace.operations b one.now }
    ensures { RunsCall x.now.trace.bytes.now a b first.old second.old result first.new second.new }
{
    let mut other = [0u16; 1024];
    let end = find_run(x, a as usize, &mut other);
    if pair_order::must_precede(&x.trace, x.index, &end.held, a as usize, b as usize) {
        return Err(Refusal {
            number: 14,
            place: 0,
        });
    }
    runs_if_room(x, a, b, one, &other, first, second)
}

// Questions 10 and 14 of two different operations: one walk, first without b and then with it, answers 10 and the first
// direction of 14, and what it adds is the run that holds b back. Nothing is written to the buffers yet. Both runs
// stand in its frame, and not beside that of the walk for a pair that is none.
#[inline(never)]
fn runs_between(
    x: &IndexedFile<'_>,
    a: u32,
    b: u32,
    first: &mut [u16],
    second: &mut [u16],
) -> Result<u32, Refusal>
    requires { Pair x.now.trace.operations a b }
    ensures { RunsCall x.now.trace.bytes.now a b first.old second.old result first.new second.new }
{
    let mut one = [0u16; 1024];
    let end = find_run(x, b as usize, &mut one);
    accept::accept_if_done(&x.trace, x.index, &end.whole)?;
    if pair_order::must_precede(&x.trace, x.index, &end.held, b as usize, a as usize) {
        return Err(Refusal {
            number: 14,
            place: 0, // b before a
        });
    }
    runs_if_unordered(x, a, b, &one, first, second)
}

// Asks the file's questions and 12 to 15, of any bytes, any two numbers and any buffers; where none refuses, the two
// runs, and the operation count, which is the length of each.
pub fn two_runs(
    file: &[u8],
    a: u32,
    b: u32,
    first: &mut [u16],
    second: &mut [u16],
) -> Result<u32, Refusal>
    ensures { RunsCall file.now a b first.old second.old result first.new second.new }
{
    let trace = reader::open(file)?;
    let mut index = Index::none();
    index.fill(&trace);
    let x = IndexedFile {
        trace,
        index: &index,
    };
    if pair_order::is_pair(trace.operations, a, b) {
        return runs_between(&x, a, b, first, second);
    }
    Err(pair_order::refuse(&x, a, b))
}
