// The order of two operations of a file's trace.
#![tactic(auto)]

ghost use Rattle.std.specs.Prelude.{true, false, ◌≢◌, ◌≡◌, ◌<◌, Err};
ghost use Rattle.trace.specs.Reading.{trace_of};
ghost use Rattle.runs.specs.Workers.{earlier};
ghost use Rattle.trace.specs.Trace.{worker_of};
ghost use Rattle.model.specs.Computed.{must_precede_in, pair_order};
ghost use Rattle.index.specs.Indexed.{Indexed};
ghost use Rattle.courses.specs.Courses.{Ended};
ghost use Rattle.pair_order.specs.Order.{order_answer};
ghost use Rattle.pair_order.specs.Premises.{Pair, NoPair};

use index::{Index, IndexedFile};
use trace::{Refusal, TraceFile};

// Are two numbers different ones of so many operations?
pub fn is_pair(operations: u32, a: u32, b: u32) -> bool
    ensures { ((result ≡ true) → Pair operations a b) × ((result ≡ false) → NoPair operations a b) }
{
    if a < operations {
        if b < operations {
            return a != b;
        }
        return false;
    }
    false
}

// Which question refuses two numbers that are no pair: one of the file's, 12 or 13.
pub fn refuse(x: &IndexedFile<'_>, a: u32, b: u32) -> Refusal
    requires { NoPair x.now.trace.operations a b }
    ensures { Err result ≡ order_answer x.now.trace.bytes.now a b }
{
    if let Err(refusal) = accept::accept_if_complete(x) {
        return refusal;
    }
    let n = x.trace.operations;
    if n <= a || n <= b {
        return Refusal {
            number: 12,
            place: 0,
        };
    }
    Refusal {
        number: 13,
        place: 0,
    }
}

// Must a precede b? From the done counts at the end of the walk without a: b's worker has not got past b. Here and in
// `count_prior` of the index just the operations by worker are asked, which is less than an `IndexedFile`.
pub fn must_precede(
    trace: &TraceFile<'_>,
    index: &Index,
    done: &[u16; 16],
    a: usize,
    b: usize,
) -> bool
    requires { Indexed (trace_of trace.now.bytes.now) index.now.order index.now.starts
        × Ended (trace_of trace.now.bytes.now) a done.now × (b < trace.now.operations) × (a ≢ b) }
    ensures { result ≡ must_precede_in (trace_of trace.now.bytes.now) a b }
{
    let q = trace.worker(b);
    let next = places::next_operation(index, trace.operations as usize, done, q);
    next <= b
}

// How many of its worker's operations come before operation k.
pub fn count_prior(trace: &TraceFile<'_>, index: &Index, k: usize) -> u16
    requires { Indexed (trace_of trace.now.bytes.now) index.now.order index.now.starts × (k < trace.now.operations) }
    ensures { result ≡ earlier (worker_of (trace_of trace.now.bytes.now)) k }
{
    places::count_prior(index, trace.worker(k), k)
}

// The order where a need not precede b: by the walk without b.
fn order_back(x: &IndexedFile<'_>, a: usize, b: usize) -> i8
    requires { Pair x.now.trace.operations a b × (must_precede_in (trace_of x.now.trace.bytes.now) a b ≡ false) }
    ensures { result ≡ pair_order (trace_of x.now.trace.bytes.now) a b }
{
    let prior = count_prior(&x.trace, x.index, b);
    let end = courses::walk_without(x.index, x.trace.workers as usize, x.trace.worker(b), prior);
    if must_precede(&x.trace, x.index, &end.done, b, a) {
        return 1;
    }
    0
}

// The order of two different operations. One walk, first without a and then with it, answers question 10 and the first
// direction.
fn order_between(x: &IndexedFile<'_>, a: usize, b: usize) -> Result<i8, Refusal>
    requires { Pair x.now.trace.operations a b }
    ensures { result ≡ order_answer x.now.trace.bytes.now a b }
{
    let prior = count_prior(&x.trace, x.index, a);
    let end = courses::walk_twice(x.index, x.trace.workers as usize, x.trace.worker(a), prior);
    accept::accept_if_done(&x.trace, x.index, &end.whole)?;
    if must_precede(&x.trace, x.index, &end.held, a, b) {
        return Ok(-1);
    }
    Ok(order_back(x, a, b))
}

// Asks the file's questions, 12 and 13, of any bytes and any two numbers; where none refuses, the order of the two
// operations: −1, 0 or +1, a number, since the C interface and `swapped-order`, which negates it, have it so.
pub fn pair_order(file: &[u8], a: u32, b: u32) -> Result<i8, Refusal>
    ensures { result ≡ order_answer file.now a b }
{
    let trace = reader::open(file)?;
    let mut index = Index::none();
    index.fill(&trace);
    let x = IndexedFile {
        trace,
        index: &index,
    };
    if is_pair(trace.operations, a, b) {
        return order_between(&x, a as usize, b as usize);
    }
    Err(refuse(&x, a, b))
}
