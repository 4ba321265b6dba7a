// Operations by the index: a worker's next one, the lowest that is left, how many come before one. For the crates
// above, which have read the file and made its index before. They take any index, and say in a clause what they need of
// it: an `IndexedFile` would ask more.
#![tactic(auto)]

ghost use Rattle.std.specs.Prelude.{◌≡◌, ℕ, ◌+◌, ◌<◌, ◌≤◌, get_or};
ghost use Rattle.runs.specs.Workers.{earlier};
ghost use Rattle.trace.specs.Trace.{Trace, worker_of};
ghost use Rattle.index.specs.Indexed.{Places};
ghost use Rattle.states.specs.States.{next_of, lowest_left};

use index::Index;

// Worker q's next operation, of n operations; n where it has none left, as in `next_of`: callers ask which is lower.
pub fn next_operation(index: &Index, n: usize, done: &[u16; 16], q: usize) -> usize
    requires { (q < 16) × (get_or index.now.starts (q + 1) 0 ≤ 1024) }
    ensures { (t : Trace) → Places t n index.now.order index.now.starts → q < t.workers
        → result ≡ next_of t done.now q }
{
    let at = usize::from(index.starts[q]) + usize::from(done[q]);
    if at < usize::from(index.starts[q + 1]) {
        usize::from(index.order[at])
    } else {
        n
    }
}

// The lowest of the p workers' next operations; n where none has one left, as in `lowest_left`.
pub fn lowest_left(index: &Index, p: usize, n: usize, done: &[u16; 16]) -> usize
    requires { (p ≤ 16) × ((q : ℕ) → q < 16 → get_or index.now.starts (q + 1) 0 ≤ 1024) }
    ensures { (t : Trace) → Places t n index.now.order index.now.starts → p ≡ t.workers
        → result ≡ lowest_left t done.now p }
{
    let mut least = n;
    for q in 0..p {
        let k = next_operation(index, n, done, q);
        if k < least {
            least = k;
        }
    }
    least
}

// How many of worker q's operations come before operation k, which is one of them. `position` would answer an Option
// that always has a number: no plainer.
pub fn count_prior(index: &Index, q: usize, k: usize) -> u16
    requires { (q < 16) × (get_or index.now.starts (q + 1) 0 ≤ 1024) }
    ensures { (t : Trace) (n : ℕ) → Places t n index.now.order index.now.starts → k < n
        → worker_of t k ≡ q → result ≡ earlier (worker_of t) k }
{
    let first = usize::from(index.starts[q]);
    for at in first..usize::from(index.starts[q + 1]) {
        if usize::from(index.order[at]) == k {
            return (at - first) as u16;
        }
    }
    0
}
