// Where a walk starts, with nothing left out or without an operation, and what its end tells. For the crates above,
// which have read the file and made its index before. The functions take any index, and say in a clause what they need
// of it: an `IndexedFile` would ask more. The walks differ in what they do at each turn: one function over a closure
// would have its contract carry what is written. What begins a walk is inlined: it is some 600 bytes, which would be
// copied at each call.
#![tactic(auto)]

ghost use Rattle.std.specs.Prelude.{List, ◌≡◌, ℕ, ◌+◌, ◌-◌, ◌<◌, ◌≤◌, get_or, set};
ghost use Rattle.trace.specs.Premises.{Fits};
ghost use Rattle.trace.specs.Trace.{Trace, size};
ghost use Rattle.index.specs.Steps.{Listed};
ghost use Rattle.states.specs.States.{Exhausted};
ghost use Rattle.courses.specs.Courses.{Opens, Begun, Unstarted, Entry, BegunWithout};
ghost use Rattle.courses.specs.Courses.{LeftOut, Ended};

use index::Index;
use walk::{Limits, Walk};

// Each worker at the start of its list, which it goes to the end, with nothing done.
#[inline(always)]
pub fn begin(index: &Index) -> (Limits, Walk)
    requires { (q : ℕ) → q < 16 → get_or index.now.starts q 0 ≤ get_or index.now.starts (q + 1) 0 }
    ensures { Begun index.now.starts result.1.nexts result.0.lasts 16
        × (result.0.ends ≡ index.now.ends)
        × Unstarted result.1.done result.1.events result.1.waiting }
{
    let mut limits = Limits {
        ends: index.ends,
        lasts: [0; 16],
    };
    let mut walk = Walk {
        nexts: [0; 16],
        done: [0; 16],
        events: [0; 4],
        waiting: [0; 256],
    };
    for q in 0..16 {
        walk.nexts[q] = index.starts[q];
        limits.lasts[q] = index.starts[q + 1] - index.starts[q];
    }
    (limits, walk)
}

// The first entry of a list, from `from` on, that does not stand before the operation with `prior` earlier ones; `end`
// where there is none, as in `Entry`. With `position` on a part of the list, `from` would be added again: no plainer.
fn entry_from(list: &[u32; 1024], from: usize, end: usize, prior: u32) -> usize
    requires { (from ≤ «end») × («end» ≤ 1024) }
    ensures { Entry list.now from «end» prior result }
{
    for s in from..end {
        if prior <= index::count_before(list[s]) {
            return s;
        }
    }
    end
}

// The same, but that worker q's list ends before its operation with `prior` earlier ones.
#[inline(always)]
pub fn begin_without(index: &Index, q: usize, prior: u16) -> (Limits, Walk)
    requires { (q < 16) × Opens index.now.starts index.now.ends }
    ensures { BegunWithout index.now.starts index.now.list index.now.ends q prior
        result.1.nexts result.0.ends result.0.lasts
        × Unstarted result.1.done result.1.events result.1.waiting }
{
    let (mut limits, walk) = begin(index);
    let from = usize::from(index.starts[q]);
    let end = usize::from(index.ends[q]);
    limits.ends[q] = entry_from(&index.list, from, end, u32::from(prior)) as u16;
    limits.lasts[q] = prior;
    (limits, walk)
}

// Lets the operation in that was left out: worker q's list is whole again.
pub fn let_in(index: &Index, q: usize, limits: &mut Limits)
    requires { (q < 16) × (get_or index.now.starts q 0 ≤ get_or index.now.starts (q + 1) 0) }
    ensures { (limits.new.ends ≡ set limits.old.ends q (get_or index.now.ends q 0))
        × (limits.new.lasts ≡ set limits.old.lasts q
        (get_or index.now.starts (q + 1) 0 - get_or index.now.starts q 0)) }
{
    limits.ends[q] = index.ends[q];
    limits.lasts[q] = index.starts[q + 1] - index.starts[q];
}

// The end of the walk of p workers, with nothing left out.
pub fn walk_whole(index: &Index, p: usize) -> Walk
    requires { (p ≤ 16) × Opens index.now.starts index.now.ends }
    ensures { (t : Trace) → Fits t → t.workers ≡ p
        → Listed t index.now.starts index.now.list index.now.ends
        → (s : List ℕ) × Exhausted t (size t) s result.done result.events }
{
    let (limits, mut walk) = begin(index);
    walk.walk_on(&index.list, &limits, masks::below(p as u32));
    walk
}

// The end of the walk of p workers without worker q's operation with `prior` earlier ones.
pub fn walk_without(index: &Index, p: usize, q: usize, prior: u16) -> Walk
    requires { (p ≤ 16) × (q < 16) × Opens index.now.starts index.now.ends }
    ensures { (t : Trace) (a : ℕ)
        → LeftOut t p index.now.starts index.now.list index.now.ends q prior a
        → (s : List ℕ) × Exhausted t a s result.done result.events }
{
    let (limits, mut walk) = begin_without(index, q, prior);
    walk.walk_on(&index.list, &limits, masks::below(p as u32));
    walk
}

// The done counts at the end of the walk without an operation, and, with that let in, at the end of the whole walk.
#[derive(Clone, Copy)]
pub struct Twice {
    pub held: [u16; 16],
    pub whole: [u16; 16],
}

// One walk of p workers, first without worker q's operation with `prior` earlier ones, then with it.
pub fn walk_twice(index: &Index, p: usize, q: usize, prior: u16) -> Twice
    requires { (p ≤ 16) × (q < 16) × Opens index.now.starts index.now.ends }
    ensures { (t : Trace) (a : ℕ)
        → LeftOut t p index.now.starts index.now.list index.now.ends q prior a
        → Ended t a result.held × Ended t (size t) result.whole }
{
    let (mut limits, mut walk) = begin_without(index, q, prior);
    walk.walk_on(&index.list, &limits, masks::below(p as u32));
    let held = walk.done;
    let_in(index, q, &mut limits);
    walk.walk_on(&index.list, &limits, masks::with(0, q as u32));
    Twice {
        held,
        whole: walk.done,
    }
}
