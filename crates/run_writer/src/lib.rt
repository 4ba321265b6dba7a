// Writing the run that holds an operation back.
#![tactic(auto)]

ghost use Rattle.std.specs.Prelude.{List, ◌≡◌, ℕ, ◌<◌, ◌≤◌, length};
ghost use Rattle.trace.specs.Trace.{Trace};
ghost use Rattle.index.specs.Indexed.{Places};
ghost use Rattle.courses.specs.Courses.{LeftOut};
ghost use Rattle.run_writer.specs.Writing.{Written, Writing, Runnable, WritesRun};

use courses::Twice;
use index::Index;
use walk::{Limits, Walk};

// Copies a stretch of the order to a part of the run that is as long. Number by number: a `copy_from_slice` whose length
// is not known needs `memmove` of the C library, which the C interface does without.
fn copy(from: &[u16], to: &mut [u16])
    requires { length from.now ≡ length to.old }
    ensures { to.new ≡ from.now }
{
    for i in 0..to.len() {
        to[i] = from[i];
    }
}

// Goes on with a walk until no worker is ready, the lowest-numbered worker first, and writes down what it adds: turn by
// turn, the stretch of the order that the worker went. Answers how long the run is then.
fn write_walk(
    index: &Index,
    limits: &Limits,
    walk: &mut Walk,
    start: u16,
    from: usize,
    run: &mut [u16; 1024],
) -> usize
    requires { Writing index.now.order index.now.starts index.now.list limits.now.ends limits.now.lasts
        walk.old.nexts walk.old.done walk.old.events walk.old.waiting start from run.old }
    ensures { (t : Trace) (n a : ℕ) (base : List ℕ) → n ≤ 1024
        → Places t n index.now.order index.now.starts
        → Written t a base index.now.list limits.now.ends limits.now.lasts
        walk.old.nexts walk.old.done walk.old.events walk.old.waiting start from run.old
        → Written t a base index.now.list limits.now.ends limits.now.lasts
        walk.new.nexts walk.new.done walk.new.events walk.new.waiting 0 result run.new }
{
    let mut ready = start;
    let mut at = from;
    // A `while`: how many turns there are is not known before.
    while ready != 0 {
        let q = masks::lowest(ready);
        let w = q as usize;
        let before = usize::from(walk.done[w]);
        ready = walk.turn(&index.list, limits, true, ready, q);
        let more = usize::from(walk.done[w]) - before;
        let first = usize::from(index.starts[w]) + before;
        copy(&index.order[first..first + more], &mut run[at..at + more]);
        at += more;
    }
    at
}

// Writes the run that holds worker q's operation with `prior` earlier ones back: the walk of p workers without it, and
// from where that ends the walk with nothing left out. No `walk_twice` over a closure: its contract would have to carry
// `Written`.
pub fn write_run(index: &Index, p: usize, q: usize, prior: u16, run: &mut [u16; 1024]) -> Twice
    requires { (p ≤ 16)
        × (q < 16)
        × Runnable p index.now.order index.now.starts index.now.list index.now.ends q prior }
    ensures { (t : Trace) (n b : ℕ) → n ≤ 1024 → Places t n index.now.order index.now.starts
        → LeftOut t p index.now.starts index.now.list index.now.ends q prior b
        → WritesRun t b result.held result.whole run.new }
{
    let (mut limits, mut walk) = courses::begin_without(index, q, prior);
    let all = masks::below(p as u32);
    let at = write_walk(index, &limits, &mut walk, all, 0, run);
    let held = walk.done;
    courses::let_in(index, q, &mut limits);
    let own = masks::with(0, q as u32);
    write_walk(index, &limits, &mut walk, own, at, run);
    Twice {
        held,
        whole: walk.done,
    }
}
