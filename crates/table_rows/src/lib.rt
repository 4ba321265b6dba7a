// Writing the rows of the order table of an accepted file.
#![tactic(auto)]

ghost use Rattle.std.specs.Prelude.{◌≡◌, ℕ, ◌<◌, ◌≤◌, length, set, take, replicate};
ghost use Rattle.trace.specs.Reading.{trace_of};
ghost use Rattle.walk.specs.Going.{Sized, Walked};
ghost use Rattle.lent.specs.Written.{written_over};
ghost use Rattle.table_rows.specs.Filling.{RoomAt, RoomAlong, Fillable, row_put, RowsAlong, FillsPart};
ghost use Rattle.table_rows.specs.Passing.{Passes, PassesOwn};
ghost use Rattle.table_rows.specs.Rows.{order_table};

use index::{Index, IndexedFile};
use walk::{Limits, Walk};

// Writes the row of operation k, worker q's with `own` earlier ones, to its part of the table.
fn put_row(done: &[u16; 16], p: usize, k: usize, q: usize, own: u16, table: &mut [u16])
    requires { RoomAt p k done.now table.old × (q < p) }
    ensures { table.new ≡ row_put p k (take p (set done.now q own)) table.old }
{
    let first = k * p;
    let end = first + p;
    row_writer::write_row(done, q, own, &mut table[first..end]);
}

// Writes the rows of worker q's operations with at least `from` earlier ones and fewer than `to`: the same done counts,
// but for its own.
fn put_rows(
    index: &Index,
    p: usize,
    q: usize,
    from: usize,
    to: usize,
    done: &[u16; 16],
    table: &mut [u16],
)
    // Of the counts, which are 16, `RoomAlong` says the length alone.
    requires { RoomAlong p q from to index.now.order index.now.starts (replicate 16 0) table.old }
    ensures { RowsAlong index.now.order index.now.starts p q from to
        done.now table.old table.new }
{
    let first = usize::from(index.starts[q]);
    for m in from..to {
        let k = usize::from(index.order[first + m]);
        put_row(done, p, k, q, m as u16, table);
    }
}

// Which entry of a worker's list is next, how many of its operations are done, and whom the last of them has freed.
#[derive(Clone, Copy)]
struct Passed {
    at: usize,
    to: usize,
    freed: u16,
}

// Takes a worker's steps, from entry `own` of its list on, up to one that frees somebody; where none does, the worker
// is at its end, with `last` operations.
fn pass_own(list: &[u32; 1024], own: usize, end: usize, last: usize, walk: &mut Walk) -> Passed
    requires { (own ≤ «end») × («end» ≤ 1024) }
    ensures { ((q : ℕ) → Passes list.now q own «end» last walk.old.events walk.old.waiting
        walk.new.events walk.new.waiting result.at result.to result.freed)
        × (walk.new.nexts ≡ walk.old.nexts)
        × (walk.new.done ≡ walk.old.done)
        × ((q : ℕ) → length walk.old.events ≡ 4 → length walk.old.waiting ≡ 256
        → PassesOwn list.now q own «end» last walk.old.events walk.old.waiting
        walk.new.events walk.new.waiting result.at result.to result.freed) }
{
    for at in own..end {
        let x = list[at];
        let freed = walk.release(index::event_of(x));
        if freed != 0 {
            return Passed {
                at: at + 1,
                to: index::count_before(x) as usize + 1,
                freed,
            };
        }
    }
    Passed {
        at: end,
        to: last,
        freed: 0,
    }
}

// Goes on with the walk until nobody is ready. Worker q, which is neither ready nor waits, has done `from` operations:
// they are added to the done counts where others go on.
fn exhaust(list: &[u32; 1024], limits: &Limits, ready: u16, q: usize, from: usize, walk: &mut Walk)
    requires { Sized limits.now.ends walk.old.nexts × (q < 16) × (from < 65536) }
    ensures { (m : ℕ) × Walked list.now limits.now.ends limits.now.lasts walk.old.nexts
        (set walk.old.done q from) walk.old.events walk.old.waiting ready
        walk.new.nexts (set walk.new.done q m) walk.new.events walk.new.waiting 0 }
{
    if ready != 0 {
        walk.done[q] = from as u16;
        walk.walk_on(list, limits, ready);
    }
}

// Writes the rows of worker q's operations. The walk without one of them is kept: behind a step of the worker that
// frees somebody, the walk without the next operation goes on from there; up to such a step the rows differ in the own
// count alone. The worker's last operation is never added.
fn fill_worker(x: &IndexedFile<'_>, q: usize, table: &mut [u16])
    requires { Fillable x.now.trace.bytes.now x.now.trace.workers x.now.trace.operations table.old
        × (q < x.now.trace.workers) }
    ensures { FillsPart (trace_of x.now.trace.bytes.now) x.now.index.now.starts q table.old
        table.new }
{
    let p = usize::from(x.trace.workers);
    let index = x.index;
    let (limits, mut walk) = courses::begin(index);
    let mut ready = masks::without(masks::below(p as u32), q as u32);
    let mut own = usize::from(index.starts[q]);
    let end = usize::from(index.ends[q]);
    let last = usize::from(limits.lasts[q]);
    let mut from: usize = 0;
    // A `while`: how far a round gets is known at its end.
    while from < last {
        exhaust(&index.list, &limits, ready, q, from, &mut walk);
        let s = pass_own(&index.list, own, end, last, &mut walk);
        put_rows(index, p, q, from, s.to, &walk.done, table);
        ready = s.freed;
        own = s.at;
        from = s.to;
    }
}

// Writes all rows, worker by worker. In a frame of its own, so that it does not stand beside that of the walk for
// question 10.
#[inline(never)]
pub fn fill(x: &IndexedFile<'_>, table: &mut [u16])
    requires { Fillable x.now.trace.bytes.now x.now.trace.workers x.now.trace.operations table.old }
    ensures { table.new ≡ written_over (order_table (trace_of x.now.trace.bytes.now)) table.old }
{
    for q in 0..usize::from(x.trace.workers) {
        fill_worker(x, q, table);
    }
}
