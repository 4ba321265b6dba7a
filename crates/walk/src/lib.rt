// Walks by a set of ready workers, along each worker's list of Posts and Waits. For the crates above, which have read
// the file and made its index before.
#![tactic(auto)]

ghost use Rattle.std.specs.Prelude.{true, false, not, ◌&&◌, ◌≡◌, ℕ, ◌+◌, ◌%◌, ◌<◌, ◌≤◌, get_or, set};
ghost use Rattle.events.specs.Events.{is_posted, with_post};
ghost use Rattle.masks.specs.Masks.{Below, Lowest};
ghost use Rattle.index.specs.Steps.{ahead, holds, event};
ghost use Rattle.walk.specs.Going.{Entered, Went, Sized, Turned, Walked};

// Where each worker's list ends, and how many operations the worker has done there.
#[derive(Clone, Copy)]
pub struct Limits {
    pub ends: [u16; 16],
    pub lasts: [u16; 16],
}

// Where a walk stands: each worker's next entry, how many operations each has done, the set of posted events, and who
// waits for each event.
#[derive(Clone, Copy)]
pub struct Walk {
    pub nexts: [u16; 16],
    pub done: [u16; 16],
    pub events: [u64; 4],
    pub waiting: [u16; 256],
}

// Where a worker stopped in its list, how many operations it has done, and who is ready by it: those that it has freed,
// and itself where it lets a lower one go first.
#[derive(Clone, Copy)]
struct Stop {
    at: usize,
    count: u16,
    freed: u16,
}

// How many operations its worker has done after the step of an entry.
fn count_after(x: u32) -> u16
    ensures { result ≡ (ahead x + 1) % 65536 }
{
    ((index::count_before(x) + 1) % 65536) as u16
}

// The workers that go before worker q: where they are to go in order, those below it.
fn goes_before(orderly: bool, q: u32) -> u16
    requires { q < 16 }
    ensures { ((orderly ≡ true) → Below q result) × ((orderly ≡ false) → result ≡ 0) }
{
    if orderly { masks::below(q) } else { 0 }
}

impl Walk {
    // Does an entry of a list need its event, which is not posted?
    fn is_held(&self, x: u32) -> bool
        ensures { result ≡ (holds x && not (is_posted self.now.events (event x))) }
    {
        events::is_missing(&self.events, index::event_of(x), index::need_of(x))
    }

    // Posts event e. Answers who waited for it; nobody does then.
    pub fn release(&mut self, e: u32) -> u16
        requires { e < 256 }
        ensures { (result ≡ get_or self.old.waiting e 0)
            × (self.new.events ≡ with_post self.old.events e)
            × (self.new.waiting ≡ set self.old.waiting e 0)
            × (self.new.nexts ≡ self.old.nexts)
            × (self.new.done ≡ self.old.done) }
    {
        events::post(&mut self.events, e);
        std::mem::take(&mut self.waiting[e as usize])
    }

    // Worker q waits for event e.
    fn enter(&mut self, q: u32, e: u32)
        requires { (q < 16) × (e < 256) }
        ensures { Entered q e self.old.waiting self.new.waiting
            × (self.new.events ≡ self.old.events)
            × (self.new.nexts ≡ self.old.nexts)
            × (self.new.done ≡ self.old.done) }
    {
        let at = e as usize;
        self.waiting[at] = masks::with(self.waiting[at], q);
    }

    // Worker q goes on along its list, from entry `from`, until an event holds it, or its list ends, with `last`
    // operations done; or it frees a worker of those in `below`, which go first.
    fn go_on(
        &mut self,
        list: &[u32; 1024],
        q: u32,
        below: u16,
        from: usize,
        end: usize,
        last: u16,
    ) -> Stop
        requires { (q < 16) × (from ≤ «end») × («end» ≤ 1024) }
        ensures { Went list.now q below from «end» last self.old.events self.old.waiting
            self.new.events self.new.waiting result.at result.count result.freed
            × (self.new.nexts ≡ self.old.nexts)
            × (self.new.done ≡ self.old.done) }
    {
        let mut freed: u16 = 0;
        for at in from..end {
            let x = list[at];
            let e = index::event_of(x);
            if self.is_held(x) {
                self.enter(q, e);
                return Stop {
                    at,
                    count: index::count_before(x) as u16,
                    freed,
                };
            }
            let more = self.release(e);
            freed |= more;
            if !masks::are_apart(more, below) {
                return Stop {
                    at: at + 1,
                    count: count_after(x),
                    freed: masks::with(freed, q),
                };
            }
        }
        Stop {
            at: end,
            count: last,
            freed,
        }
    }

    // Worker q, the lowest of those ready, goes on; where the walk is orderly, until it frees a lower one. Answers who
    // is ready then. `orderly` chooses no step: it says which workers go first (`Turned`).
    pub fn turn(
        &mut self,
        list: &[u32; 1024],
        limits: &Limits,
        orderly: bool,
        ready: u16,
        q: u32,
    ) -> u16
        requires { Lowest ready q × Sized limits.now.ends self.old.nexts }
        ensures { Turned list.now limits.now.ends limits.now.lasts orderly q
            self.old.nexts self.old.done self.old.events self.old.waiting ready
            self.new.nexts self.new.done self.new.events self.new.waiting result }
    {
        let w = q as usize;
        let below = goes_before(orderly, q);
        let from = usize::from(self.nexts[w]);
        let end = usize::from(limits.ends[w]);
        let stop = self.go_on(list, q, below, from, end, limits.lasts[w]);
        self.nexts[w] = stop.at as u16;
        self.done[w] = stop.count;
        masks::joined(masks::without(ready, q), stop.freed)
    }

    // Goes on until no worker is ready, in whatever order.
    pub fn walk_on(&mut self, list: &[u32; 1024], limits: &Limits, start: u16)
        requires { Sized limits.now.ends self.old.nexts }
        ensures { Walked list.now limits.now.ends limits.now.lasts
            self.old.nexts self.old.done self.old.events self.old.waiting start
            self.new.nexts self.new.done self.new.events self.new.waiting 0 }
    {
        let mut ready = start;
        // A `while`: how many turns there are is not known before.
        while ready != 0 {
            let q = masks::lowest(ready);
            ready = self.turn(list, limits, false, ready, q);
        }
    }
}
