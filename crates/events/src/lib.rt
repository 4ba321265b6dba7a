// The set of posted events, in four words: event e is bit e % 64 of word e / 64.
#![tactic(auto)]

ghost use Rattle.std.specs.Prelude.{not, ◌&&◌, ◌≡◌, ◌<◌, eqb};
ghost use Rattle.events.specs.Events.{is_posted, with_post};

// Is event e needed, which is to say that `need` is 1 and not 0, and not posted? One test, without a branch.
pub fn is_missing(events: &[u64; 4], e: u32, need: u32) -> bool
    requires { (e < 256) × (need < 2) }
    ensures { result ≡ (eqb need 1 && not (is_posted events.now e)) }
{
    let mask = u64::from(need) << (e % 64);
    (events[(e / 64) as usize] & mask) != mask
}

// Posts event e.
pub fn post(events: &mut [u64; 4], e: u32)
    requires { e < 256 }
    ensures { events.new ≡ with_post events.old e }
{
    let word = (e / 64) as usize;
    events[word] |= 1u64 << (e % 64);
}
