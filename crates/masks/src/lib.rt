// Sets of workers: worker q is in the set where bit q is 1. A trait for these and for those of crate `words`, whose laws
// are tests, would have each of these lines in each impl: no plainer.
#![tactic(auto)]

ghost use Rattle.std.specs.Prelude.{◌<◌, ◌≤◌, ◌≡◌, true, ◌↔◌};
ghost use Rattle.std.specs.Int.Bits.{bit_or};
ghost use Rattle.masks.specs.Masks.{◌is_in◌, Below, With, Without, Lowest, Apart};

// The workers below q.
pub fn below(q: u32) -> u16
    requires { q ≤ 16 }
    ensures { Below q result }
{
    ((1u32 << q) - 1) as u16
}

// The lowest worker of a set.
pub fn lowest(set: u16) -> u32
    requires { 0 < set }
    ensures { Lowest set result }
{
    set.trailing_zeros()
}

// The set with worker q.
pub fn with(set: u16, q: u32) -> u16
    requires { q < 16 }
    ensures { With set q result }
{
    set | (1u16 << q)
}

// The set, which holds worker q, without it.
pub fn without(set: u16, q: u32) -> u16
    requires { (q < 16) × (q is_in set) }
    ensures { Without set q result }
{
    set ^ (1u16 << q)
}

// The workers of two sets.
pub fn joined(x: u16, y: u16) -> u16
    ensures { (result ≡ bit_or x y) × (result < 65536) }
{
    x | y
}

// Have two sets no worker in common?
pub fn are_apart(x: u16, y: u16) -> bool
    ensures { (result ≡ true) ↔ Apart x y }
{
    (x & y) == 0
}
