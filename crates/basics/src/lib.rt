// Tests: both of two, one of them.
#![tactic(auto)]

ghost use Rattle.std.specs.Prelude.{◌&&◌, ◌||◌, ◌≡◌};

// Do both hold? With both worked out before, no branch hangs on the one or the other.
pub fn both(x: bool, y: bool) -> bool
    ensures { result ≡ x && y }
{
    x && y
}

// Does one of them hold?
pub fn either(x: bool, y: bool) -> bool
    ensures { result ≡ x || y }
{
    x || y
}
