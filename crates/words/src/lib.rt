// Sets of the numbers below 32: i is in the set where bit i of the word is 1.
#![tactic(auto)]

ghost use Rattle.std.specs.Prelude.{◌<◌, ◌≡◌, length};
ghost use Rattle.words.specs.Passing.{passing};
ghost use Rattle.words.specs.Words.{is_in, With, Without, Common, Joined, Above};

// The set with i.
pub fn with(x: u32, i: u32) -> u32
    requires { i < 32 }
    ensures { With x i result }
{
    x | (1u32 << i)
}

// The set without i.
pub fn without(x: u32, i: u32) -> u32
    requires { i < 32 }
    ensures { Without x i result }
{
    x & ((1u32 << i) ^ 4294967295)
}

// What is in both sets.
pub fn common(x: u32, y: u32) -> u32
    ensures { Common x y result }
{
    x & y
}

// What is in one of two sets.
pub fn joined(x: u32, y: u32) -> u32
    ensures { Joined x y result }
{
    x | y
}

// The numbers above i.
pub fn above(i: u32) -> u32
    requires { i < 32 }
    ensures { Above i result }
{
    4294967294u32 << i
}

// How many numbers are in the set?
pub fn count(x: u32) -> u32
    ensures { result ≡ length (passing (is_in x) 32) }
{
    x.count_ones()
}

// Is i in the set?
pub fn holds(x: u32, i: u32) -> bool
    requires { i < 32 }
    ensures { result ≡ is_in x i }
{
    (x >> i) % 2 == 1
}
