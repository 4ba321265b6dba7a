// Text in lent memory: lines of numbers, placed one behind the other. For the crates above, which write text.
#![tactic(auto)]

ghost use Rattle.std.specs.Prelude.{◌+◌, ◌≤◌, length};
ghost use Rattle.text.specs.Decimal.{decimal};
ghost use Rattle.text.specs.Lines.{labelled, count_line, pair_line};
ghost use Rattle.text.specs.Placed.{Placed};

// Places bytes from `at` on, and answers where they end.
fn put(text: &mut [u8], at: usize, bytes: &[u8]) -> usize
    requires { at + length bytes.now ≤ length text.old }
    ensures { Placed text.old at bytes.now result text.new }
{
    let end = at + bytes.len();
    text[at..end].copy_from_slice(bytes);
    end
}

// Places a number in decimal from `at` on, and answers where it ends.
fn put_number(text: &mut [u8], at: usize, x: u32) -> usize
    requires { at + length (decimal x) ≤ length text.old }
    ensures { Placed text.old at (decimal x) result text.new }
{
    let mut digits = [0u8; 20];
    let count = io::decimal(u64::from(x), &mut digits);
    put(text, at, &digits[..count])
}

// Places a number behind its label, from `at` on, and answers where it ends.
fn put_labelled(text: &mut [u8], at: usize, label: &[u8], x: u32) -> usize
    requires { at + length (labelled label.now x) ≤ length text.old }
    ensures { Placed text.old at (labelled label.now x) result text.new }
{
    let start = put(text, at, label);
    put_number(text, start, x)
}

// Places a line of one number from `at` on, and answers where it ends.
pub fn put_count_line(text: &mut [u8], at: usize, label: &[u8], x: u32) -> usize
    requires { at + length (count_line label.now x) ≤ length text.old }
    ensures { Placed text.old at (count_line label.now x) result text.new }
{
    let end = put_labelled(text, at, label, x);
    put(text, end, b"\n")
}

// Places a line of two numbers from `at` on, and answers where it ends.
pub fn put_pair_line(
    text: &mut [u8],
    at: usize,
    first: &[u8],
    x: u32,
    second: &[u8],
    y: u32,
) -> usize
    requires { at + length (pair_line first.now x second.now y) ≤ length text.old }
    ensures { Placed text.old at (pair_line first.now x second.now y) result
        text.new }
{
    let middle = put_labelled(text, at, first, x);
    let end = put_labelled(text, middle, second, y);
    put(text, end, b"\n")
}
