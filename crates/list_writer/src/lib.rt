// Numbers written to a lent list, from a place on.
#![tactic(auto)]

ghost use Rattle.std.specs.Prelude.{◌≡◌, ◌+◌, ◌≤◌, length, replicate};
ghost use Rattle.std.proofs.Math.Seq.{paste};

// Writes a number `count` times, from a place of a list on.
pub fn fill(list: &mut [u16], at: usize, count: usize, x: u16)
    requires { at + count ≤ length list.old }
    ensures { list.new ≡ paste list.old at (replicate count x) count }
{
    list[at..at + count].fill(x);
}

// Writes the first `count` numbers of a row, from a place of a list on: a row is filled up to a count, with no heap.
pub fn copy(list: &mut [u16], at: usize, count: usize, row: &[u16; 1024])
    requires { (at + count ≤ length list.old) × (count ≤ 1024) }
    ensures { list.new ≡ paste list.old at row.now count }
{
    list[at..at + count].copy_from_slice(&row[..count]);
}
