// Writing a row of the order table to its part.
#![tactic(auto)]

ghost use Rattle.std.specs.Prelude.{◌≡◌, ◌+◌, ◌<◌, ◌≤◌, length, set, take, drop};
ghost use Rattle.std.proofs.Math.Seq.{paste};

// N counts, from the one of worker `at` on. By way of an array, and one by one, which the compiler unrolls: a copy from
// slice to slice asks in each row whether the two overlap, and the order table took 8 to 10 instructions a row more.
fn put<const N: usize>(done: &[u16; 16], at: usize, part: &mut [u16])
    requires { (at + N ≤ 16) × (at + N ≤ length part.old) }
    ensures { part.new ≡ paste part.old at (drop at done.now) N }
{
    let mut counts = [0u16; N];
    counts.copy_from_slice(&done[at..at + N]);
    for i in 0..N {
        part[at + i] = counts[i];
    }
}

// The counts of fewer than four workers; one by one, as in `put`.
fn put_few(done: &[u16; 16], part: &mut [u16])
    requires { length part.old ≤ 16 }
    ensures { part.new ≡ take (length part.old) done.now }
{
    for q in 0..part.len() {
        part[q] = done[q];
    }
}

// The done counts of as many workers as a row has numbers, by eights or fours that may overlap.
fn put_counts(done: &[u16; 16], part: &mut [u16])
    requires { length part.old ≤ 16 }
    ensures { part.new ≡ take (length part.old) done.now }
{
    let p = part.len();
    if 8 <= p {
        put::<8>(done, 0, part);
        put::<8>(done, p - 8, part);
        return;
    }
    if 4 <= p {
        put::<4>(done, 0, part);
        put::<4>(done, p - 4, part);
        return;
    }
    put_few(done, part);
}

// Writes a row: the done counts of as many workers as it has numbers, but worker q's is `own`.
pub fn write_row(done: &[u16; 16], q: usize, own: u16, part: &mut [u16])
    requires { (length part.old ≤ 16) × (q < length part.old) }
    ensures { part.new ≡ take (length part.old) (set done.now q own) }
{
    put_counts(done, part);
    part[q] = own;
}
