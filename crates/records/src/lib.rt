// Writing a record of a trace file. For the crates above, which write files.
#![tactic(auto)]

ghost use Rattle.std.specs.Prelude.{◌≡◌, ℕ, length};
ghost use Rattle.trace.specs.Form.{base, record_size};
ghost use Rattle.trace.specs.Writing.{record_bytes};

use trace::{MARK, Operation};

// The record of an operation, whatever its rank.
fn record_of(o: Operation) -> [u8; trace::RECORD_SIZE]
    ensures { (rank : ℕ) → result ≡ record_bytes base rank o }
{
    let number = o.number.to_le_bytes();
    let length = o.length.to_le_bytes();
    [
        MARK[0], MARK[1], o.worker, o.kind, number[0], number[1], number[2], number[3], length[0],
        length[1],
    ]
}

// Writes the record of an operation, whatever its rank. Byte by byte: with `copy_from_slice` the array is stored before
// it is copied, and the tidy file took half as long again.
pub fn write_record(o: Operation, part: &mut [u8])
    requires { length part.old ≡ record_size base }
    ensures { (rank : ℕ) → part.new ≡ record_bytes base rank o }
{
    let bytes = record_of(o);
    for i in 0..part.len() {
        part[i] = bytes[i];
    }
}
