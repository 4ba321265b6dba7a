// Reading a reader up to its end, and writing bytes to a writer. A call that a signal interrupts is made again, and one
// that fails is told from the end of the input. Where the bytes that a reader has left, or that a writer holds, are
// known, as in memory, the contracts say which are moved; which bytes the system moves, no contract can say.
#![tactic(auto)]

ghost use Rattle.std.specs.Prelude.{◌≡◌, ℕ, ◌<◌, ◌≤◌, ◌⊎◌, length, take, drop, IfOk, OnOk};
ghost use Rattle.std.specs.Io.KnownBytes.{Consumes, Appends, IsAtEnd};
ghost use Rattle.streams.specs.Streams.{AnswersBehind, step_after, StepWithin, ReadBehind, moved_by, EndsWhole};
ghost use Rattle.streams.specs.Streams.{count_read};

use std::io;
use std::io::{Error, ErrorKind, Read, Write};

// Where reading stopped before the input's end: how many bytes were read, and why a read failed.
#[derive(Clone, Copy)]
pub struct Stopped {
    pub count: usize,
    pub error: Option<Error>,
}

// What comes after one call of the system: one more call, behind the first `count` bytes; or none, where the `count`
// bytes that are moved are all that were to be moved, or where a call failed or moved nothing, which leaves no error.
#[derive(Clone, Copy)]
enum Step {
    Again(usize),
    Whole(usize),
    Failed(usize, Option<Error>),
}

// What comes after a call that was to move the bytes behind the first `count`, and answered `got`. One that moves none
// is the end of the input in `reading`, and in writing a failure: one function, as the definition `step_after` is one.
fn step_after(got: io::Result<usize>, reading: bool, bytes: &[u8], count: usize) -> Step
    requires { AnswersBehind (length bytes.now) count got }
    ensures told { result ≡ step_after got reading count }
    ensures within { StepWithin result (length bytes.now) }
{
    match got {
        Err(error) if error.kind() == ErrorKind::Interrupted => Step::Again(count),
        Err(error) => Step::Failed(count, Some(error)),
        Ok(0) if reading => Step::Whole(count),
        Ok(0) => Step::Failed(count, None),
        Ok(more) => Step::Again(count + more),
    }
}

// One read, to the part of the buffer behind the `count` bytes that are read.
fn read_once<R: Read>(reader: &mut R, buffer: &mut [u8], count: usize) -> Step
    requires { count ≤ length buffer.old }
    ensures behind { ReadBehind buffer.old count result buffer.new }
    ensures grows { count ≤ moved_by result }
    ensures bytes { Consumes (R.remaining reader.old) (R.remaining reader.new)
        (drop count (take (moved_by result) buffer.new)) }
    ensures end { EndsWhole result → count < length buffer.old → IsAtEnd (R.remaining reader.new) }
{
    let got = reader.read(&mut buffer[count..]);
    step_after(got, true, buffer, count)
}

// Reads up to the input's end, or until the buffer is full, and answers how many bytes it read.
pub fn read_up_to<R: Read>(reader: &mut R, buffer: &mut [u8]) -> Result<usize, Stopped>
    ensures within { count_read result ≤ length buffer.new }
    ensures bytes { Consumes (R.remaining reader.old) (R.remaining reader.new)
        (take (count_read result) buffer.new) }
    ensures end { IfOk result (λ n. (n ≡ length buffer.new) ⊎ IsAtEnd (R.remaining reader.new)) }
{
    let mut count = 0;
    for calls in 0..u64::MAX {
        if buffer.len() <= count {
            return Ok(count);
        }
        match read_once(reader, buffer, count) {
            Step::Again(next) => count = next,
            Step::Whole(all) => return Ok(all),
            Step::Failed(part, error) => return Err(Stopped { count: part, error }),
        }
    }
    Err(Stopped { count, error: None })
}

// One write, of the bytes behind the `count` bytes that are written.
fn write_once<W: Write>(writer: &mut W, bytes: &[u8], count: usize) -> Step
    requires { count ≤ length bytes.now }
    ensures within { StepWithin result (length bytes.now) }
    ensures grows { count ≤ moved_by result }
    ensures bytes { Appends (W.contents writer.old) (W.contents writer.new)
        (drop count (take (moved_by result) bytes.now)) }
    ensures end { ¬ EndsWhole result }
{
    let got = writer.write(&bytes[count..]);
    step_after(got, false, bytes, count)
}

// Writes all bytes; where it cannot, a part is written, from the start, and it answers why a write failed: there is no
// error where a write moved nothing.
pub fn write_whole<W: Write>(writer: &mut W, bytes: &[u8]) -> Result<(), Option<Error>>
    ensures all { OnOk result (Appends (W.contents writer.old) (W.contents writer.new) bytes.now) }
    ensures part { (n : ℕ) × Appends (W.contents writer.old) (W.contents writer.new) (take n bytes.now) }
{
    let mut count = 0;
    for calls in 0..u64::MAX {
        if bytes.len() <= count {
            return Ok(());
        }
        match write_once(writer, bytes, count) {
            Step::Again(next) => count = next,
            Step::Whole(_) => return Ok(()),
            Step::Failed(_, error) => return Err(error),
        }
    }
    Err(None)
}
