// The trace file: its mark, its record size, and the operations of a file that reads as a trace.
// The functions with a `requires` are for the crates above: the reader, which asks a file's questions of its header and
// its records, and the crates that have had a file read before.
#![tactic(auto)]

ghost use Rattle.std.specs.Prelude.{◌≡◌, ◌+◌, ◌≤◌, ◌<◌, length, drop};
ghost use Rattle.trace.specs.Form.{base, record_size, start};
ghost use Rattle.trace.specs.LittleEndian.{value};
ghost use Rattle.trace.specs.Questions.{operation_in};
ghost use Rattle.trace.specs.Answer.{counts_of};
ghost use Rattle.trace.specs.Premises.{HoldsTrace};
ghost use Rattle.trace.specs.Reading.{reads, file_reading, trace_of};
ghost use Rattle.trace.specs.Trace.{size, operation, worker_of, is_sync, is_access};

// The mark that each record starts with.
pub const MARK: [u8; 2] = [0x50, 0x57];

// How many bytes a record has.
pub const RECORD_SIZE: usize = 10;

// What a record says: its worker, kind (1 Post, 2 Wait, 3 Read, 4 Write), number and length. The kind is a number and no
// enum: a record may hold any, and it is question 7, `kind_known`, that asks it.
#[derive(Clone, Copy)]
pub struct Operation {
    pub worker: u8,
    pub kind: u8,
    pub number: u32,
    pub length: u16,
}

// The two bytes at a place, as a number.
fn number16(file: &[u8], at: usize) -> u16
    requires { at + 2 ≤ length file.now }
    ensures { result ≡ value 2 (drop at file.now) }
{
    u16::from_le_bytes([file[at], file[at + 1]])
}

// The four bytes at a place, as a number.
fn number32(file: &[u8], at: usize) -> u32
    requires { at + 4 ≤ length file.now }
    ensures { result ≡ value 4 (drop at file.now) }
{
    u32::from_le_bytes([file[at], file[at + 1], file[at + 2], file[at + 3]])
}

// The operation written in the record at a place.
pub fn operation_in(file: &[u8], at: usize) -> Operation
    requires { at + record_size base ≤ length file.now }
    ensures { result ≡ operation_in (drop at file.now) }
{
    Operation {
        worker: file[at + 2],
        kind: file[at + 3],
        number: number32(file, at + 4),
        length: number16(file, at + 8),
    }
}

// Where the record of operation k starts; with n for k, the size of a file of n operations.
pub fn record_start(k: usize) -> usize
    requires { k ≤ 1024 }
    ensures { result ≡ start base k }
{
    RECORD_SIZE + RECORD_SIZE * k
}

// Post or Wait?
pub fn is_sync(kind: u8) -> bool
    ensures { result ≡ is_sync kind }
{
    kind == 1 || kind == 2
}

// Read or Write?
pub fn is_access(kind: u8) -> bool
    ensures { result ≡ is_access kind }
{
    kind == 3 || kind == 4
}

// A refusal: the number of the question that is answered "no", and its place. It is document 01's number and no enum:
// `refused-answer`, of `accept`, and the theorems of `demands` speak of any number.
#[derive(Clone, Copy, Debug, PartialEq, Eq)]
pub struct Refusal {
    pub number: u8,
    pub place: u32,
}

// The worker count and the operation count of a trace.
#[derive(Clone, Copy, Debug, PartialEq, Eq)]
pub struct Counts {
    pub workers: u8,
    pub operations: u32,
}

// A file that reads as a trace, and the trace's counts.
#[derive(Clone, Copy)]
pub struct TraceFile<'a> {
    pub bytes: &'a [u8],
    pub workers: u8,
    pub operations: u32,
    pub ghost holds: { HoldsTrace bytes.now workers operations },
}

impl TraceFile<'_> {
    // A file of which it is known that it reads as a trace.
    pub fn of(file: &[u8]) -> TraceFile<'_>
        requires { file_reading file.now ≡ reads (trace_of file.now) }
        ensures { result.bytes.now ≡ file.now }
    {
        let header = operation_in(file, 0);
        TraceFile {
            bytes: file,
            workers: header.worker,
            operations: header.number,
        }
    }

    // Its counts.
    pub fn counts(&self) -> Counts
        ensures { result ≡ counts_of (trace_of self.now.bytes.now) }
    {
        Counts {
            workers: self.workers,
            operations: self.operations,
        }
    }

    // Operation k.
    pub fn operation(&self, k: usize) -> Operation
        requires { k < size (trace_of self.now.bytes.now) }
        ensures { result ≡ operation (trace_of self.now.bytes.now) k }
    {
        operation_in(self.bytes, record_start(k))
    }

    // Its worker.
    pub fn worker(&self, k: usize) -> usize
        requires { k < size (trace_of self.now.bytes.now) }
        ensures { (result ≡ worker_of (trace_of self.now.bytes.now) k) × (result < 16) }
    {
        let o = self.operation(k);
        usize::from(o.worker)
    }
}
