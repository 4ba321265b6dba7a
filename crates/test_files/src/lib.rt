// How the bytes of a trace file lie, and writing them for tests.
#![tactic(auto)]

ghost use Rattle.std.specs.Prelude.{◌≡◌, ◌≤◌, IsSome};

// The kinds of operations, by their numbers.
#[derive(Clone, Copy, PartialEq, Eq)]
pub enum Kind {
    Post = 1,
    Wait,
    Read,
    Write,
}

// The kind with that number, if there is one.
pub fn kind_of(number: u32) -> Option<Kind>
    ensures { IsSome result → number ≤ 4 }
{
    match number {
        1 => Some(Kind::Post),
        2 => Some(Kind::Wait),
        3 => Some(Kind::Read),
        4 => Some(Kind::Write),
        _ => None,
    }
}

// The form of a file is the second byte of its mark. These forms are known.
#[derive(Clone, Copy, PartialEq, Eq)]
pub enum Form {
    Plain = 0x57,
}

impl Form {
    // How many bytes a record has.
    pub fn record_size(self) -> usize
        ensures { result ≤ 10 }
    {
        match self {
            Form::Plain => 10,
        }
    }

    // Where record k starts, where the header is record 0.
    pub fn record_start(self, k: usize) -> usize
        ensures { result ≤ 655360 }
    {
        match self {
            Form::Plain => k % 65537 * 10,
        }
    }

    // How many bytes a file has, with its header.
    pub fn file_size(self, operations: usize) -> usize
        ensures { result ≤ 655360 }
    {
        self.record_start(operations % 65536 + 1)
    }
}

// The form that the bytes of a file say, if it is known.
pub fn form_of(file: &[u8]) -> Option<Form> {
    match file.get(1) {
        Some(&0x57) => Some(Form::Plain),
        _ => None,
    }
}

// The fields of a record, of any values.
#[derive(Clone, Copy, PartialEq, Eq)]
pub struct Fields {
    pub worker: u32,
    pub kind: u32,
    pub number: u32,
    pub length: u32,
}

impl Fields {
    // A Post or a Wait.
    pub fn of_event(worker: u32, kind: Kind, event: u32) -> Self
        ensures worker { result.worker ≡ worker }
        ensures event { result.number ≡ event }
        ensures length { result.length ≡ 0 }
    {
        Fields::of_access(worker, kind, event, 0)
    }

    // A Read or a Write.
    pub fn of_access(worker: u32, kind: Kind, cell: u32, length: u32) -> Self
        ensures worker { result.worker ≡ worker }
        ensures cell { result.number ≡ cell }
        ensures length { result.length ≡ length }
    {
        Fields {
            worker,
            kind: kind as u32,
            number: cell,
            length,
        }
    }

    // The bytes of the record in a form: numbers are little-endian.
    fn bytes(self, form: Form) -> [u8; 10] {
        let number = self.number.to_le_bytes();
        let length = self.length.to_le_bytes();
        [
            0x50,
            form as u8,
            (self.worker % 256) as u8,
            (self.kind % 256) as u8,
            number[0],
            number[1],
            number[2],
            number[3],
            length[0],
            length[1],
        ]
    }
}

// Writes one byte.
pub fn put_byte(file: &mut [u8], at: usize, x: u32) {
    if let Some(byte) = file.get_mut(at) {
        *byte = (x % 256) as u8;
    }
}

// Writes record k in a form, as far as the file goes.
pub fn put_record(file: &mut [u8], form: Form, k: usize, fields: Fields) {
    let bytes = fields.bytes(form);
    if let Some(rest) = file.get_mut(form.record_start(k)..) {
        for (to, byte) in rest.iter_mut().zip(bytes.iter()) {
            *to = *byte;
        }
    }
}

pub fn put_header(file: &mut [u8], form: Form, workers: u32, operations: u32) {
    let fields = Fields {
        worker: workers,
        kind: 0,
        number: operations,
        length: 0,
    };
    put_record(file, form, 0, fields);
}

// Writes operation k, in the form that the header says.
pub fn put_operation(file: &mut [u8], k: usize, fields: Fields) {
    if let Some(form) = form_of(file) {
        put_record(file, form, k % 65536 + 1, fields);
    }
}
