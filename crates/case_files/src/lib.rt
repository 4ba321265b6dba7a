// The file at hand of typed cases, as lines change it; what they say is told at the head of `typed_cases`.
#![tactic(auto)]

use case_words::Change;
use test_files::{Fields, Form};

// The largest file that can be lent.
pub const FILE: usize = 65546;

// The file, and how many of its bytes are lent.
#[derive(Clone, Copy)]
pub struct FileAtHand {
    pub bytes: [u8; FILE],
    size: usize,
}

impl FileAtHand {
    pub fn empty() -> Self {
        FileAtHand {
            bytes: [0; FILE],
            size: 0,
        }
    }

    // The bytes that are lent, where there are so many.
    pub fn lent(&self) -> Option<&[u8]> {
        self.bytes.get(..self.size)
    }

    // A file with nothing but its header.
    fn start(&mut self, workers: u32, operations: u32) {
        self.bytes.fill(0);
        test_files::put_header(&mut self.bytes, Form::Plain, workers, operations);
        self.size = Form::Plain.file_size(operations as usize);
    }

    fn put_many(&mut self, row: &[u32; 24]) {
        let mut k = row[1] as usize;
        let mut fields = Fields {
            worker: row[3],
            kind: row[5],
            number: row[6],
            length: row[8],
        };
        for _ in 0..row[0] {
            test_files::put_operation(&mut self.bytes, k, fields);
            k = k % 65536 + row[2] as usize % 65536;
            fields.worker = (fields.worker % 16 + row[4] % 16) % 16;
            fields.number = fields.number.wrapping_add(row[7]);
        }
    }

    // What a line with these numbers says of the file.
    pub fn change(&mut self, change: Change, row: &[u32; 24]) {
        match change {
            Change::File => self.start(row[0], row[1]),
            Change::Op => {
                let fields = Fields {
                    worker: row[1],
                    kind: row[2],
                    number: row[3],
                    length: row[4],
                };
                test_files::put_operation(&mut self.bytes, row[0] as usize, fields);
            }
            Change::Many => self.put_many(row),
            Change::Byte => test_files::put_byte(&mut self.bytes, row[0] as usize, row[1]),
            Change::Size => self.size = row[0] as usize,
        }
    }
}
