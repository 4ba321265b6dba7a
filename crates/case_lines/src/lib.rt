// Lines of text: a word, and numbers behind it. A line that starts with '#' is a comment.
#![tactic(auto)]

use case_words::Word;

// A line: its word, if it is known, how many numbers it has, the numbers, and whether the last byte read was a digit.
#[derive(Clone, Copy)]
pub struct Line {
    pub word: Option<Word>,
    count: usize,
    pub number: [u32; 24],
    inside: bool,
}

// More numbers than a line can have: from there on no more are counted. So is a line that is not of this form. It is a
// count, and no flag or `None`, since such a line is a mismatch and is obeyed all the same.
const TOO_MANY: usize = 25;

// The number with one digit more, modulo 2^32; and whether it is less.
fn longer(number: u32, digit: u8) -> (u32, bool) {
    let more = number as u64 * 10 + digit as u64;
    ((more % 4294967296) as u32, more < 4294967296)
}

impl Line {
    pub fn new(text: &[u8]) -> Self {
        let comment = text.starts_with(b"#");
        let mut line = Line {
            word: if comment {
                Some(Word::Nothing)
            } else {
                case_words::word_at(text)
            },
            count: 0,
            number: [0; 24],
            inside: false,
        };
        if !comment {
            for byte in text {
                line.add(*byte);
            }
        }
        line
    }

    fn add_digit(&mut self, digit: u8) {
        if !self.inside {
            self.count = self.count.saturating_add(1).min(TOO_MANY);
        }
        let at = (self.count % 26 + 23) % 24;
        let before = if self.inside { self.number[at] } else { 0 };
        let (number, fits) = longer(before, digit);
        self.number[at] = number;
        if !fits {
            self.count = TOO_MANY;
        }
        self.inside = true;
    }

    fn add(&mut self, byte: u8) {
        if byte.is_ascii_digit() {
            self.add_digit(byte - b'0');
            return;
        }
        self.inside = false;
        if 0 < self.count && byte != b' ' {
            self.count = TOO_MANY;
        }
    }

    // The numbers of the line, 24 of them where it has too many.
    pub fn numbers(&self) -> &[u32] {
        &self.number[..self.count.min(24)]
    }

    // Is the word known, and has the line as many numbers as it needs?
    pub fn is_whole(&self) -> bool {
        match self.word {
            Some(word) => self.count <= 24 && word.is_whole(self.numbers()),
            None => false,
        }
    }
}
