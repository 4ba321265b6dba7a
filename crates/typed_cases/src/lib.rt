// Cases whose expected answers are typed, as lines of text: a word, and numbers.
//
// The file at hand:
//   file       workers, operations: the header, the size that the file is to have, and zeros behind the header
//   op         which operation; worker, kind, number, length
//   many       how many; the first operation, the step to the next; worker, step modulo 16, kind, number, step, length
//   byte       where; which
//   size       how many bytes are lent
//
// A file that is read at once:
//   header     number; size of the file, the two bytes of the mark, workers, kind, operations, length of the header
//   record     number; the two bytes of the mark, workers; worker, kind, number, length of a record, which is tried as
//              the only one, and as the second one behind a Read
//
// A call: what is lent or passed; number and place of the refusal, or 0 0 and the values:
//   accept     ; workers, operations
//   table      size; workers, operations
//   pair       a, b; order: 1 for −1, 2 for +1
//   runs       a, b, sizes of the two buffers; operations
//   races      sizes of the table and of the two lists; workers, operations, races
//   canonical  size; size
//   beginning  sizes of the two lists, chosen number, other number; which list (0 the first, 1 the second), how many of
//              its numbers
//
// The memory that calls are lent, filled with nines before a call that writes it:
//   put-first, put-second          the numbers of the first and of the second buffer or list
//   entries                        from which place on; numbers of the table
//   first, second                  from which place on; numbers of the first and of the second buffer or list
//   written                        from which place on; bytes of the output
#![tactic(auto)]

use case_files::FileAtHand;
use case_lines::Line;
use case_words::Word;
use outcomes::{Kind, Seen};
use typed_calls::{LIST, Memory};

// Notes a line, unless it is empty or a comment.
fn note_line(seen: &mut Seen, line: &Line) {
    if !matches!(line.word, Some(Word::Nothing)) {
        seen.count(Kind::Lines, 1);
    }
    seen.expect(line.is_whole());
}

// Looks at lent memory

// Does the list hold the numbers behind the first one, from the place on that it says? What is behind the list counts
// as `past`.
fn has_numbers<T: Copy + Into<u32>>(list: &[T], past: u32, numbers: &[u32]) -> bool {
    let Some((from, numbers)) = numbers.split_first() else {
        return true;
    };
    let from = *from as usize % 65536;
    numbers.iter().enumerate().all(|(i, due)| match list.get(from + i % 65536) {
        Some(number) => (*number).into() == *due,
        None => past == *due,
    })
}

// The numbers of a line as those of a list.
fn put_numbers(list: &mut [u16; LIST], numbers: &[u32]) {
    for (to, number) in list.iter_mut().zip(numbers.iter()) {
        *to = (*number % 65536) as u16;
    }
}

// Puts numbers into lent memory, or looks at it.
fn look(seen: &mut Seen, memory: &mut Memory, word: case_words::Memory, numbers: &[u32]) {
    let holds = match word {
        case_words::Memory::PutFirst => {
            put_numbers(&mut memory.lists.first, numbers);
            return;
        }
        case_words::Memory::PutSecond => {
            put_numbers(&mut memory.lists.second, numbers);
            return;
        }
        case_words::Memory::Entries => has_numbers(&memory.table, 65536, numbers),
        case_words::Memory::First => has_numbers(&memory.lists.first, 65536, numbers),
        case_words::Memory::Second => has_numbers(&memory.lists.second, 65536, numbers),
        case_words::Memory::Written => has_numbers(&memory.output, 256, numbers),
    };
    typed_calls::looked(seen, holds);
}

// The lines

// Obeys a line; a word of which nothing is known is a mismatch, and so is a call on more bytes than there are.
fn obey(seen: &mut Seen, file: &mut FileAtHand, memory: &mut Memory, line: &Line) {
    note_line(seen, line);
    match line.word {
        Some(Word::Nothing) => (),
        Some(Word::Change(change)) => file.change(change, &line.number),
        Some(Word::AtOnce(word)) => typed_calls::read_at_once(seen, file, word, &line.number),
        Some(Word::Call(call)) => match file.lent() {
            Some(bytes) => memory.call(seen, bytes, call, &line.number),
            None => seen.expect(false),
        },
        Some(Word::Memory(word)) => look(seen, memory, word, line.numbers()),
        None => seen.expect(false),
    }
}

// What is seen in the lines of a text, one after the other.
pub fn typed_cases(text: &[u8]) -> Seen {
    let mut seen = Seen::nothing();
    let mut file = FileAtHand::empty();
    let mut memory = Memory::new();
    for line in text.split(|byte| *byte == b'\n') {
        obey(&mut seen, &mut file, &mut memory, &Line::new(line));
    }
    seen
}
