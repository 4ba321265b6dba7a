// Makes the calls on random files of up to eight operations, all but the race list on records and the report, and
// compares what each answers and what it leaves in lent memory with what all runs say.
#![tactic(auto)]

use expected::Judgement;
use outcomes::{Kind, Seen};
use test_files::Form;

fn count_judgement(seen: &mut Seen, judgement: &Judgement) {
    seen.note_file(judgement.reading);
    seen.count(Kind::Runs, judgement.runs);
    seen.count(Kind::Complete, judgement.complete);
    if judgement.shared {
        seen.count(Kind::SharedEvents, 1);
    }
    seen.expect(judgement.sound);
}

// Makes these calls on any bytes; `way` decides on the sizes of run buffers. A file of more than eight operations
// counts as a mismatch unless its header or a record is refused.
fn compare_calls(seen: &mut Seen, file: &[u8], way: usize) {
    let judgement = Judgement::new(file);
    let reading = judgement.reading;
    count_judgement(seen, &judgement);
    seen.compare(Some(answers::accept_answer(file)), reading.into(), true);
    compare_lists::table_calls(seen, file, &judgement);
    compare_pairs::pair_calls(seen, file, &judgement, way);
    compare_lists::race_calls(seen, file, &judgement);
    compare_lists::canonical_calls(seen, file, reading);
}

// The cases

// The largest small file, with some bytes more.
const SIZE: usize = 128;

fn file_case(seen: &mut Seen, seed: u64, damage: bool, way: usize) {
    let mut file = [0u8; SIZE];
    let mut size = random_files::random_trace(&mut file, Form::Plain, seed);
    if damage {
        size = random_files::damaged(&mut file, size, random_files::next(seed / 3 + 1));
    }
    match file.get(..size) {
        Some(file) => compare_calls(seen, file, way),
        None => seen.expect(false),
    }
}

fn beginning_case(seen: &mut Seen, seed: u64) {
    let mut first = [0u16; 6];
    let mut second = [0u16; 6];
    let next_seed = random_files::next(seed);
    let last_seed = random_files::next(next_seed / 2 + 1);
    random_files::fill_list(&mut first, next_seed);
    random_files::fill_list(&mut second, last_seed);
    let list = first.get(..random_files::below(seed, 7) as usize);
    let failing = second.get(..random_files::below(next_seed, 7) as usize);
    let number_seed = random_files::next(last_seed / 3 + 1);
    let chosen = random_files::small_number(number_seed);
    let other = random_files::small_number(random_files::next(number_seed));
    match (list, failing) {
        (Some(list), Some(failing)) => {
            let numbers = (usize::from(chosen), usize::from(other));
            compare_pairs::beginning_call(seen, list, failing, numbers.0, numbers.1);
        }
        _ => seen.expect(false),
    }
}

// Random cases.
#[derive(Clone, Copy)]
pub enum Part {
    // Files that read as a trace.
    Traces,
    // Files of random traces with bytes replaced, cut off or added.
    Damaged,
    // Beginnings of lists of up to six numbers, which may repeat.
    Lists,
}

impl Part {
    fn first_seed(self) -> u64 {
        match self {
            Part::Traces => 1,
            Part::Damaged => 1000003,
            Part::Lists => 7,
        }
    }

    // What is seen in so many cases.
    pub fn cases(self, count: usize) -> Seen {
        let mut seen = Seen::nothing();
        let mut seed = self.first_seed();
        for i in 0..count {
            seed = random_files::next(seed);
            let second = random_files::next(seed / 2 + 1);
            match self {
                Part::Traces => file_case(&mut seen, second, false, i),
                Part::Damaged => file_case(&mut seen, second, true, i),
                Part::Lists => beginning_case(&mut seen, seed),
            }
        }
        seen
    }
}
