// Compares the calls on one trace in two file orders: they answer the same, but for the numbers of the operations.
#![tactic(auto)]

use large_rows::TABLE;
use outcomes::{Answer, Kind, Seen};
use test_memory::TwoLists;

// Space for a list of races, a run and a tidy file.
const LIST: usize = 4096;

const RUN: usize = 1030;

const OUTPUT: usize = 12400;

// How many pairs are compared.
const PAIRS: usize = 6;

// The file of a trace, its file in another order, and for each operation its number in the other file.
#[derive(Clone, Copy)]
pub struct Shuffled<'a> {
    pub file: &'a [u8],
    pub other: &'a [u8],
    pub renumbered: &'a [u16; 1024],
}

// Notes a call that answers the same on both files, where the lent memory agrees.
fn note_same(seen: &mut Seen, answer: Option<Answer>, other: Option<Answer>, agree: bool) {
    match answer {
        Some(answer) => seen.compare(other, answer, agree),
        None => seen.expect(false),
    }
}

// Is the pair, in either order, in the two lists?
fn has_race(lists: &TwoLists<LIST>, x: u16, y: u16) -> bool {
    let race = (x.min(y), x.max(y));
    lists
        .first
        .iter()
        .zip(lists.second.iter())
        .any(|(a, b)| (*a, *b) == race)
}

impl<'a> Shuffled<'a> {
    // The number of operation x in the other file.
    fn new_number(&self, x: u16) -> u16 {
        self.renumbered[usize::from(x) % 1024]
    }

    // The order tables

    // Is the row of operation k of p workers that of its new number in the other table?
    fn row_agrees(&self, table: &[u16; TABLE], other: &[u16; TABLE], k: usize, p: usize) -> bool {
        let to = usize::from(self.renumbered[k % 1024]);
        let i = test_memory::product(k, p);
        let j = test_memory::product(to, p);
        (0..p).all(|q| table[(i + q % 16) % TABLE] == other[(j + q % 16) % TABLE])
    }

    fn compare_tables(&self, seen: &mut Seen) {
        let mut table = [0u16; TABLE];
        let mut other = [0u16; TABLE];
        let answer = answers::table_answer(self.file, &mut table, TABLE);
        let other_answer = answers::table_answer(self.other, &mut other, TABLE);
        let p = plain_file::workers(self.file);
        let agree = (0..plain_file::operations(self.file)).all(|k| self.row_agrees(
            &table, &other, k, p,
        ));
        note_same(seen, answer, other_answer, agree);
    }

    // Pairs

    // Is each of the first n numbers of the list the old one of the other list's number?
    fn run_agrees(&self, list: &[u16], other: &[u16], n: usize) -> bool {
        n <= list.len()
            && n <= other.len()
            && list
                .iter()
                .zip(other.iter())
                .take(n)
                .all(|(x, y)| self.new_number(*x) == *y)
    }

    // The order of two operations, and their two runs.
    fn compare_pair(&self, seen: &mut Seen, a: u16, b: u16) {
        let mut runs = TwoLists::<RUN>::zeros();
        let mut other_runs = TwoLists::<RUN>::zeros();
        let (x, y) = (u32::from(self.new_number(a)), u32::from(self.new_number(b)));
        let (a, b) = (u32::from(a), u32::from(b));
        let order = answers::order_answer(self.file, a, b);
        seen.compare(Some(answers::order_answer(self.other, x, y)), order, true);
        let sizes = [RUN, RUN];
        let answer = answers::runs_answer(self.file, a, b, &mut runs, sizes);
        let other = answers::runs_answer(self.other, x, y, &mut other_runs, sizes);
        let n = answer.map_or(0, |answer| answer.values[0] as usize);
        let agree = self.run_agrees(&runs.first, &other_runs.first, n)
            && self.run_agrees(&runs.second, &other_runs.second, n);
        note_same(seen, answer, other, agree);
    }

    fn compare_some_pairs(&self, seen: &mut Seen, seed: u64) {
        let n = plain_file::operations(self.file) as u64;
        let mut state = seed;
        for _ in 0..PAIRS {
            let other_state = random_files::next(state);
            let a = random_files::below(state, n) as u16;
            let b = random_files::below(other_state, n) as u16;
            self.compare_pair(seen, a, b);
            state = random_files::next(other_state);
        }
    }

    // Races

    // Is each of the first n races one of the other file's?
    fn races_agree(&self, lists: &TwoLists<LIST>, other: &TwoLists<LIST>, n: usize) -> bool {
        n <= LIST
            && lists.first.iter().zip(lists.second.iter()).take(n).all(|(a, b)| has_race(
                other,
                self.new_number(*a),
                self.new_number(*b),
            ))
    }

    fn compare_races(&self, seen: &mut Seen) {
        let mut table = [0u16; TABLE];
        let mut lists = TwoLists::<LIST>::zeros();
        let mut other_lists = TwoLists::<LIST>::zeros();
        let sizes = [TABLE, LIST, LIST];
        let answer = answers::races_answer(self.file, &mut table, &mut lists, sizes);
        let other = answers::races_answer(self.other, &mut table, &mut other_lists, sizes);
        let n = answer.map_or(0, |answer| answer.values[2] as usize);
        let agree = self.races_agree(&lists, &other_lists, n);
        note_same(seen, answer, other, agree);
    }

    // The tidy files

    fn compare_tidy(&self, seen: &mut Seen) {
        let mut tidy = [0u8; OUTPUT];
        let mut other = [0u8; OUTPUT];
        test_memory::fill(&mut other);
        let answer = answers::canonical_answer(self.file, &mut tidy, OUTPUT);
        let other_answer = answers::canonical_answer(self.other, &mut other, OUTPUT);
        let agree = test_memory::holds(&other, &tidy, self.file.len());
        note_same(seen, answer, other_answer, agree);
    }

    // Makes the calls on both files; a trace that is refused in the one order is refused in the other.
    pub fn compare(&self, seen: &mut Seen, seed: u64) {
        let answer = answers::accept_answer(self.file);
        let other = Answer::from(step_by_step::reading_due(self.other));
        seen.compare(Some(answers::accept_answer(self.other)), other, true);
        if 1 < plain_file::workers(self.file) {
            seen.count(Kind::Shuffled, 1);
        }
        seen.expect(answer.number == other.number);
        if answer.number != 0 {
            return;
        }
        self.compare_tables(seen);
        self.compare_some_pairs(seen, seed);
        self.compare_races(seen);
        self.compare_tidy(seen);
    }
}
