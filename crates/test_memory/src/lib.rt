// Memory that is lent for a test: what it holds before a call, and after it; numbers and sizes.
#![tactic(auto)]

ghost use Rattle.std.specs.Prelude.{◌≤◌};

// What lent memory holds before a call; no call writes such numbers.
pub trait Filler: Copy + PartialEq {
    fn filler(i: usize) -> Self;
}

impl Filler for u16 {
    fn filler(i: usize) -> u16 {
        (i % 1000 + 30000) as u16
    }
}

impl Filler for u8 {
    fn filler(i: usize) -> u8 {
        (i % 128 + 128) as u8
    }
}

pub fn fill<T: Filler>(memory: &mut [T]) {
    for (i, x) in memory.iter_mut().enumerate() {
        *x = T::filler(i);
    }
}

// Is the memory from place n on as it was before?
pub fn untouched_from<T: Filler>(memory: &[T], n: usize) -> bool {
    for (i, x) in memory.iter().enumerate() {
        if n <= i && *x != T::filler(i) {
            return false;
        }
    }
    true
}

// Is the memory as it was before?
pub fn untouched<T: Filler>(memory: &[T]) -> bool {
    untouched_from(memory, 0)
}

// Does the memory hold the first `length` numbers that are due, and then what was there?
pub fn holds<T: Filler>(memory: &[T], due: &[T], length: usize) -> bool {
    let n = length.min(due.len()).min(memory.len());
    memory[..n] == due[..n] && untouched_from(memory, n)
}

// Lists

pub fn put(list: &mut [u16], i: usize, x: usize) {
    if let Some(number) = list.get_mut(i) {
        *number = (x % 65536) as u16;
    }
}

// Two lists that are lent together, with space for N numbers each: of races the lower and the higher operations, or two
// runs.
#[derive(Clone, Copy)]
pub struct TwoLists<const N: usize> {
    pub first: [u16; N],
    pub second: [u16; N],
}

impl<const N: usize> TwoLists<N> {
    pub fn zeros() -> Self {
        TwoLists {
            first: [0; N],
            second: [0; N],
        }
    }

    pub fn fill(&mut self) {
        fill(&mut self.first);
        fill(&mut self.second);
    }

    // Lists to be lent.
    pub fn filled() -> Self {
        let mut lists = TwoLists::<N>::zeros();
        lists.fill();
        lists
    }

    // Puts the numbers a and b at place i, if there is space for them.
    pub fn put(&mut self, i: usize, a: usize, b: usize) {
        put(&mut self.first, i, a);
        put(&mut self.second, i, b);
    }

    // Are both lists from place n on as they were before?
    pub fn untouched_from(&self, n: usize) -> bool {
        untouched_from(&self.first, n) && untouched_from(&self.second, n)
    }

    // Do the lists hold the first n numbers that are due, and then what was there?
    pub fn hold<const M: usize>(&self, due: &TwoLists<M>, n: usize) -> bool {
        holds(&self.first, &due.first, n) && holds(&self.second, &due.second, n)
    }
}

// Numbers and sizes

// The number with 32 bits, or the largest one where it is larger.
pub fn number(x: usize) -> u32 {
    u32::try_from(x).unwrap_or(u32::MAX)
}

// How many entries `a` rows of `b` numbers have; no trace has more than 1,024 rows of 16.
pub fn product(a: usize, b: usize) -> usize
    ensures { result ≤ 16384 }
{
    let x = a % 1025;
    let y = b % 17;
    x * y
}
