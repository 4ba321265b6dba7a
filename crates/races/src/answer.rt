// What the calls answer of races that are listed.

// The worker count, the operation count and the number of races.
#[derive(Clone, Copy, Debug, PartialEq, Eq)]
pub struct Races {
    pub workers: u8,
    pub operations: u32,
    pub races: u32,
}
