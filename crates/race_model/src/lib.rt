// A race record; races and their list are in specs/ and proofs/.
#![tactic(auto)]

// A race record: the lower and the higher operation.
#[derive(Clone, Copy)]
pub struct Race {
    pub lower: u16,
    pub higher: u16,
}
