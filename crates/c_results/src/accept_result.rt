// Reading a file, for C.
ghost use Rattle.std.specs.Prelude.{◌≡◌};
ghost use Rattle.c_results.specs.Results.{accept_result};

use trace::{Counts, Refusal};

#[repr(C)]
#[derive(Clone, Copy)]
pub struct AcceptResult {
    pub number: u8,
    pub place: u32,
    pub workers: u8,
    pub operations: u32,
}

// The struct of an answer.
impl From<Result<Counts, Refusal>> for AcceptResult {
    ghost from_gives = { λ answer r. r ≡ accept_result answer };

    fn from(answer: Result<Counts, Refusal>) -> AcceptResult {
        match answer {
            Ok(counts) => AcceptResult {
                number: 0,
                place: 0,
                workers: counts.workers,
                operations: counts.operations,
            },
            Err(refusal) => AcceptResult {
                number: refusal.number,
                place: refusal.place,
                workers: 0,
                operations: 0,
            },
        }
    }
}
