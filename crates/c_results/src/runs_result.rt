// The two runs, for C.
ghost use Rattle.std.specs.Prelude.{◌≡◌};
ghost use Rattle.c_results.specs.Results.{runs_result};

use trace::Refusal;

#[repr(C)]
#[derive(Clone, Copy)]
pub struct RunsResult {
    pub number: u8,
    pub place: u32,
    pub operations: u32,
}

// The struct of an answer.
impl From<Result<u32, Refusal>> for RunsResult {
    ghost from_gives = { λ answer r. r ≡ runs_result answer };

    fn from(answer: Result<u32, Refusal>) -> RunsResult {
        match answer {
            Ok(operations) => RunsResult {
                number: 0,
                place: 0,
                operations,
            },
            Err(refusal) => RunsResult {
                number: refusal.number,
                place: refusal.place,
                operations: 0,
            },
        }
    }
}
