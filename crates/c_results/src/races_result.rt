// The race list on two lists of numbers, for C.
ghost use Rattle.std.specs.Prelude.{◌≡◌};
ghost use Rattle.c_results.specs.Results.{races_result};

use races::Races;
use trace::Refusal;

#[repr(C)]
#[derive(Clone, Copy)]
pub struct RacesResult {
    pub number: u8,
    pub place: u32,
    pub workers: u8,
    pub operations: u32,
    pub races: u32,
}

// The struct of an answer.
impl From<Result<Races, Refusal>> for RacesResult {
    ghost from_gives = { λ answer r. r ≡ races_result answer };

    fn from(answer: Result<Races, Refusal>) -> RacesResult {
        match answer {
            Ok(found) => RacesResult {
                number: 0,
                place: 0,
                workers: found.workers,
                operations: found.operations,
                races: found.races,
            },
            Err(refusal) => RacesResult {
                number: refusal.number,
                place: refusal.place,
                workers: 0,
                operations: 0,
                races: 0,
            },
        }
    }
}
