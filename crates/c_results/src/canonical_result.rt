// The tidy file, for C.
ghost use Rattle.std.specs.Prelude.{◌≡◌};
ghost use Rattle.c_results.specs.Results.{canonical_result};

use trace::Refusal;

#[repr(C)]
#[derive(Clone, Copy)]
pub struct CanonicalResult {
    pub number: u8,
    pub place: u32,
    pub size: u32,
}

// The struct of an answer.
impl From<Result<u32, Refusal>> for CanonicalResult {
    ghost from_gives = { λ answer r. r ≡ canonical_result answer };

    fn from(answer: Result<u32, Refusal>) -> CanonicalResult {
        match answer {
            Ok(size) => CanonicalResult {
                number: 0,
                place: 0,
                size,
            },
            Err(refusal) => CanonicalResult {
                number: refusal.number,
                place: refusal.place,
                size: 0,
            },
        }
    }
}
