// The pair order, for C.
ghost use Rattle.std.specs.Prelude.{◌≡◌};
ghost use Rattle.c_results.specs.Results.{order_result};

use trace::Refusal;

#[repr(C)]
#[derive(Clone, Copy)]
pub struct OrderResult {
    pub number: u8,
    pub place: u32,
    pub sign: i8,
}

// The struct of an answer.
impl From<Result<i8, Refusal>> for OrderResult {
    ghost from_gives = { λ answer r. r ≡ order_result answer };

    fn from(answer: Result<i8, Refusal>) -> OrderResult {
        match answer {
            Ok(sign) => OrderResult {
                number: 0,
                place: 0,
                sign,
            },
            Err(refusal) => OrderResult {
                number: refusal.number,
                place: refusal.place,
                sign: 0,
            },
        }
    }
}
