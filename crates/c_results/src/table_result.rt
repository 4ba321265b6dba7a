// The order table, for C.
ghost use Rattle.std.specs.Prelude.{◌≡◌};
ghost use Rattle.c_results.specs.Results.{table_result};

use trace::{Counts, Refusal};

#[repr(C)]
#[derive(Clone, Copy)]
pub struct TableResult {
    pub number: u8,
    pub place: u32,
    pub workers: u8,
    pub operations: u32,
}

// The struct of an answer.
impl From<Result<Counts, Refusal>> for TableResult {
    ghost from_gives = { λ answer r. r ≡ table_result answer };

    fn from(answer: Result<Counts, Refusal>) -> TableResult {
        match answer {
            Ok(counts) => TableResult {
                number: 0,
                place: 0,
                workers: counts.workers,
                operations: counts.operations,
            },
            Err(refusal) => TableResult {
                number: refusal.number,
                place: refusal.place,
                workers: 0,
                operations: 0,
            },
        }
    }
}
