// The beginning of a run, for C.
ghost use Rattle.std.specs.Prelude.{◌≡◌};
ghost use Rattle.c_results.specs.Results.{beginning_result};

use beginning::Prefix;

// Which list, 0 the first and 1 the second, and how many of its first numbers. It refuses nothing.
#[repr(C)]
#[derive(Clone, Copy)]
pub struct BeginningResult {
    pub list: u32,
    pub length: usize,
}

// The struct of an answer.
impl From<Prefix> for BeginningResult {
    ghost from_gives = { λ answer r. r ≡ beginning_result answer };

    fn from(answer: Prefix) -> BeginningResult {
        match answer {
            Prefix::OfFirst { length } => BeginningResult { list: 0, length },
            Prefix::OfSecond { length } => BeginningResult { list: 1, length },
        }
    }
}
