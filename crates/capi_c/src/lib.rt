// The C interface as a static library: the functions of `capi` under their own names, for C. Each calls its namesake,
// and promises what that promises: two crates, for the C interface is a static library, which no crate can cite.
// include/mersohki.h declares them.
#![tactic(auto)]

ghost use Rattle.std.specs.Prelude.{◌≡◌};
ghost use Rattle.accept.specs.Acceptance.{accept_answer};
ghost use Rattle.pair_order.specs.Order.{order_answer};
ghost use Rattle.beginning.specs.Computed.{prefix_of};
ghost use Rattle.c_results.specs.Results.{accept_result, order_result, beginning_result};
ghost use Rattle.capi.specs.Functions.{TableFunction, RunsFunction, RacesFunction, CanonicalFunction};

use c_results::accept_result::AcceptResult;
use c_results::beginning_result::BeginningResult;
use c_results::canonical_result::CanonicalResult;
use c_results::order_result::OrderResult;
use c_results::races_result::RacesResult;
use c_results::runs_result::RunsResult;
use c_results::table_result::TableResult;

// Asks the file's questions, of any bytes.
#[unsafe(no_mangle)]
pub extern "C" fn mersohki_accept(file: &[u8]) -> AcceptResult
    ensures { result ≡ accept_result (accept_answer file.now) }
{
    capi::mersohki_accept(file)
}

// Asks the file's questions and 11, of any bytes and any table; where none refuses, the order table.
#[unsafe(no_mangle)]
pub extern "C" fn mersohki_order_table(file: &[u8], table: &mut [u16]) -> TableResult
    ensures { TableFunction file.now table.old result table.new }
{
    capi::mersohki_order_table(file, table)
}

// Asks the file's questions, 12 and 13, of any bytes and any two numbers; where none refuses, the order of the two
// operations.
#[unsafe(no_mangle)]
pub extern "C" fn mersohki_pair_order(file: &[u8], a: u32, b: u32) -> OrderResult
    ensures { result ≡ order_result (order_answer file.now a b) }
{
    capi::mersohki_pair_order(file, a, b)
}

// Asks the file's questions and 12 to 15, of any bytes, any two numbers and any buffers; where none refuses, the two
// runs.
#[unsafe(no_mangle)]
pub extern "C" fn mersohki_two_runs(
    file: &[u8],
    a: u32,
    b: u32,
    first: &mut [u16],
    second: &mut [u16],
) -> RunsResult
    ensures { RunsFunction file.now a b first.old second.old result
        first.new second.new }
{
    capi::mersohki_two_runs(file, a, b, first, second)
}

// Asks the file's questions, 11 and 16, of any bytes, any table and any two lists; where none refuses, the races, and
// the order table; where 16 does, the order table.
#[unsafe(no_mangle)]
pub extern "C" fn mersohki_races(
    file: &[u8],
    table: &mut [u16],
    lower: &mut [u16],
    higher: &mut [u16],
) -> RacesResult
    ensures { RacesFunction file.now table.old lower.old higher.old result
        table.new lower.new higher.new }
{
    capi::mersohki_races(file, table, lower, higher)
}

// Asks the file's questions and 17, of any bytes and any output; where none refuses, the tidy file.
#[unsafe(no_mangle)]
pub extern "C" fn mersohki_canonical(file: &[u8], output: &mut [u8]) -> CanonicalResult
    ensures { CanonicalFunction file.now output.old result output.new }
{
    capi::mersohki_canonical(file, output)
}

// The part of the first list that ends with the first appearance of `chosen`, where `other` appears after it and not
// before it; failing that, the same part of the second list; failing both, nothing of the first.
#[unsafe(no_mangle)]
pub extern "C" fn mersohki_beginning(
    first: &[u16],
    second: &[u16],
    chosen: u32,
    other: u32,
) -> BeginningResult
    ensures { result
        ≡ beginning_result (prefix_of first.now second.now chosen other) }
{
    capi::mersohki_beginning(first, second, chosen, other)
}
