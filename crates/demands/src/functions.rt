// The functions of the C interface, each with its promise.
ghost use Rattle.std.specs.Prelude.{◌≡◌};
ghost use Rattle.accept.specs.Acceptance.{accept_answer};
ghost use Rattle.pair_order.specs.Order.{order_answer};
ghost use Rattle.beginning.specs.Computed.{prefix_of};
ghost use Rattle.capi.specs.Functions.{TableFunction, RunsFunction, RacesFunction, CanonicalFunction};
ghost use Rattle.c_results.specs.Results.{accept_result, order_result, beginning_result};

use c_results::accept_result::AcceptResult;
use c_results::beginning_result::BeginningResult;
use c_results::canonical_result::CanonicalResult;
use c_results::order_result::OrderResult;
use c_results::races_result::RacesResult;
use c_results::runs_result::RunsResult;
use c_results::table_result::TableResult;

fn reading_function(file: &[u8]) -> AcceptResult
    ensures { result ≡ accept_result (accept_answer file.now) }
{
    capi::mersohki_accept(file)
}

fn table_function(file: &[u8], table: &mut [u16]) -> TableResult
    ensures { TableFunction file.now table.old result table.new }
{
    capi::mersohki_order_table(file, table)
}

fn order_function(file: &[u8], a: u32, b: u32) -> OrderResult
    ensures { result ≡ order_result (order_answer file.now a b) }
{
    capi::mersohki_pair_order(file, a, b)
}

fn runs_function(file: &[u8], a: u32, b: u32, first: &mut [u16], second: &mut [u16]) -> RunsResult
    ensures { RunsFunction file.now a b first.old second.old result
        first.new second.new }
{
    capi::mersohki_two_runs(file, a, b, first, second)
}

fn races_function(
    file: &[u8],
    table: &mut [u16],
    lower: &mut [u16],
    higher: &mut [u16],
) -> RacesResult
    ensures { RacesFunction file.now table.old lower.old
        higher.old result table.new lower.new higher.new }
{
    capi::mersohki_races(file, table, lower, higher)
}

fn canonical_function(file: &[u8], output: &mut [u8]) -> CanonicalResult
    ensures { CanonicalFunction file.now output.old result output.new }
{
    capi::mersohki_canonical(file, output)
}

fn beginning_function(first: &[u16], second: &[u16], chosen: u32, other: u32) -> BeginningResult
    ensures { result
        ≡ beginning_result (prefix_of first.now second.now chosen other) }
{
    capi::mersohki_beginning(first, second, chosen, other)
}
