// The calls, each with its promise. `race_list` has an equation in place of a caller (proofs/RaceList).
ghost use Rattle.std.specs.Prelude.{◌≡◌};
ghost use Rattle.trace.specs.Writing.{Bytes};
ghost use Rattle.accept.specs.Acceptance.{accept_answer};
ghost use Rattle.order_table.specs.Table.{TableCall};
ghost use Rattle.pair_order.specs.Order.{order_answer};
ghost use Rattle.two_runs.specs.Runs.{RunsCall};
ghost use Rattle.beginning.specs.Computed.{prefix_of, BeginningCall};
ghost use Rattle.races.specs.Races.{RacesCall};
ghost use Rattle.canonical.specs.CanonicalFile.{CanonicalCall};
ghost use Rattle.report_text.specs.ReportText.{ReportCall};

use beginning::Prefix;
use races::Races;
use trace::{Counts, Refusal};

fn reading_call(file: &[u8]) -> Result<Counts, Refusal>
    ensures { result ≡ accept_answer file.now }
{
    accept::accept(file)
}

// Each element of a file that a call is lent is a byte, whatever is answered.
fn lent_file(file: &[u8]) -> Result<Counts, Refusal>
    ensures { Bytes file.now }
{
    accept::accept(file)
}

fn table_call(file: &[u8], table: &mut [u16]) -> Result<Counts, Refusal>
    ensures { TableCall file.now table.old result table.new }
{
    order_table::order_table(file, table)
}

fn order_call(file: &[u8], a: u32, b: u32) -> Result<i8, Refusal>
    ensures { result ≡ order_answer file.now a b }
{
    pair_order::pair_order(file, a, b)
}

fn runs_call(
    file: &[u8],
    a: u32,
    b: u32,
    first: &mut [u16],
    second: &mut [u16],
) -> Result<u32, Refusal>
    ensures { RunsCall file.now a b first.old second.old result
        first.new second.new }
{
    two_runs::two_runs(file, a, b, first, second)
}

fn beginning_call<'a>(first: &'a [u16], second: &'a [u16], chosen: u32, other: u32) -> &'a [u16]
    ensures { BeginningCall first.now second.now chosen other
        first.entry.ref_ptr second.entry.ref_ptr result.now result.ref_ptr }
{
    beginning::beginning(first, second, chosen, other)
}

fn prefix_call(first: &[u16], second: &[u16], chosen: u32, other: u32) -> Prefix
    ensures { result ≡ prefix_of first.now second.now chosen other }
{
    beginning::which_prefix(first, second, chosen, other)
}

fn races_call(
    file: &[u8],
    table: &mut [u16],
    lower: &mut [u16],
    higher: &mut [u16],
) -> Result<Races, Refusal>
    ensures { RacesCall file.now table.old lower.old higher.old result
        table.new lower.new higher.new }
{
    races::races(file, table, lower, higher)
}

fn canonical_call(file: &[u8], output: &mut [u8]) -> Result<u32, Refusal>
    ensures { CanonicalCall file.now output.old result output.new }
{
    canonical::canonical(file, output)
}

fn report_call(file: &[u8], output: &mut [u8; report_text::TEXT_SIZE]) -> usize
    ensures { ReportCall file.now output.old result output.new }
{
    report_text::report(file, output)
}
