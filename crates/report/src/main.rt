// Reads a trace file from standard input, and prints its report.
#![tactic(auto)]

fn main(rt: HostRuntime) {
    reporting::report_from(&rt, &mut rt.stdin(), b"standard input");
}
