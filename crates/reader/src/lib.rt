// Reading a trace file: the questions of its header and of its records. `read` and `open` are for callers, the calls
// `open`; they require nothing.
#![tactic(auto)]

ghost use Rattle.std.specs.Prelude.{List, ◌≡◌, ◌+◌, ◌≤◌, eqb, length, drop, MatchResult};
ghost use Rattle.trace.specs.declared.Operation.{Operation};
ghost use Rattle.trace.specs.Form.{base, record_size};
ghost use Rattle.trace.specs.Questions.{marked, is_header, workers_fit, count_fits, is_whole, header_question};
ghost use Rattle.trace.specs.Questions.{worker_known, kind_known, event_fits, cells_fit, record_question};
ghost use Rattle.trace.specs.Reading.{refused, reads, file_reading, trace_of};
ghost use Rattle.reader.specs.Answer.{answer_of, opened, refusing};
ghost use Rattle.reader.specs.Premises.{HoldsHeader};

use trace::{Counts, MARK, Operation, RECORD_SIZE, Refusal, TraceFile};

// Does the record at a place start with the mark? Question 5, and a part of question 1.
fn is_marked(file: &[u8], at: usize) -> bool
    requires { at + 2 ≤ length file.now }
    ensures { result ≡ marked base (drop at file.now) }
{
    file[at] == MARK[0] && file[at + 1] == MARK[1]
}

// Question 1.
fn is_header(file: &[u8]) -> bool
    ensures { result ≡ is_header base file.now }
{
    if file.len() < RECORD_SIZE {
        return false;
    }
    if is_marked(file, 0) {
        let header = trace::operation_in(file, 0);
        return header.kind == 0 && header.length == 0;
    }
    false
}

// Question 2.
fn workers_fit(p: u8) -> bool
    ensures { result ≡ workers_fit p }
{
    1 <= p && p <= 16
}

// Question 3.
fn count_fits(n: u32) -> bool
    ensures { result ≡ count_fits n }
{
    n <= 1024
}

// Question 4.
fn is_whole(file: &[u8], n: u32) -> bool
    requires { n ≤ 1024 }
    ensures { result ≡ is_whole base n file.now }
{
    let size = trace::record_start(n as usize);
    file.len() == size
}

// Which of the questions 1 to 4 refuses, if one does.
fn header_question(file: &[u8]) -> Option<u8>
    ensures { result ≡ refusing (header_question base file.now) }
{
    if !is_header(file) {
        return Some(1);
    }
    let header = trace::operation_in(file, 0);
    if !workers_fit(header.worker) {
        return Some(2);
    }
    if !count_fits(header.number) {
        return Some(3);
    }
    if !is_whole(file, header.number) {
        return Some(4);
    }
    None
}

// Question 6.
fn worker_known(p: u8, o: Operation) -> bool
    ensures { result ≡ worker_known p o }
{
    o.worker < p
}

// Question 7.
fn kind_known(o: Operation) -> bool
    ensures { result ≡ kind_known o }
{
    1 <= o.kind && o.kind <= 4
}

// Question 8.
fn event_fits(o: Operation) -> bool
    ensures { result ≡ event_fits o }
{
    let fits = basics::both(o.number <= 255, o.length == 0);
    basics::either(!trace::is_sync(o.kind), fits)
}

// Question 9.
fn cells_fit(o: Operation) -> bool
    ensures { result ≡ cells_fit o }
{
    let end = (o.number as u64) + (o.length as u64);
    let fit = basics::both(1 <= o.length, end <= 4294967296);
    basics::either(!trace::is_access(o.kind), fit)
}

// Does no question refuse the record at a place? All are asked, so that the answer hangs on no branch by the kind.
fn record_passes(file: &[u8], at: usize, p: u8) -> bool
    requires { at + record_size base ≤ length file.now }
    ensures { (before : List Operation)
        → result ≡ eqb (record_question base p before (drop at file.now)) 0 }
{
    let o = trace::operation_in(file, at);
    let kind = basics::both(worker_known(p, o), kind_known(o));
    let number = basics::both(event_fits(o), cells_fit(o));
    basics::both(is_marked(file, at), basics::both(kind, number))
}

// Which question refuses the record at a place, whatever stands before it, if one does.
fn record_question(file: &[u8], at: usize, p: u8) -> Option<u8>
    requires { at + record_size base ≤ length file.now }
    ensures { (before : List Operation) → result ≡ refusing (record_question base p before (drop at file.now)) }
{
    if record_passes(file, at, p) {
        return None;
    }
    if !is_marked(file, at) {
        return Some(5);
    }
    let o = trace::operation_in(file, at);
    if !worker_known(p, o) {
        return Some(6);
    }
    if !kind_known(o) {
        return Some(7);
    }
    if !event_fits(o) {
        return Some(8);
    }
    if !cells_fit(o) {
        return Some(9);
    }
    None
}

// The questions of each record of a file of p workers and n operations, whose header no question refuses.
fn ask_records(file: &[u8], p: u8, n: u32) -> Result<(), Refusal>
    requires { HoldsHeader base file.now p n }
    ensures { MatchResult result (λ all. file_reading file.now ≡ reads (trace_of file.now))
        (λ r. file_reading file.now ≡ refused r.number r.place) }
{
    for k in 0..n {
        let at = trace::record_start(k as usize);
        if let Some(number) = record_question(file, at, p) {
            return Err(Refusal { number, place: k });
        }
    }
    Ok(())
}

// The questions of the header and of each record, of any bytes; where none refuses, the file as one that reads as a
// trace.
pub fn open(file: &[u8]) -> Result<TraceFile<'_>, Refusal>
    ensures opens { MatchResult result (λ t. t.bytes.now ≡ file.now)
        (λ r. file_reading file.now ≡ refused r.number r.place) }
    ensures answers { opened result ≡ answer_of (file_reading file.now) }
{
    if let Some(number) = header_question(file) {
        return Err(Refusal { number, place: 0 });
    }
    let header = trace::operation_in(file, 0);
    ask_records(file, header.worker, header.number)?;
    Ok(TraceFile::of(file))
}

// The same, and the trace's counts.
pub fn read(file: &[u8]) -> Result<Counts, Refusal>
    ensures { result ≡ answer_of (file_reading file.now) }
{
    let trace = open(file)?;
    Ok(trace.counts())
}
