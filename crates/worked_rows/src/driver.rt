//! Makes the calls of cases, and compares what they leave with what they should.
ghost use Rattle.std.specs.Prelude.{◌≡◌};
ghost use Rattle.aftr_engine.specs.words.Words.{input_count, paths_for};

use crate::case::Case;
use crate::octets::{list_of, octets, words_of};
use aftr_base::{DropCounts, List, Outcome, Status, Word};
use aftr_engine::{aftr, paths_of};
use plant_io::Source;
use plant_mem::{MemPlant, MemSink, MemSource, NoFaultSource};
use std::process::Abort;

/// What a call left behind.
#[derive(Drop)]
struct Seen {
    outcome: Outcome,
    plant: MemPlant,
    report: MemSink,
}

/// Checks what each of these cases leaves.
pub fn check_all<R: Abort + AllocGlobal>(rt: &R, cases: &[Case<'_>]) {
    for case in cases {
        check(rt, case);
    }
}

/// Checks what a case leaves.
pub fn check<R: Abort + AllocGlobal>(rt: &R, case: &Case<'_>) {
    let input = octets(rt, case.input);
    let log = case.log.bytes(rt);
    check_over(rt, case, &input, &log);
}

/// Checks what a case leaves over an input of these bytes, in place of its own.
pub fn check_input<R: Abort + AllocGlobal>(rt: &R, case: &Case<'_>, input: &[u8]) {
    check_over(rt, case, input, &case.log.bytes(rt));
}

/// Checks what each of these cases leaves where its sources are of the kind that never fails.
pub fn check_all_without_faults<R: Abort + AllocGlobal>(rt: &R, cases: &[Case<'_>]) {
    for case in cases {
        assert!(rt; case.config_fails_at.is_empty() && case.input_fails_at.is_empty());
        let input = octets(rt, case.input);
        let seen = run_without_faults(rt, case, &input);
        compare(rt, case, &input, &seen);
    }
}

/// Checks a run, and then queries over the log that it left, whatever log they name.
pub fn check_behind<R: Abort + AllocGlobal>(rt: &R, before: &Case<'_>, queries: &[Case<'_>]) {
    let input = octets(rt, before.input);
    let log = before.log.bytes(rt);
    let seen = run(rt, before, &input, &log);
    compare(rt, before, &input, &seen);
    for query in queries {
        check_over(rt, query, &[], seen.plant.content());
    }
}

/// Checks what a run of this input leaves by a case but for its packets and its log, which have these bytes.
pub fn check_leaving<R: Abort + AllocGlobal>(
    rt: &R,
    case: &Case<'_>,
    input: &[u8],
    sent: &[u8],
    log: &[u8],
) {
    let seen = run(rt, case, input, &case.log.bytes(rt));
    let name = name_of(rt, case, input);
    compare_outcome(rt, &name, case, &seen.outcome);
    compare_text(rt, &name, "report", seen.report.written(), case.report);
    assert_eq!(rt; seen.plant.sent(), sent, "outlet: {name}");
    assert_eq!(rt; seen.plant.content(), log, "log: {name}");
}

/// Asks a log, which keeps its bytes, and gives what is printed.
pub fn ask<R: Abort + AllocGlobal>(rt: &R, words: &[&str], log: &[u8]) -> MemSink {
    let words = words_of(rt, words);
    let mut config = NoFaultSource::new(list_of(rt, &[]));
    let mut inputs: Vec<NoFaultSource> = Vec::new(rt.alloc());
    let mut plant = MemPlant::new(rt.alloc(), list_of(rt, log), list_of(rt, &[]));
    let mut report = MemSink::new(rt.alloc(), list_of(rt, &[]));
    let outcome = call_program(
        rt,
        &words,
        &mut config,
        &mut inputs,
        &mut plant,
        &mut report,
    );
    assert!(rt; matches!(outcome.status, Status::Ok));
    assert_eq!(rt; plant.content(), log);
    report
}

/// How runs end over the beginnings of an input that are shorter than `end`, but for those of the rows before.
#[derive(Clone, Copy)]
pub struct Cut<'a> {
    pub end: usize,
    pub ending: Case<'a>,
}

/// Checks runs over each beginning of an input, from none of its bytes to all.
pub fn check_cuts<R: Abort + AllocGlobal>(rt: &R, input: &[&str], cuts: &[Cut<'_>]) {
    let input = octets(rt, input);
    let mut len = 0;
    for cut in cuts {
        check_lengths(rt, &cut.ending, &input, len, cut.end);
        len = cut.end;
    }
    assert_eq!(rt; len, input.len() + 1, "the lengths of all beginnings");
}

// Checks runs over the beginnings of an input whose lengths are in this range.
fn check_lengths<R: Abort + AllocGlobal>(
    rt: &R,
    case: &Case<'_>,
    input: &[u8],
    from: usize,
    end: usize,
) {
    for len in from..end {
        assert!(rt; len <= input.len());
        check_over(rt, case, &input[..len], &case.log.bytes(rt));
    }
}

// Checks what a case leaves over this input and this log.
fn check_over<R: Abort + AllocGlobal>(rt: &R, case: &Case<'_>, input: &[u8], log: &[u8]) {
    let seen = run(rt, case, input, log);
    compare(rt, case, input, &seen);
}

// Makes a case's call over sources that give their bytes in pieces and fail as planned.
fn run<R: Abort + AllocGlobal>(rt: &R, case: &Case<'_>, input: &[u8], log: &[u8]) -> Seen {
    let words = words_of(rt, case.words);
    let mut config = source_of(rt, case.config, 1, case.config_fails_at);
    let mut inputs = Vec::new(rt.alloc());
    if count_of(&words) == 1 {
        let source = source_of(rt, input, case.piece, case.input_fails_at);
        inputs.push(source).expect(rt, "memory for an input");
    }
    call(rt, case, &words, &mut config, &mut inputs, log)
}

// Makes a run's call over sources that never fail.
fn run_without_faults<R: Abort + AllocGlobal>(rt: &R, case: &Case<'_>, input: &[u8]) -> Seen {
    let words = words_of(rt, case.words);
    let mut config = NoFaultSource::new(list_of(rt, case.config));
    let mut inputs = [NoFaultSource::new(list_of(rt, input))];
    call(
        rt,
        case,
        &words,
        &mut config,
        &mut inputs,
        &case.log.bytes(rt),
    )
}

fn source_of<R: Abort + AllocGlobal>(
    rt: &R,
    bytes: &[u8],
    piece: usize,
    fails_at: &[u64],
) -> MemSource {
    MemSource::new(list_of(rt, bytes), piece, list_of(rt, fails_at))
}

// How many inputs the words name.
fn count_of(words: &[Word]) -> usize
    ensures { result ≡ input_count (paths_for words.now) }
{
    match paths_of(words) {
        Some(paths) => usize::from(paths.count),
        None => 0,
    }
}

// Makes a case's call over these sources and this log.
fn call<R: Abort + AllocGlobal, C: Source, I: Source>(
    rt: &R,
    case: &Case<'_>,
    words: &[Word],
    config: &mut C,
    inputs: &mut [I],
    log: &[u8],
) -> Seen {
    let log = list_of(rt, log);
    let mut plant = MemPlant::new(rt.alloc(), log, list_of(rt, case.plant_fails_at));
    let mut report = MemSink::new(rt.alloc(), list_of(rt, case.report_fails_at));
    let outcome = call_program(rt, words, config, inputs, &mut plant, &mut report);
    Seen {
        outcome,
        plant,
        report,
    }
}

// The only call of the program, which wants as many inputs as the words name.
fn call_program<R: Abort + AllocGlobal, C: Source, I: Source>(
    rt: &R,
    words: &[Word],
    config: &mut C,
    inputs: &mut [I],
    plant: &mut MemPlant,
    report: &mut MemSink,
) -> Outcome {
    assert_eq!(rt; inputs.len(), count_of(words));
    aftr(rt.alloc(), words, config, inputs, plant, report)
}

// Compares all that a call left with what it should.
fn compare<R: Abort + AllocGlobal>(rt: &R, case: &Case<'_>, input: &[u8], seen: &Seen) {
    let name = name_of(rt, case, input);
    compare_outcome(rt, &name, case, &seen.outcome);
    compare_text(rt, &name, "report", seen.report.written(), case.report);
    compare_plant(rt, &name, case, &seen.plant);
}

// What a failure says of a call.
fn name_of<R: Abort + AllocGlobal>(rt: &R, case: &Case<'_>, input: &[u8]) -> String {
    let len = input.len();
    let name = format!(in rt.alloc();
        "{}, over {len} bytes of input, {:?}",
        case.name, case.words
    );
    name.expect(rt, "memory for a name")
}

fn compare_outcome<R: Abort + AllocGlobal>(rt: &R, name: &str, case: &Case<'_>, seen: &Outcome) {
    let status = format!(in rt.alloc(); "{:?}", seen.status).expect(rt, "memory for a status");
    compare_text(rt, name, "status", status.as_bytes(), case.status);
    assert!(rt; seen.marks.is_empty(), "marks: {name}");
    assert_eq!(rt; seen.drops, counts_of(case), "drops: {name}");
}

fn compare_plant<R: Abort + AllocGlobal>(rt: &R, name: &str, case: &Case<'_>, seen: &MemPlant) {
    compare_octets(rt, name, "outlet", seen.sent(), case.sent);
    let log = case.log_after.bytes(rt);
    assert_eq!(rt; seen.content(), log.as_slice(), "log: {name}");
    if let Some(calls) = case.calls {
        assert_eq!(rt; seen.calls(), calls, "calls: {name}");
    }
}

fn compare_text<R: Abort>(rt: &R, name: &str, what: &str, seen: &[u8], wanted: &str) {
    assert_eq!(rt; str::from_utf8(seen), Ok(wanted), "{what}: {name}");
}

fn compare_octets<R: Abort + AllocGlobal>(
    rt: &R,
    name: &str,
    what: &str,
    seen: &[u8],
    wanted: &[&str],
) {
    let wanted = octets(rt, wanted);
    assert_eq!(rt; seen, wanted.as_slice(), "{what}: {name}");
}

// The counts in the order of the causes.
fn counts_of(case: &Case<'_>) -> DropCounts {
    let mut counts = [0; 23];
    for (cause, count) in case.drops {
        counts[*cause as usize] = *count;
    }
    DropCounts(counts)
}
