//! The program: opens the files that the words name, makes the engine's one call and ends with its status.
//! The report goes to standard output; nothing goes to standard error.
#![tactic(auto)]

ghost use Rattle.std.specs.Prelude.{◌≡◌, length, IfOk, OnErr, None, slice_get, option_and_then};
ghost use Rattle.std.specs.Option.{option_copied};
ghost use Rattle.plant_io.specs.Uses.{sink_use};
ghost use Rattle.aftr_engine.specs.words.Words.{input_count, command_for};
ghost use Rattle.aftr_engine.specs.report.Lines.{fault_line};
ghost use Rattle.aftr_engine.specs.engine.Reported.{IsPrinted, PrintsFault};

mod ending;
mod faults;
mod file_id;
mod file_plant;
mod file_source;
mod opening;
mod std_sink;
#[cfg(test)]
mod tests;

use aftr_base::{NoMemory, Outcome, Status, Word};
use aftr_engine::{LogUse, Paths, aftr, log_use_of, paths_of};
use ending::exit_status;
use file_id::FileId;
use file_plant::{FilePlant, PlantPaths};
use file_source::FileSource;
use plant_io::Sink;
use std::fs::File;
use std::io::ErrorKind;
use std::process::ExitCode;
use std::rt::{Env, Files};
use std::{env, io};
use std_sink::StdSink;

// The words after the program's own name. Where one isn't UTF-8 they are no command, and there are none.
fn read_words<R: Env + AllocGlobal>(rt: &R) -> Result<Vec<Word>, NoMemory> {
    let mut words = Vec::new(rt.alloc());
    match env::args(rt) {
        Ok(args) => {
            for arg in args.skip(1) {
                words.push(Word::from_string(arg))?;
            }
        }
        Err(error) => {
            if error.kind() == ErrorKind::OutOfMemory {
                return Err(NoMemory);
            }
        }
    }
    Ok(words)
}

// The path that stands at this place among the words, where there is one.
fn path_at(words: &[Word], at: Option<u8>) -> Option<&str>
    ensures { option_copied result ≡ option_and_then (slice_get words.now) at }
{
    let word = words.get(usize::from(at?))?;
    Some(word.as_str())
}

// One source for each input that the words name, in their order.
fn open_inputs<R: Files<File = File> + AllocGlobal>(
    rt: &R,
    words: &[Word],
    paths: Option<Paths>,
) -> Result<Vec<FileSource>, NoMemory>
    ensures count { IfOk result (λ inputs. length inputs.items ≡ input_count paths) }
{
    let mut inputs = Vec::new(rt.alloc());
    let Some(paths) = paths else {
        return Ok(inputs);
    };
    for number in 0..paths.count {
        let path = path_at(words, paths.first.checked_add(number));
        inputs.push(FileSource::open(rt, path))?;
    }
    Ok(inputs)
}

// What the files are known by that a command reads beside its log.
fn read_files<R: AllocGlobal>(
    rt: &R,
    config: &FileSource,
    inputs: &[FileSource],
) -> Result<Option<Vec<FileId>>, NoMemory> {
    let mut files = Vec::new(rt.alloc());
    match config.id() {
        Ok(Some(id)) => files.push(id)?,
        Ok(None) => {}
        Err(_) => return Ok(None),
    }
    for input in inputs {
        match input.id() {
            Ok(Some(id)) => files.push(id)?,
            Ok(None) => {}
            Err(_) => return Ok(None),
        }
    }
    Ok(Some(files))
}

// Makes the call over the files that the words name. Words that are no command name none, and none is touched.
fn call<R: Files<File = File> + AllocGlobal, S: Sink>(
    rt: &R,
    words: &[Word],
    report: &mut S,
) -> Result<Outcome, NoMemory>
    ensures words { IfOk result (λ outcome.
        outcome.status ≡ Status.BadWords → command_for words.now ≡ None) }
    ensures fault { IfOk result (λ outcome.
        PrintsFault (sink_use ⟦<S as Sink>⟧ report.old report.new) outcome.status) }
    ensures unreported { OnErr result (report.new ≡ report.old) }
{
    let paths = paths_of(words);
    let mut inputs = open_inputs(rt, words, paths)?;
    let (config, log, outlet) = match paths {
        Some(paths) => (paths.config, paths.log, paths.outlet),
        None => (None, None, None),
    };
    let mut config = FileSource::open(rt, path_at(words, config));
    let (mut others, log) = match read_files(rt, &config, inputs.as_slice())? {
        Some(others) => (others, log),
        None => (Vec::new(rt.alloc()), None),
    };
    let paths = PlantPaths {
        log: path_at(words, log),
        log_use: log_use_of(words).unwrap_or(LogUse::Reads),
        outlet: path_at(words, outlet),
    };
    let mut plant = FilePlant::open(rt, &paths, &mut others)?;
    Ok(aftr(
        rt.alloc(),
        words,
        &mut config,
        inputs.as_mut_slice(),
        &mut plant,
        report,
    ))
}

// Memory ran out before the call: the report says so, as the call itself would.
fn report_no_memory<S: Sink>(report: &mut S) -> Status
    ensures { IsPrinted (sink_use ⟦<S as Sink>⟧ report.old report.new) Status.NoMemory result
        (fault_line Status.NoMemory) }
{
    match report.write(b"fault NoMemory\n") {
        Ok(()) => Status::NoMemory,
        Err(_) => Status::OutFault,
    }
}

fn run<R: Files<File = File> + Env + AllocGlobal, S: Sink>(
    rt: &R,
    report: &mut S,
) -> Result<Outcome, NoMemory>
    ensures fault { IfOk result (λ outcome.
        PrintsFault (sink_use ⟦<S as Sink>⟧ report.old report.new) outcome.status) }
    ensures unreported { OnErr result (report.new ≡ report.old) }
{
    let words = read_words(rt)?;
    call(rt, &words, report)
}

// Takes the numbers of standard streams that are closed, so that no file gets one: the report would else be written into
// the log. The folder is open for reading alone, so a write to it fails.
fn hold_standard_streams<R: Files<File = File>>(rt: &R) -> [Option<File>; 3] {
    [
        File::open(rt, "/").ok(),
        File::open(rt, "/").ok(),
        File::open(rt, "/").ok(),
    ]
}

fn main(rt: HostRuntime) -> ExitCode {
    let _held = hold_standard_streams(&rt);
    let mut report = StdSink::new(io::writer(&rt));
    let status = match run(&rt, &mut report) {
        Ok(outcome) => outcome.status,
        Err(NoMemory) => report_no_memory(&mut report),
    };
    ExitCode::from(exit_status(&status))
}
