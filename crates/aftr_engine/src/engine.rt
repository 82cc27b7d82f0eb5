//! The program's one call, over any objects of the outside.
ghost use Rattle.std.specs.Prelude.{◌≡◌, ◌≢◌, ◌≤◌, true, [], List, ℕ, length, IfOk, IfErr, OnOk, Some, None};
ghost use Rattle.plant_io.specs.Stops.{StopsLeave};
ghost use Rattle.plant_io.specs.Story.{content, sent, IsImage, IsSettled};
ghost use Rattle.disk_journal.specs.Attach.{AttachLeaves};
ghost use Rattle.aftr_base.specs.Drops.{drop_counts};
ghost use Rattle.aftr_base.specs.declared.outcome.Status.{Status};
ghost use Rattle.cfg_text.specs.Accepted.{is_accepted};
ghost use Rattle.cfg_text.specs.Defaults.{defaults};
ghost use Rattle.xlate_core.specs.Valid.{IsValid};
ghost use Rattle.aftr_base.specs.declared.told.Told.{Told};
ghost use Rattle.aftr_engine.specs.declared.words.Command.{Command};
ghost use Rattle.aftr_engine.specs.declared.words.Command.TheVariants.{Init, Run, Trace, Leases};
ghost use Rattle.aftr_engine.specs.words.Words.{command_for, paths_for, input_count};
ghost use Rattle.egress_gate.specs.Logged.{Tells};
ghost use Rattle.recovery.specs.Answers.{HasRecovered, IsReady};
ghost use Rattle.recovery.specs.Closings.{recovered};
ghost use Rattle.recovery.specs.Leaves.{RecoverLeaves};
ghost use Rattle.trace_query.specs.Logs.{AreBelieved};
ghost use Rattle.trace_query.specs.Names.{name_of};
ghost use Rattle.aftr_engine.specs.session.Attributed.{AnswersForEachPacket, EachStopIsAnswered};
ghost use Rattle.egress_gate.specs.Senders.{NamesEachSender};
ghost use Rattle.aftr_engine.specs.session.Begun.{CanBegin};
ghost use Rattle.aftr_engine.specs.report.Lines.{trace_line, told_text};
ghost use Rattle.plant_io.specs.Uses.{Writes, source_use, plant_use, sink_use};
ghost use Rattle.aftr_engine.specs.session.EndToEnd.{front_run, run_of, told_behind};
ghost use Rattle.aftr_engine.specs.session.Stops.{LeavesLog};
ghost use Rattle.aftr_engine.specs.engine.Reported.{IsKept, IsNoCommand, IsPrinted, IsReported, PrintsFault};
ghost use Rattle.aftr_engine.specs.engine.Running.{KeepsRoom, LeavesRows, RanAs, RefusesConfig, RefusesLog, at_first, first_use, no_source};
ghost use Rattle.aftr_engine.specs.engine.Asking.{AnsweredAs, AnswersFor, answer_to};
ghost use Rattle.aftr_engine.specs.engine.Making.{MadeAs};
ghost use Rattle.aftr_engine.specs.engine.Texts.{IsBadText, IsListed, answer_text, text_of};

use crate::report::{Listing, write_fault, write_summary, write_told, write_trace};
use crate::session::Session;
use crate::words::{Command, command_of};
use aftr_base::{Ip4, Key, List, Moment, NoMemory, Outcome, Status, Told, Word};
use cfg_text::Config;
use disk_journal::{MakeBad, make};
use egress_gate::Tally;
use lease_log::{ToldBad, read_told};
use plant_io::{Failed, Plant, Sink, Source};
use recovery::{Ready, RecoverBad, closings_keep_names, recover};
use std::alloc::Global;
use trace_query::{Named, name};

/// Runs a command. `init LOG` makes an empty log in a file without a byte. `run CONFIG LOG OUTLET INPUT` translates the records
/// of one input of frames, with the default configuration: it first closes what the log tells as open, and sends behind what the
/// outlet has. `trace LOG ADDRESS PORT MOMENT` prints who had a place at a moment, by the log, and `leases LOG` prints all that the
/// log tells. The objects are those that the words name, one input for each: none where they are no command. The answer of
/// every command goes to `report`.
///
/// What is refused is refused in this order: `BadWords` where the words are no command; then, of a run, `BadConfig` where
/// the configuration has a byte; of a run and a query, `LogDamaged` with the offset of the first frame that isn't sound; of `init`
/// `AlreadyThere` with the file's size in bytes where it has a byte; of a run, at its start and then record by record, `LogFull`
/// where the log has no room, and `BadInput` with the offset at which no record stands, all before it
/// treated. `ReadFault`, `LogFault` and `OutFault` come where a read, the log, or the outlet or the report failed, and `NoMemory`
/// of every command but `init`.
pub fn aftr<C: Source, I: Source, P: Plant, R: Sink>(
    alloc: Global,
    words: &[Word],
    cfg: &mut C,
    inputs: &mut [I],
    plant: &mut P,
    report: &mut R,
) -> Outcome
    requires { length inputs.old ≡ input_count (paths_for words.now) }

    // Words that are no command are refused, and all but the report stays as it was.
    ensures words { command_for words.now ≡ None → IsReported
        (sink_use ⟦<R as Sink>⟧ report.old report.new) result.status (IsNoCommand result.drops.0) }
    ensures untouched { command_for words.now ≡ None →
        (cfg.new ≡ cfg.old) × (inputs.new ≡ inputs.old) × (plant.new ≡ plant.old) }

    // A run does what the plain translator does with the default configuration: so much of it as it came to.
    ensures run { command_for words.now ≡ Some Run → IsReported
        (sink_use ⟦<R as Sink>⟧ report.old report.new) result.status
        (RanAs defaults (source_use ⟦<C as Source>⟧ cfg.old cfg.new)
        (first_use ⟦<I as Source>⟧ inputs.old inputs.new)
        (plant_use ⟦<P as Plant>⟧ plant.old plant.new) result.drops.0) }

    // Making a log makes an empty one, in a file without a byte.
    ensures init { command_for words.now ≡ Some Init → IsReported
        (sink_use ⟦<R as Sink>⟧ report.old report.new) result.status
        (MadeAs (plant_use ⟦<P as Plant>⟧ plant.old plant.new) result.drops.0) }

    // A query answers by what the log tells, and changes none of its bytes.
    ensures query { (command : Command) (answer : Told → List ℕ) →
        command_for words.now ≡ Some command → answer_to command ≡ Some answer → IsReported
        (sink_use ⟦<R as Sink>⟧ report.old report.new) result.status
        (AnsweredAs answer (plant_use ⟦<P as Plant>⟧ plant.old plant.new) result.drops.0) }

    // Of every command: BadWords comes of no other words, and a status other than Ok prints its one line.
    ensures reason { result.status ≡ Status.BadWords → command_for words.now ≡ None }
    ensures fault { PrintsFault (sink_use ⟦<R as Sink>⟧ report.old report.new) result.status }

    // A stop at any moment, but while a log is made, leaves what a stop at the start or while rows are closed might have left, with
    // nothing sent, or a log that tells what the records came to whose packets were sent until then.
    ensures stops { I.tells → P.tells → command_for words.now ≢ Some Init → StopsLeave
        (P.story plant.old) (P.story plant.new)
        (LeavesLog defaults (at_first [] I.rest inputs.old) (P.story plant.old)) }

    // So the log that a stop leaves at any moment can be believed, where each that a stop at the start might have left could be: it
    // names for each packet that left whole the one subscriber whose it was, and still names whom it named.
    ensures answers { (was : Told) → I.tells → P.tells →
        Tells (content (P.story plant.old)) was → AreBelieved (IsImage (P.story plant.old)) →
        AnswersForEachPacket (P.story plant.old) (P.story plant.new)
        (run_of defaults (recovered was) (at_first [] I.rest inputs.old)).items }
    ensures marks { result.marks ≡ [] }

    // Laws of the plain translator, from a log of closed rows that names one at most: what it tells of any first records names the
    // one subscriber of each packet that went out, and its horizon reaches the packet's moment; each mapping has a place of its own
    // in an open lease of its owner, and no two leases share a port at a moment.
    ensures names { (told : Told) (records : ℕ) → CanBegin told →
        let r = front_run defaults told records (at_first [] I.rest inputs.old) in
        NamesEachSender (told_behind told r) r.items }
    ensures valid { (told : Told) (records : ℕ) → CanBegin told →
        IsValid (front_run defaults told records (at_first [] I.rest inputs.old)).state }
{
    stops_are_answered();
    let ended = match command_of(words) {
        Some(Command::Init) => init(plant),
        Some(Command::Run) => run(alloc, cfg, &mut inputs[0], plant),
        Some(Command::Trace { addr, port, at }) => trace(alloc, plant, addr, port, at),
        Some(Command::Leases) => list(alloc, plant),
        None => Ended::early(Status::BadWords),
    };
    reported(alloc, ended, report)
}

/// Translates the records of one input of frames, with this configuration, as `run` does with the default one: onto a log
/// whose open rows it closes first, behind what the outlet has, and its answer goes to `report`.
///
/// It is for accepted configurations without a plan. `LogDamaged` comes where the log isn't sound, `LogFull` where it has no room for
/// the closings or for what a record logs, up to the configuration's limit, and `BadInput` with the offset at which no record
/// stands, after those before it were treated. `ReadFault`, `LogFault` and `OutFault` come where a read, the log, or the outlet or
/// the report failed, and `NoMemory` where memory ran out.
pub fn run_config<I: Source, P: Plant, R: Sink>(
    alloc: Global,
    config: Config,
    inputs: &mut [I],
    plant: &mut P,
    report: &mut R,
) -> Outcome
    requires accepted { is_accepted config ≡ true }
    requires plain { config.ratio ≡ 0 }
    requires one { length inputs.old ≡ 1 }

    // It does what the plain translator does: so much of it as it came to.
    ensures run { IsReported (sink_use ⟦<R as Sink>⟧ report.old report.new) result.status
        (RanAs config no_source (first_use ⟦<I as Source>⟧ inputs.old inputs.new)
        (plant_use ⟦<P as Plant>⟧ plant.old plant.new) result.drops.0) }

    // A stop at any moment leaves what a stop at the start or while rows are closed might have left, with nothing sent, or a log that
    // tells what the records came to whose packets were sent until then; so it answers for each packet, as of `aftr`.
    ensures stops { I.tells → P.tells → StopsLeave (P.story plant.old) (P.story plant.new)
        (LeavesLog config (at_first [] I.rest inputs.old) (P.story plant.old)) }
    ensures answers { (was : Told) → I.tells → P.tells →
        Tells (content (P.story plant.old)) was → AreBelieved (IsImage (P.story plant.old)) →
        AnswersForEachPacket (P.story plant.old) (P.story plant.new)
        (run_of config (recovered was) (at_first [] I.rest inputs.old)).items }
    ensures marks { result.marks ≡ [] }

    // Laws of the plain translator, as of `aftr`.
    ensures names { (told : Told) (records : ℕ) → CanBegin told →
        let r = front_run config told records (at_first [] I.rest inputs.old) in
        NamesEachSender (told_behind told r) r.items }
    ensures valid { (told : Told) (records : ℕ) → CanBegin told →
        IsValid (front_run config told records (at_first [] I.rest inputs.old)).state }
{
    stops_are_answered();
    let ended = translate(alloc, config, &mut inputs[0], plant);
    reported(alloc, ended, report)
}

// What a run's stops leave answers for each packet that left whole.
fn stops_are_answered()
    ensures { EachStopIsAnswered }
{
    closings_keep_names();
}

/// What a command that ends well answers.
#[derive(Debug, Drop)]
pub enum Answer {
    /// Nothing is printed.
    Nothing,
    /// A run's counts.
    Summary,
    /// Whom the log names.
    Name(Named),
    /// All that the log tells.
    Listed(Listing),
}

/// How a command ended, before it is reported.
#[derive(Debug, Drop)]
pub struct Ended {
    pub status: Status,
    pub tally: Tally,
    pub answer: Answer,
}

impl Ended {
    // An end before a record was treated, of whatever command.
    fn early(status: Status) -> Self
        ensures status { result.status ≡ status }
        ensures drops { result.tally.drops.0 ≡ drop_counts [] }
    {
        Ended {
            status,
            tally: Tally::new(),
            answer: Answer::Summary,
        }
    }
}

// The answer of a query that ended well.
fn answered(answer: Answer) -> Ended
    ensures status { result.status ≡ Status.Ok }
    ensures answer { result.answer ≡ answer }
    ensures drops { result.tally.drops.0 ≡ drop_counts [] }
{
    Ended {
        status: Status::Ok,
        tally: Tally::new(),
        answer,
    }
}

// Makes an empty log.
fn init<P: Plant>(plant: &mut P) -> Ended
    ensures { MadeAs (plant_use ⟦<P as Plant>⟧ plant.old plant.new) result.tally.drops.0
        result.status (text_of result.tally result.answer result.status) }
{
    match make(plant) {
        Ok(()) => answered(Answer::Nothing),
        Err(MakeBad::AlreadyThere(size)) => Ended::early(Status::AlreadyThere(size)),
        Err(MakeBad::Failed) => Ended::early(Status::LogFault),
    }
}

// Who had a place at a moment, by what the log tells.
fn trace<P: Plant>(alloc: Global, plant: &mut P, addr: Ip4, port: u16, at: Moment) -> Ended
    ensures answered { AnsweredAs (λ (told : Told). trace_line (name_of told addr port at.0))
        (plant_use ⟦<P as Plant>⟧ plant.old plant.new) result.tally.drops.0
        result.status (text_of result.tally result.answer result.status) }
    ensures stops { P.tells → StopsLeave (P.story plant.old) (P.story plant.new)
        (AttachLeaves (P.story plant.old)) }
{
    match told_log(alloc, plant) {
        Ok(told) => answered(Answer::Name(name(&told, addr, port, at))),
        Err(status) => Ended::early(status),
    }
}

// All that the log tells.
fn list<P: Plant>(alloc: Global, plant: &mut P) -> Ended
    ensures answered { AnsweredAs (λ (told : Told). told_text told)
        (plant_use ⟦<P as Plant>⟧ plant.old plant.new) result.tally.drops.0
        result.status (text_of result.tally result.answer result.status) }
    ensures stops { P.tells → StopsLeave (P.story plant.old) (P.story plant.new)
        (AttachLeaves (P.story plant.old)) }
{
    match told_log(alloc, plant) {
        Ok(told) => listed(alloc, told),
        Err(status) => Ended::early(status),
    }
}

// The answer that lists what a log tells.
fn listed(alloc: Global, told: Told) -> Ended
    ensures listed { IsListed told result }
    ensures drops { result.tally.drops.0 ≡ drop_counts [] }
{
    match Listing::new(alloc, told) {
        Ok(listing) => answered(Answer::Listed(listing)),
        Err(NoMemory) => Ended::early(Status::NoMemory),
    }
}

// Reads what the log tells, or says how a query ends without it.
fn told_log<P: Plant>(alloc: Global, plant: &mut P) -> Result<Told, Status>
    ensures tells { P.tells → IfOk result (Tells (content (P.story plant.old))) }
    ensures refused { IfErr result (λ status. status ≢ Status.Ok) }
    ensures reason { IfErr result (AnswersFor (plant_use ⟦<P as Plant>⟧ plant.old plant.new)) }
    ensures same { P.tells → IsKept (plant_use ⟦<P as Plant>⟧ plant.old plant.new) }
    ensures stops { P.tells → StopsLeave (P.story plant.old) (P.story plant.new)
        (AttachLeaves (P.story plant.old)) }
{
    match read_told(alloc, plant) {
        Ok((told, _)) => Ok(told),
        Err(ToldBad::Damaged(offset)) => Err(Status::LogDamaged(offset)),
        Err(ToldBad::Failed) => Err(Status::LogFault),
        Err(ToldBad::NoMemory) => Err(Status::NoMemory),
    }
}

// The configuration, which must have no bytes, and then the log and the records.
fn run<C: Source, I: Source, P: Plant>(
    alloc: Global,
    cfg: &mut C,
    input: &mut I,
    plant: &mut P,
) -> Ended
    ensures ran { RanAs defaults (source_use ⟦<C as Source>⟧ cfg.old cfg.new)
        (source_use ⟦<I as Source>⟧ input.old input.new)
        (plant_use ⟦<P as Plant>⟧ plant.old plant.new) result.tally.drops.0
        result.status (text_of result.tally result.answer result.status) }
    ensures stops { I.tells → P.tells → StopsLeave (P.story plant.old) (P.story plant.new)
        (LeavesLog defaults (I.rest input.old) (P.story plant.old)) }
{
    match read_config(alloc, cfg) {
        Ok(config) => translate(alloc, config, input, plant),
        Err(status) => Ended::early(status),
    }
}

// The log, with its open rows closed, and then the records.
fn translate<I: Source, P: Plant>(
    alloc: Global,
    config: Config,
    input: &mut I,
    plant: &mut P,
) -> Ended
    requires accepted { is_accepted config ≡ true }
    ensures ran { RanAs config no_source (source_use ⟦<I as Source>⟧ input.old input.new)
        (plant_use ⟦<P as Plant>⟧ plant.old plant.new) result.tally.drops.0
        result.status (text_of result.tally result.answer result.status) }
    ensures stops { I.tells → P.tells → StopsLeave (P.story plant.old) (P.story plant.new)
        (LeavesLog config (I.rest input.old) (P.story plant.old)) }
{
    let Ready { told, journal, .. } = match ready_log(alloc, plant, config.log_limit) {
        Ok(ready) => ready,
        Err(status) => return Ended::early(status),
    };
    match Session::new(alloc, config, &told, journal) {
        Ok(mut session) => {
            let status = session.run(alloc, input, plant);
            Ended {
                status,
                tally: session.tally(),
                answer: Answer::Summary,
            }
        }
        Err(NoMemory) => Ended::early(Status::NoMemory),
    }
}

// A configuration must have no bytes: each key then has its default.
fn read_config<C: Source>(alloc: Global, cfg: &mut C) -> Result<Config, Status>
    ensures same { IfOk result (λ config. config ≡ defaults) }
    ensures accepted { IfOk result (λ config. is_accepted config ≡ true) }
    ensures empty { C.tells → OnOk result (C.rest cfg.old ≡ []) }
    ensures refused { IfErr result (RefusesConfig (source_use ⟦<C as Source>⟧ cfg.old cfg.new)) }
{
    let mut byte = [0u8; 1];
    match cfg.read(&mut byte) {
        Ok(0) => default_config(alloc),
        Ok(_) => Err(bad_text(alloc)),
        Err(Failed) => Err(Status::ReadFault),
    }
}

// What a configuration of no keys says.
fn default_config(alloc: Global) -> Result<Config, Status>
    ensures same { IfOk result (λ config. config ≡ defaults) }
    ensures accepted { IfOk result (λ config. is_accepted config ≡ true) }
    ensures refused { IfErr result (λ status. status ≡ Status.NoMemory) }
{
    match Config::defaults(alloc) {
        Ok(config) => Ok(config),
        Err(NoMemory) => Err(Status::NoMemory),
    }
}

// The refusal of a whole text.
fn bad_text(alloc: Global) -> Status
    ensures { IsBadText result }
{
    match String::from_str(alloc, "text") {
        Ok(text) => Status::BadConfig(Key::from_string(text)),
        Err(_) => Status::NoMemory,
    }
}

// The log with every row that was open closed, or how a run ends without it.
fn ready_log<P: Plant>(alloc: Global, plant: &mut P, limit: u64) -> Result<Ready, Status>
    ensures ready { IfOk result IsReady }
    ensures recovered { P.tells → IfOk result
        (HasRecovered limit (content (P.story plant.old)) (content (P.story plant.new))) }
    ensures settled { P.tells → OnOk result (IsSettled (P.story plant.new)) }
    ensures refused { IfErr result
        (RefusesLog limit (plant_use ⟦<P as Plant>⟧ plant.old plant.new)) }
    ensures rows { P.tells → IfErr result (LeavesRows (plant_use ⟦<P as Plant>⟧ plant.old plant.new)) }
    ensures room { P.tells → IfErr result (λ status. status ≢ Status.LogFault →
        KeepsRoom limit (content (P.story plant.old)) (content (P.story plant.new))) }
    ensures unsent { P.tells → sent (P.story plant.new) ≡ sent (P.story plant.old) }
    ensures stops { P.tells → StopsLeave (P.story plant.old) (P.story plant.new)
        (RecoverLeaves (P.story plant.old)) }
    ensures later { P.disk_faults plant.old ≤ P.disk_faults plant.new }
    ensures outlet { P.out_faults plant.new ≡ P.out_faults plant.old }
{
    match recover(alloc, plant, limit) {
        Ok(ready) => Ok(ready),
        Err(RecoverBad::Damaged(offset)) => Err(Status::LogDamaged(offset)),
        Err(RecoverBad::Full { tail, need, limit }) => Err(Status::LogFull { tail, need, limit }),
        Err(RecoverBad::Failed) => Err(Status::LogFault),
        Err(RecoverBad::NoMemory) => Err(Status::NoMemory),
    }
}

// Prints how a command ended, and makes of it what the call answers. A report that fails is an `OutFault`.
fn reported<R: Sink>(alloc: Global, ended: Ended, report: &mut R) -> Outcome
    ensures printed { IsPrinted (sink_use ⟦<R as Sink>⟧ report.old report.new) ended.status
        result.status (text_of ended.tally ended.answer ended.status) }
    ensures drops { result.drops ≡ ended.tally.drops }
    ensures marks { result.marks ≡ [] }
{
    let printed = print(report, &ended);
    let Ended { status, tally, .. } = ended;
    let marks = List::new(alloc);
    let drops = tally.drops;
    match printed {
        Ok(()) => Outcome {
            status,
            marks,
            drops,
        },
        Err(Failed) => Outcome {
            status: Status::OutFault,
            marks,
            drops,
        },
    }
}

// Prints the answer of a command that ended well, or the line of its fault; an outlet that failed is not reported.
fn print<R: Sink>(report: &mut R, ended: &Ended) -> Result<(), Failed>
    ensures { Writes (text_of ended.now.tally ended.now.answer ended.now.status)
        (sink_use ⟦<R as Sink>⟧ report.old report.new) result }
{
    match &ended.status {
        Status::Ok => print_answer(report, ended),
        Status::OutFault => Ok(()),
        fault => write_fault(report, fault),
    }
}

// Prints the answer of a command that ended well.
fn print_answer<R: Sink>(report: &mut R, ended: &Ended) -> Result<(), Failed>
    ensures { Writes (answer_text ended.now.tally ended.now.answer)
        (sink_use ⟦<R as Sink>⟧ report.old report.new) result }
{
    match &ended.answer {
        Answer::Nothing => Ok(()),
        Answer::Summary => write_summary(report, &ended.tally),
        Answer::Name(name) => write_trace(report, *name),
        Answer::Listed(listing) => write_told(report, listing),
    }
}
