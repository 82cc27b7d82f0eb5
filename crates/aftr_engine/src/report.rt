//! The printed report: the counts of a run that ended well, the answer of a trace, the rows of a log, or the line of a
//! fault. It takes no memory.
ghost use Rattle.std.specs.Prelude.{◌≡◌, ◌≤◌, ◌+◌, ◌*◌, ◌<◌, ◌%◌, ◌++◌, ◌∷◌, [], length, map, decimal, codes, IfOk, OnOk};
ghost use Rattle.plant_io.specs.Uses.{Writes, sink_use};
ghost use Rattle.aftr_engine.specs.report.Lines.{line, drop_line, drop_lines, summary, fault_line, ip4_text, hex_digit, group, groups};
ghost use Rattle.aftr_engine.specs.report.Lines.{prefix_text, trace_line, until_text, lease_line, lease_lines, plan_line, plan_lines};
ghost use Rattle.aftr_engine.specs.report.Lines.{horizon_line, told_text};

use aftr_base::{
    DropCause, Ip4, Key, LeaseRow, List, Moment, NoMemory, PlanRow, Status, Subscriber, Told,
};
use arrayvec::ArrayString;
use egress_gate::Tally;
use itoa::Buffer;
use nat_events::plan_text;
use plant_io::{Failed, Sink};
use std::alloc::Global;
use trace_query::Named;

/// Lines in the making. The longest are a run's: three of up to 28 bytes, and one for each of 23 causes, of up to 44.
type Lines = ArrayString<1200>;

/// Writes what a run prints that ends well: its counts, and a line for each cause that dropped a record. It fails where
/// the report does, and then a first part of the text stands there.
pub fn write_summary<R: Sink>(report: &mut R, tally: &Tally) -> Result<(), Failed>
    ensures { Writes (summary tally.now.records tally.now.sent tally.now.drops.0)
        (sink_use ⟦<R as Sink>⟧ report.old report.new) result }
{
    let lines = summary(tally);
    write_text(report, lines.as_str())
}

/// Writes the line of a status that is a fault: its name, and its numbers or its key. It fails where the report does,
/// and then a first part of the line stands there.
pub fn write_fault<R: Sink>(report: &mut R, status: &Status) -> Result<(), Failed>
    ensures { Writes (fault_line status.now) (sink_use ⟦<R as Sink>⟧ report.old report.new) result }
{
    match status {
        Status::Ok => write_text(report, "fault\n"),
        Status::BadWords => write_line(report, "BadWords", &[]),
        Status::BadConfig(key) => write_key_fault(report, key),
        Status::BadInput { input, offset } => {
            write_line(report, "BadInput", &[u64::from(*input), *offset])
        }
        Status::ReadFault => write_line(report, "ReadFault", &[]),
        Status::LogFault => write_line(report, "LogFault", &[]),
        Status::OutFault => write_line(report, "OutFault", &[]),
        Status::LogDamaged(offset) => write_line(report, "LogDamaged", &[*offset]),
        Status::LogFull { tail, need, limit } => {
            write_line(report, "LogFull", &[*tail, *need, *limit])
        }
        Status::AlreadyThere(size) => write_line(report, "AlreadyThere", &[*size]),
        Status::NoMemory => write_line(report, "NoMemory", &[]),
    }
}

/// Writes the answer of a trace: who had the place, that nobody had it, or how far the log promises names. It fails where the
/// report does, and then a first part of the line stands there.
pub fn write_trace<R: Sink>(report: &mut R, name: Named) -> Result<(), Failed>
    ensures { Writes (trace_line name) (sink_use ⟦<R as Sink>⟧ report.old report.new) result }
{
    let line = trace_line(name);
    write_text(report, line.as_str())
}

/// What a log tells, with the lines of its plans, which are made before a line is written: a plan's text can have any length.
#[derive(Debug, Drop)]
pub struct Listing {
    pub told: Told,
    pub plans: List<u8>,
    ghost made: { plans ≡ plan_lines told.plans },
}

impl Listing {
    /// The listing of what a log tells.
    pub fn new(alloc: Global, told: Told) -> Result<Self, NoMemory>
        ensures { IfOk result (λ listing. listing.told ≡ told) }
    {
        let plans = plan_lines(alloc, told.plans.as_slice())?;
        Ok(Listing { told, plans })
    }
}

/// Writes what a log tells: a line for each lease, the lines of its plans, and that of its horizon. It fails where the report
/// does, and then a first part of the text stands there.
pub fn write_told<R: Sink>(report: &mut R, listing: &Listing) -> Result<(), Failed>
    ensures { Writes (told_text listing.now.told)
        (sink_use ⟦<R as Sink>⟧ report.old report.new) result }
{
    write_leases(report, listing.told.leases.as_slice())?;
    write_lines(report, listing.plans.as_slice())?;
    write_horizon(report, listing.told.horizon)
}

/// The lines of plans.
fn plan_lines(alloc: Global, plans: &[PlanRow]) -> Result<List<u8>, NoMemory>
    ensures { IfOk result (λ lines. lines ≡ plan_lines plans.now) }
{
    let mut lines = List::new(alloc);
    for plan in plans {
        push_plan(&mut lines, plan)?;
    }
    Ok(lines)
}

/// Appends the line of a plan.
fn push_plan(lines: &mut List<u8>, plan: &PlanRow) -> Result<(), NoMemory>
    ensures { OnOk result (lines.new ≡ lines.old ++ plan_line plan.now) }
{
    let head = plan_head(plan);
    lines.extend_from_slice(head.as_bytes())?;
    plan_text(&plan.spec, lines)?;
    lines.push(b'\n')
}

/// The line of a plan up to its text.
fn plan_head(plan: &PlanRow) -> Lines
    ensures { result.bytes ≡ codes "plan " ++ decimal plan.now.since.0 ++ 32
        ∷ (until_text plan.now.until ++ 32 ∷ []) }
{
    let mut head = Lines::new();
    head.push_str("plan");
    push_number(&mut head, plan.since.0);
    push_until(&mut head, plan.until);
    head.push(' ');
    head
}

/// Writes the line of the horizon.
fn write_horizon<R: Sink>(report: &mut R, horizon: Moment) -> Result<(), Failed>
    ensures { Writes (horizon_line horizon.0) (sink_use ⟦<R as Sink>⟧ report.old report.new) result }
{
    let mut line = Lines::new();
    push_count(&mut line, "horizon", horizon.0);
    write_text(report, line.as_str())
}

/// Writes a line for each of these leases.
fn write_leases<R: Sink>(report: &mut R, leases: &[LeaseRow]) -> Result<(), Failed>
    ensures { Writes (lease_lines leases.now)
        (sink_use ⟦<R as Sink>⟧ report.old report.new) result }
{
    for lease in leases {
        write_lease(report, *lease)?;
    }
    Ok(())
}

/// Writes the line of a lease.
fn write_lease<R: Sink>(report: &mut R, lease: LeaseRow) -> Result<(), Failed>
    ensures { Writes (lease_line lease) (sink_use ⟦<R as Sink>⟧ report.old report.new) result }
{
    let line = lease_line(lease);
    write_text(report, line.as_str())
}

/// Writes the line of a refused key. A key can have any length, so the line goes in pieces.
fn write_key_fault<R: Sink>(report: &mut R, key: &Key) -> Result<(), Failed>
    ensures { Writes (line (codes "fault" ∷ codes "BadConfig" ∷ key.now ∷ []))
        (sink_use ⟦<R as Sink>⟧ report.old report.new) result }
{
    write_text(report, "fault BadConfig ")?;
    write_text(report, key.as_str())?;
    write_text(report, "\n")
}

/// Writes the line of a fault of this name with up to three numbers.
fn write_line<R: Sink>(report: &mut R, name: &str, numbers: &[u64]) -> Result<(), Failed>
    requires name { length name.now ≤ 17 }
    requires numbers { length numbers.now ≤ 3 }
    ensures { Writes (line (codes "fault" ∷ name.now ∷ map decimal numbers.now))
        (sink_use ⟦<R as Sink>⟧ report.old report.new) result }
{
    let line = line_of("fault", name, numbers);
    write_text(report, line.as_str())
}

/// Writes lines that were made before.
fn write_lines<R: Sink>(report: &mut R, lines: &[u8]) -> Result<(), Failed>
    ensures { Writes lines.now (sink_use ⟦<R as Sink>⟧ report.old report.new) result }
{
    report.write(lines)
}

/// Writes a text.
fn write_text<R: Sink>(report: &mut R, text: &str) -> Result<(), Failed>
    ensures { Writes text.now (sink_use ⟦<R as Sink>⟧ report.old report.new) result }
{
    report.write(text.as_bytes())
}

/// The lines of a run's counts.
fn summary(tally: &Tally) -> Lines
    ensures { result.bytes ≡ summary tally.now.records tally.now.sent tally.now.drops.0 }
{
    let mut lines = Lines::new();
    push_count(&mut lines, "records", tally.records);
    push_count(&mut lines, "sent", tally.sent);
    push_count(&mut lines, "marks", 0);
    push_drops(&mut lines, &DropCause::ALL, &tally.drops.0);
    lines
}

/// Appends a line of one word and a number.
fn push_count(lines: &mut Lines, name: &str, count: u64)
    requires name { length name.now ≤ 17 }
    requires room { length lines.old.bytes ≤ 1100 }
    ensures bytes { lines.new.bytes ≡ lines.old.bytes ++ line (name.now ∷ decimal count ∷ []) }
    ensures room { length lines.new.bytes ≤ length lines.old.bytes + length name.now + 22 }
{
    lines.push_str(name);
    push_number(lines, count);
    lines.push('\n');
}

/// Appends a line for each of these causes that has a count above 0.
fn push_drops(lines: &mut Lines, causes: &[DropCause], counts: &[u64])
    requires same { length causes.now ≡ length counts.now }
    requires few { length causes.now ≤ 23 }
    requires room { length lines.old.bytes ≤ 120 }
    ensures { lines.new.bytes ≡ lines.old.bytes ++ drop_lines causes.now counts.now }
{
    for (place, cause) in causes.iter().enumerate() {
        push_drop(lines, *cause, counts[place]);
    }
}

/// Appends the line of a cause, or nothing where its count is 0.
fn push_drop(lines: &mut Lines, cause: DropCause, count: u64)
    requires room { length lines.old.bytes ≤ 1090 }
    ensures bytes { lines.new.bytes ≡ lines.old.bytes ++ drop_line cause count }
    ensures room { length lines.new.bytes ≤ length lines.old.bytes + 44 }
{
    if count == 0 {
        return;
    }
    lines.push_str("drop ");
    push_count(lines, cause.name(), count);
}

/// A line of two words and up to three numbers.
fn line_of(head: &str, name: &str, numbers: &[u64]) -> Lines
    requires head { length head.now ≤ 5 }
    requires name { length name.now ≤ 17 }
    requires numbers { length numbers.now ≤ 3 }
    ensures { result.bytes ≡ line (head.now ∷ name.now ∷ map decimal numbers.now) }
{
    let mut line = Lines::new();
    line.push_str(head);
    line.push(' ');
    line.push_str(name);
    for number in numbers {
        push_number(&mut line, *number);
    }
    line.push('\n');
    line
}

/// The line that answers a trace.
fn trace_line(name: Named) -> Lines
    ensures { result.bytes ≡ trace_line name }
{
    match name {
        Named::Subscriber(owner) => named_line(owner),
        Named::Unheld => {
            let mut line = Lines::new();
            line.push_str("unheld\n");
            line
        }
        Named::Beyond(horizon) => {
            let mut line = Lines::new();
            push_count(&mut line, "beyond", horizon.0);
            line
        }
    }
}

/// The line that names a subscriber.
fn named_line(owner: Subscriber) -> Lines
    ensures { result.bytes ≡ line (codes "named" ∷ prefix_text owner ∷ []) }
{
    let mut line = Lines::new();
    line.push_str("named ");
    push_prefix(&mut line, owner);
    line.push('\n');
    line
}

/// The line of a lease.
fn lease_line(lease: LeaseRow) -> Lines
    ensures { result.bytes ≡ lease_line lease }
{
    let mut line = Lines::new();
    line.push_str("lease ");
    push_address(&mut line, lease.addr);
    push_number(&mut line, u64::from(lease.first));
    push_number(&mut line, u64::from(lease.last));
    push_number(&mut line, lease.since.0);
    push_until(&mut line, lease.until);
    line.push(' ');
    push_prefix(&mut line, lease.owner);
    line.push('\n');
    line
}

/// Appends a space and until when a lease lasts, in milliseconds, or that it is open.
fn push_until(line: &mut Lines, until: Option<Moment>)
    requires { length line.old.bytes ≤ 1100 }
    ensures bytes { line.new.bytes ≡ line.old.bytes ++ 32 ∷ until_text until }
    ensures room { length line.new.bytes ≤ length line.old.bytes + 21 }
{
    match until {
        None => line.push_str(" open"),
        Some(moment) => push_number(line, moment.0),
    }
}

/// Appends an IPv4 address, as four decimal octets with dots between.
fn push_address(line: &mut Lines, addr: Ip4)
    requires { length line.old.bytes ≤ 1100 }
    ensures bytes { line.new.bytes ≡ line.old.bytes ++ ip4_text addr }
    ensures room { length line.new.bytes ≤ length line.old.bytes + 15 }
{
    push_octet(line, (addr.0 >> 24 & 0xff) as u8);
    line.push('.');
    push_octet(line, (addr.0 >> 16 & 0xff) as u8);
    line.push('.');
    push_octet(line, (addr.0 >> 8 & 0xff) as u8);
    line.push('.');
    push_octet(line, (addr.0 & 0xff) as u8);
}

/// Appends a number below 256 in decimal.
fn push_octet(line: &mut Lines, octet: u8)
    requires { length line.old.bytes ≤ 1150 }
    ensures bytes { line.new.bytes ≡ line.old.bytes ++ decimal octet }
    ensures room { length line.new.bytes ≤ length line.old.bytes + 3 }
{
    let mut digits = Buffer::new();
    line.push_str(digits.format(octet));
}

/// Appends a subscriber's prefix: its address as eight groups, and its length in bits (RFC 4291, section 2.3).
fn push_prefix(line: &mut Lines, owner: Subscriber)
    requires { length line.old.bytes ≤ 1100 }
    ensures bytes { line.new.bytes ≡ line.old.bytes ++ prefix_text owner }
    ensures room { length line.new.bytes ≤ length line.old.bytes + 43 }
{
    push_groups(line, owner.0.bits.0);
    line.push('/');
    push_octet(line, owner.0.len);
}

/// Appends the eight groups of an IPv6 address with colons between.
fn push_groups(line: &mut Lines, bits: u128)
    requires { length line.old.bytes ≤ 1110 }
    ensures bytes { line.new.bytes ≡ line.old.bytes ++ groups 8 bits }
    ensures room { length line.new.bytes ≡ length line.old.bytes + 39 }
{
    for place in 0..7_u32 {
        push_group(line, (bits >> (112 - 16 * place)) % 0x1_0000);
        line.push(':');
    }
    push_group(line, bits);
}

/// Appends the last four hexadecimal digits of a number.
fn push_group(line: &mut Lines, bits: u128)
    requires { length line.old.bytes ≤ 1180 }
    ensures bytes { line.new.bytes ≡ line.old.bytes ++ group bits }
    ensures room { length line.new.bytes ≡ length line.old.bytes + 4 }
{
    push_digit(line, bits / 4096);
    push_digit(line, bits / 256);
    push_digit(line, bits / 16);
    push_digit(line, bits);
}

/// Appends the last hexadecimal digit of a number.
fn push_digit(line: &mut Lines, bits: u128)
    requires { length line.old.bytes ≤ 1190 }
    ensures bytes { line.new.bytes ≡ line.old.bytes ++ hex_digit (bits % 16) ∷ [] }
    ensures room { length line.new.bytes ≡ length line.old.bytes + 1 }
{
    line.push(char::from(hex_digit((bits % 16) as u8)));
}

/// A hexadecimal digit, in lower case.
fn hex_digit(n: u8) -> u8
    requires { n < 16 }
    ensures digit { result ≡ hex_digit n }
    ensures ascii { result < 128 }
{
    if n < 10 { b'0' + n } else { b'a' - 10 + n }
}

/// Appends a space and a number to a line.
fn push_number(line: &mut Lines, number: u64)
    requires { length line.old.bytes ≤ 1150 }
    ensures bytes { line.new.bytes ≡ line.old.bytes ++ 32 ∷ decimal number }
    ensures room { length line.new.bytes ≤ length line.old.bytes + 21 }
{
    let mut digits = Buffer::new();
    line.push(' ');
    line.push_str(digits.format(number));
}
