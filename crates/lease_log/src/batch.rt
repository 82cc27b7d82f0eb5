//! The events of one message, which are put together and appended to the log.
ghost use Rattle.std.specs.Prelude.{◌≡◌, ◌≤◌, ◌<◌, ◌+◌, ◌^◌, ◌++◌, [], ◌∷◌, length, vec_len, vec_capacity, ◌↔◌, IsTrue, IfOk, OnOk, OnErr, ℕ};
ghost use Rattle.plant_io.specs.Causes.{Rose};
ghost use Rattle.plant_io.specs.Story.{content, IsSettled};
ghost use Rattle.plant_io.specs.Stops.{StopsLeave};
ghost use Rattle.aftr_base.specs.Limits.{log_moment_limit};
ghost use Rattle.aftr_base.specs.declared.event.LogEvent.TheVariants.{Block, Horizon, Plan};
ghost use Rattle.disk_journal.specs.Commit.{IsFullAt, OnDone, OnFull};
ghost use Rattle.disk_journal.specs.Frames.{body_of};
ghost use Rattle.disk_journal.specs.Standing.{after_commit};
ghost use Rattle.ipfix_writer.specs.Grammar.{head_bytes, message_bytes, message_len, set_bytes, sets_bytes};
ghost use Rattle.nat_events.specs.Grammar.{FitsRecord};
ghost use Rattle.lease_log.specs.Answers.{IsAtTail};
ghost use Rattle.lease_log.specs.Batch.{batch_body, empty_batch, with_event, AppendLeaves, CanAdd, CanAppend, HasAppended};
ghost use Rattle.lease_log.specs.Prepared.{head_at, message_with, room_for, set_of_records, size_of, with_record};
ghost use Rattle.lease_log.specs.Sound.{HasSoundPlan};

use aftr_base::{LeaseRow, List, LogEvent, Moment, NoMemory, PlanSpec};
use byteorder::{BigEndian, ByteOrder};
use disk_journal::{Commit, Journal};
use nat_events::{BLOCK_SET, HORIZON_SET, PLAN_SET, messages_read_back, put_event, template_set};
use plant_io::Plant;
use std::alloc::Global;
use std::marker::Model;

/// How many bytes the frame of a message has beside the records, at most: the lengths, the gate, the headers and the
/// template set.
const ROOM: usize = 101;
/// How many bytes of a message stand before the sets of records: the header and the template set.
const FRONT: usize = 84;
/// How many bytes the header of a set has.
const SET_HEADER: usize = 4;

/// The events of one message that is put together, and the room that its frame needs. Contracts see the message's moment,
/// how many records the log has before it, and the events in the order in which they were added.
#[derive(Debug, Drop)]
pub struct LogBatch {
    at: Moment,
    count: u64,
    events: Vec<LogEvent>,
    sets: Sets,
    body: Vec<u8>,
}

/// The records of each set of the message.
#[derive(Debug, Drop)]
struct Sets {
    horizon: List<u8>,
    plan: List<u8>,
    blocks: List<u8>,
}

impl Model for LogBatch {
    ghost use Rattle.lease_log.specs.Batch.{Batch};
    ghost use Rattle.lease_log.specs.Prepared.{IsPrepared};

    ghost Value = { Batch };

    ghost view = { λ b. record { at = b.at.0; count = b.count; events = b.events.items } };

    ghost invariant = { λ b. IsPrepared b.at.0 b.events.items b.sets b.body };
}

impl LogBatch {
    /// A batch without events, of a message with this moment behind so many records. The moment's seconds fit 32 bits.
    pub fn new(alloc: Global, at: Moment, count: u64) -> Result<LogBatch, NoMemory>
        requires { at.0 ≤ log_moment_limit }
        ensures { IfOk result (λ batch. batch ≡ empty_batch at.0 count) }
    {
        let body = Vec::with_capacity(alloc, ROOM)?;
        Ok(LogBatch {
            at,
            count,
            events: Vec::new(alloc),
            sets: Sets::new(alloc),
            body,
        })
    }

    /// Begins another batch without events in the room of this one. It takes no memory.
    pub fn restart(&mut self, at: Moment, count: u64)
        requires { at.0 ≤ log_moment_limit }
        ensures { self.new ≡ empty_batch at.0 count }
    {
        self.at = at;
        self.count = count;
        self.events.clear();
        self.sets.clear();
    }

    /// Adds an event behind the others, and takes all the room that the frame needs with it. A batch has at most 1,280
    /// events of blocks, one horizon and one plan. `NoMemory` changes nothing.
    pub fn add(&mut self, event: &LogEvent) -> Result<(), NoMemory>
        requires { CanAdd self.old event.now }
        ensures ok { OnOk result (self.new ≡ with_event event.now self.old) }
        ensures err { OnErr result (self.new ≡ self.old) }
    {
        let alloc = *self.body.allocator();
        let copy = copy_of(alloc, event)?;
        let mut record = List::new(alloc);
        put_event(event, &mut record)?;
        make_room(&mut self.body, ROOM + self.sets.len() + record.len())?;
        self.events.reserve(1)?;
        self.sets.put(event, record.as_slice())?;
        put_last(&mut self.events, copy);
        Ok(())
    }

    /// How many events there are.
    pub fn len(&self) -> usize
        ensures { result ≡ length self.now.events }
    {
        self.events.len()
    }

    /// Whether there is no event.
    pub fn is_empty(&self) -> bool
        ensures { IsTrue result ↔ (self.now.events ≡ []) }
    {
        self.events.is_empty()
    }

    /// What a commit writes behind the closed gate at the log's end: the message's length in 32 bits, the message with the
    /// events in the order of its sets (RFC 7011 section 3), and a closed gate. It takes no memory.
    pub fn body(&mut self) -> &[u8]
        ensures { result.now ≡ batch_body self.old }
    {
        write_body(&mut self.body, self.at, self.count, &self.sets);
        self.body.as_slice()
    }
}

impl Sets {
    // Sets without records, which take no memory.
    fn new(alloc: Global) -> Self
        ensures { size_of result ≡ 0 }
    {
        Sets {
            horizon: List::new(alloc),
            plan: List::new(alloc),
            blocks: List::new(alloc),
        }
    }

    // Lets the records go and keeps their room.
    fn clear(&mut self)
        ensures { size_of self.new ≡ 0 }
    {
        self.horizon.clear();
        self.plan.clear();
        self.blocks.clear();
    }

    // How many bytes of records there are.
    fn len(&self) -> usize
        requires { size_of self.now < 2 ^ 16 }
        ensures { result ≡ size_of self.now }
    {
        self.horizon.len() + self.plan.len() + self.blocks.len()
    }

    // Puts an event's record behind those of its set. `NoMemory` changes nothing.
    fn put(&mut self, event: &LogEvent, record_: &[u8]) -> Result<(), NoMemory>
        ensures ok { OnOk result (self.new ≡ with_record event.now record_.now self.old) }
        ensures err { OnErr result (self.new ≡ self.old) }
    {
        match event {
            LogEvent::Block { .. } => self.blocks.extend_from_slice(record_),
            LogEvent::Horizon { .. } => self.horizon.extend_from_slice(record_),
            LogEvent::Plan { .. } => self.plan.extend_from_slice(record_),
        }
    }
}

// The same event again.
fn copy_of(alloc: Global, event: &LogEvent) -> Result<LogEvent, NoMemory>
    ensures same { IfOk result (λ copy. copy ≡ event.now) }
    ensures fits { IfOk result (λ copy. HasSoundPlan copy → FitsRecord copy) }
{
    match event {
        LogEvent::Block {
            opens,
            owner,
            addr,
            first,
            last,
            at,
        } => Ok(block_event(
            *opens,
            LeaseRow {
                owner: *owner,
                addr: *addr,
                first: *first,
                last: *last,
                since: *at,
                until: None,
            },
        )),
        LogEvent::Horizon { at, reach } => Ok(horizon_event(*at, *reach)),
        LogEvent::Plan { at, spec: None } => Ok(plan_event(*at, None)),
        LogEvent::Plan {
            at,
            spec: Some(spec),
        } => Ok(plan_event(*at, Some(spec.copied(alloc)?))),
    }
}

// The event of a block that opens or closes, written as a lease since the event's moment.
fn block_event(opens: bool, block: LeaseRow) -> LogEvent
    ensures event { result
        ≡ Block opens block.owner block.addr block.first block.last block.since }
    ensures fits { FitsRecord result }
{
    LogEvent::Block {
        opens,
        owner: block.owner,
        addr: block.addr,
        first: block.first,
        last: block.last,
        at: block.since,
    }
}

// The event of a horizon.
fn horizon_event(at: Moment, reach: Moment) -> LogEvent
    ensures event { result ≡ Horizon at reach }
    ensures fits { FitsRecord result }
{
    LogEvent::Horizon { at, reach }
}

// The event of a plan that opens or closes.
fn plan_event(at: Moment, spec: Option<PlanSpec>) -> LogEvent
    ensures event { result ≡ Plan at spec }
    ensures fits { HasSoundPlan result → FitsRecord result }
{
    LogEvent::Plan {
        at: Moment(at.0),
        spec,
    }
}

// ---- the body

// Makes room for so many bytes.
fn make_room(body: &mut Vec<u8>, room: usize) -> Result<(), NoMemory>
    ensures ok { OnOk result (room ≤ vec_capacity body.new) }
    ensures kept { vec_capacity body.old ≤ vec_capacity body.new }
{
    body.clear();
    body.reserve(room)?;
    Ok(())
}

// Puts an event behind the others, for which there is room.
fn put_last(events: &mut Vec<LogEvent>, event: LogEvent)
    requires { vec_len events.old < vec_capacity events.old }
    ensures { events.new.items ≡ events.old.items ++ event ∷ [] }
{
    match events.push(event) {
        Ok(()) => {}
        Err(_) => unreachable!(),
    }
}

// Writes the body of a frame, for which there is room: the length of the message, the message and a closed gate.
fn write_body(body: &mut Vec<u8>, at: Moment, count: u64, sets: &Sets)
    requires in_time { at.0 ≤ log_moment_limit }
    requires short { room_for (size_of sets.now) < 2 ^ 16 }
    requires room { room_for (size_of sets.now) ≤ vec_capacity body.old }
    ensures bytes { body.new.items ≡ body_of (message_bytes (message_with at.0 count sets.now)) }
    ensures kept { vec_capacity body.old ≤ vec_capacity body.new }
{
    let horizon = sets.horizon.as_slice();
    let plan = sets.plan.as_slice();
    let blocks = sets.blocks.as_slice();
    let len = FRONT + set_len(horizon) + set_len(plan) + set_len(blocks);
    body.clear();
    write(body, &(len as u32).to_be_bytes());
    write(body, &header(len as u16, at, count));
    write(body, &template_set());
    write_set(body, HORIZON_SET, horizon);
    write_set(body, PLAN_SET, plan);
    write_set(body, BLOCK_SET, blocks);
    write(body, &[0]);
}

// How many bytes the set of these records has, where there are any.
fn set_len(records: &[u8]) -> usize
    requires { length records.now < 2 ^ 16 }
    ensures value { (id : ℕ) → result ≡ length (sets_bytes (set_of_records id records.now)) }
    ensures most { result ≤ 4 + length records.now }
{
    if records.is_empty() {
        0
    } else {
        SET_HEADER + records.len()
    }
}

// The header of a message of this length (RFC 7011 section 3.1).
#[tactic(auto, unfolding(aftr_base::specs::Bytes::be16, aftr_base::specs::Bytes::be32))]
fn header(len: u16, at: Moment, count: u64) -> [u8; 16]
    requires { at.0 ≤ log_moment_limit }
    ensures { result ≡ head_bytes len (head_at at.0 count) }
{
    let mut bytes = [0u8; 16];
    BigEndian::write_u16(&mut bytes, 10);
    BigEndian::write_u16(&mut bytes[2..], len);
    BigEndian::write_u32(&mut bytes[4..], (at.0 / 1000) as u32);
    BigEndian::write_u32(&mut bytes[8..], (count % (1 << 32)) as u32);
    BigEndian::write_u32(&mut bytes[12..], 1);
    bytes
}

// Writes the set of these records, where there are any.
#[tactic(auto, unfolding(aftr_base::specs::Bytes::be16))]
fn write_set(body: &mut Vec<u8>, id: u16, records: &[u8])
    requires short { 4 + length records.now < 2 ^ 16 }
    requires room { vec_len body.old + (4 + length records.now) ≤ vec_capacity body.old }
    ensures bytes { body.new.items ≡ body.old.items ++ sets_bytes (set_of_records id records.now) }
    ensures most { vec_len body.new ≤ vec_len body.old + (4 + length records.now) }
    ensures kept { vec_capacity body.old ≤ vec_capacity body.new }
{
    if records.is_empty() {
        return;
    }
    write(body, &id.to_be_bytes());
    write(body, &((SET_HEADER + records.len()) as u16).to_be_bytes());
    write(body, records);
}

// Writes these bytes behind the others, for which there is room.
fn write(body: &mut Vec<u8>, bytes: &[u8])
    requires { vec_len body.old + length bytes.now ≤ vec_capacity body.old }
    ensures bytes { body.new.items ≡ body.old.items ++ bytes.now }
    ensures len { vec_len body.new ≡ vec_len body.old + length bytes.now }
    ensures kept { vec_capacity body.old ≤ vec_capacity body.new }
{
    match body.extend_from_slice(bytes) {
        Ok(()) => {}
        Err(_) => unreachable!(),
    }
}

// ---- appending

/// Appends the batch's message to the log, as a commit of its body: the file may grow to `limit` bytes. The batch's events
/// follow what the log tells, and its count is how many records that has.
///
/// After `Done` the log tells the events too, and every stop from then on leaves it so; after `Full`, which comes exactly
/// where the tail and the body are together over the limit, nothing was written; after `Failed`, which comes only where the
/// plant's count of disk faults rose, the journal is suspect and only dropped. A stop meanwhile leaves a log that tells what
/// was told before, or the events too. It takes no memory, and the batch stays as it is.
pub fn append<P: Plant>(
    journal: &mut Journal,
    plant: &mut P,
    limit: u64,
    batch: &mut LogBatch,
) -> Commit
    requires journal { IsAtTail journal.old }
    requires follows { P.tells → CanAppend (content (P.story plant.old)) (journal.old.at + 1) batch.old }
    requires settled { P.tells → IsSettled (P.story plant.old) }
    ensures done { P.tells → OnDone result
        (HasAppended (P.story plant.old) (P.story plant.new) batch.old) }
    ensures stops { P.tells → StopsLeave (P.story plant.old) (P.story plant.new)
        (AppendLeaves (P.story plant.old) batch.old) }
    ensures full { IsFullAt (journal.old.at + 1) (length (batch_body batch.old)) limit result }
    ensures unwritten { P.tells → OnFull result (P.story plant.new ≡ P.story plant.old) }
    ensures standing { journal.new ≡ after_commit result (batch_body batch.old) journal.old }
    ensures batch { batch.new ≡ batch.old }
    ensures failed { result ≡ Commit.Failed → Rose (P.disk_faults plant.old) (P.disk_faults plant.new) }
    ensures disk_count { P.disk_faults plant.old ≤ P.disk_faults plant.new }
    ensures outlet { P.out_faults plant.new ≡ P.out_faults plant.old }
{
    messages_read_back();
    write_body(&mut batch.body, batch.at, batch.count, &batch.sets);
    journal.commit(plant, limit, batch.body.as_slice())
}
