//! Writing the template set and records (RFC 7011 3.4).
ghost use Rattle.std.specs.Prelude.{◌≡◌, ◌<◌, ◌^◌, ◌++◌, false, length, OnOk, OnErr};
ghost use Rattle.aftr_base.specs.Telling.{is_plan_event};
ghost use Rattle.aftr_base.specs.declared.event.LogEvent.TheVariants.{Block as BlockOf, Horizon as HorizonOf, Plan as PlanOf};
ghost use Rattle.nat_events.specs.Grammar.{ReadsBack};
ghost use Rattle.nat_events.specs.Spelling.{event_number, event_record, len_of_field, spec_text, template_set, text_of};

use crate::plan_writer::{plan_text, text_len};
use crate::{CLOSES, OPENS};
use aftr_base::{Ip4, List, LogEvent, Moment, NoMemory, PlanSpec, Subscriber};
use byteorder::{BigEndian, ByteOrder};

/// The set that every message begins with: the templates of the sets 256, 257 and 258 (RFC 7011 3.4.1).
#[tactic(auto, unfolding(aftr_base::specs::Bytes::be16, aftr_base::specs::Bytes::be32))]
pub fn template_set() -> [u8; 68]
    ensures { result ≡ template_set }
{
    [
        0x00, 0x02, 0x00, 0x44, 0x01, 0x00, 0x00, 0x07, 0x01, 0x43, 0x00, 0x08, 0x00, 0xe6, 0x00,
        0x01, 0x00, 0x1b, 0x00, 0x10, 0x00, 0x1d, 0x00, 0x01, 0x00, 0xe1, 0x00, 0x04, 0x01, 0x69,
        0x00, 0x02, 0x01, 0x6a, 0x00, 0x02, 0x01, 0x01, 0x00, 0x02, 0x01, 0x43, 0x00, 0x08, 0x80,
        0x01, 0x00, 0x08, 0x00, 0x00, 0x7e, 0xd9, 0x01, 0x02, 0x00, 0x02, 0x01, 0x43, 0x00, 0x08,
        0x80, 0x02, 0xff, 0xff, 0x00, 0x00, 0x7e, 0xd9,
    ]
}

/// Writes the record of one event behind what is there. The text of a plan is shorter than 65,536 bytes, as that of each
/// plan with values that a plan may have. After `NoMemory` a part of a plan's record may be written, and of another
/// event's none is.
pub fn put_event(event: &LogEvent, out: &mut List<u8>) -> Result<(), NoMemory>
    requires { length (spec_text event.now) < 2 ^ 16 }
    ensures ok { OnOk result (out.new ≡ out.old ++ event_record event.now) }
    ensures reads_back { ReadsBack event.now }
    ensures err { OnErr result (is_plan_event event.now ≡ false → out.new ≡ out.old) }
{
    match event {
        LogEvent::Block {
            opens,
            owner,
            addr,
            first,
            last,
            at,
        } => out.extend_from_slice(&block_record(&Block {
            opens: *opens,
            owner: *owner,
            addr: *addr,
            first: *first,
            last: *last,
            at: *at,
        })),
        LogEvent::Horizon { at, reach } => out.extend_from_slice(&horizon_record(*at, *reach)),
        LogEvent::Plan { at, spec } => put_plan(*at, spec, out),
    }
}

// A block that opens or closes.
#[derive(Clone, Copy)]
struct Block {
    opens: bool,
    owner: Subscriber,
    addr: Ip4,
    first: u16,
    last: u16,
    at: Moment,
}

#[tactic(auto, unfolding(aftr_base::specs::Bytes::be16, aftr_base::specs::Bytes::be32, aftr_base::specs::Bytes::be64, aftr_base::specs::Bytes::be128))]
fn block_record(block: &Block) -> [u8; 34]
    ensures { result ≡ event_record (BlockOf block.now.opens block.now.owner block.now.addr
        block.now.first block.now.last block.now.at) }
{
    let mut bytes = [0u8; 34];
    BigEndian::write_u64(&mut bytes, block.at.0);
    bytes[8] = event_number(block.opens);
    BigEndian::write_u128(&mut bytes[9..], block.owner.0.bits.0);
    bytes[25] = block.owner.0.len;
    BigEndian::write_u32(&mut bytes[26..], block.addr.0);
    BigEndian::write_u16(&mut bytes[30..], block.first);
    BigEndian::write_u16(&mut bytes[32..], block.last);
    bytes
}

fn event_number(opens: bool) -> u8
    ensures { result ≡ event_number opens }
{
    if opens { OPENS } else { CLOSES }
}

#[tactic(auto, unfolding(aftr_base::specs::Bytes::be64))]
fn horizon_record(at: Moment, reach: Moment) -> [u8; 16]
    ensures { result ≡ event_record (HorizonOf at reach) }
{
    let mut bytes = [0u8; 16];
    BigEndian::write_u64(&mut bytes, at.0);
    BigEndian::write_u64(&mut bytes[8..], reach.0);
    bytes
}

// The record of a plan.
#[tactic(auto, unfolding(aftr_base::specs::Bytes::be64))]
fn put_plan(at: Moment, spec: &Option<PlanSpec>, out: &mut List<u8>) -> Result<(), NoMemory>
    requires { length (text_of spec.now) < 2 ^ 16 }
    ensures { OnOk result (out.new ≡ out.old ++ event_record (PlanOf at spec.now)) }
{
    let mut moment = [0u8; 8];
    BigEndian::write_u64(&mut moment, at.0);
    out.extend_from_slice(&moment)?;
    match spec {
        None => out.push(0),
        Some(spec) => {
            put_len(text_len(spec), out)?;
            plan_text(spec, out)
        }
    }
}

// The length of a field that varies, in one byte where it fits (RFC 7011 7).
#[tactic(auto, unfolding(aftr_base::specs::Bytes::be16))]
fn put_len(len: usize, out: &mut List<u8>) -> Result<(), NoMemory>
    requires { len < 2 ^ 16 }
    ensures { OnOk result (out.new ≡ out.old ++ len_of_field len) }
{
    if len < 255 {
        return out.push(len as u8);
    }
    let mut bytes = [255u8; 3];
    BigEndian::write_u16(&mut bytes[1..], len as u16);
    out.extend_from_slice(&bytes)
}
