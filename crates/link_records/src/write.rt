//! Writing a record.
ghost use Rattle.std.specs.Prelude.{◌≡◌, ◌+◌, ◌≤◌, ◌++◌, length, OnOk};
ghost use Rattle.aftr_base.specs.Bytes.{be32, be64};
ghost use Rattle.link_records.specs.Frames.{number_of, record_bytes};

use aftr_base::{List, Moment, NoMemory, Side};
use byteorder::{BigEndian, ByteOrder};

/// Appends the record of a packet of up to 65,575 bytes that goes out on this side at this moment.
/// `NoMemory` may leave a part of the record.
pub fn write_record(
    side: Side,
    at: Moment,
    packet: &[u8],
    out: &mut List<u8>,
) -> Result<(), NoMemory>
    requires { length packet.now ≤ 65575 }
    ensures { OnOk result (out.new ≡ out.old ++ record_bytes side at.0 packet.now) }
{
    put_u32(out, 9 + packet.len() as u32)?;
    out.push(number_of(side))?;
    put_u64(out, at.0)?;
    out.extend_from_slice(packet)?;
    Ok(())
}

/// The kind byte of a packet's record.
fn number_of(side: Side) -> u8
    ensures { result ≡ number_of side }
{
    match side {
        Side::Softwire => 1,
        Side::Public => 2,
    }
}

/// Appends a number in network order.
#[tactic(auto, unfolding(aftr_base::specs::Bytes::be32))]
fn put_u32(out: &mut List<u8>, n: u32) -> Result<(), NoMemory>
    ensures { OnOk result (out.new ≡ out.old ++ be32 n) }
{
    let mut bytes = [0; 4];
    BigEndian::write_u32(&mut bytes, n);
    out.extend_from_slice(&bytes)?;
    Ok(())
}

/// Appends a number in network order.
#[tactic(auto, unfolding(aftr_base::specs::Bytes::be64))]
fn put_u64(out: &mut List<u8>, n: u64) -> Result<(), NoMemory>
    ensures { OnOk result (out.new ≡ out.old ++ be64 n) }
{
    let mut bytes = [0; 8];
    BigEndian::write_u64(&mut bytes, n);
    out.extend_from_slice(&bytes)?;
    Ok(())
}
