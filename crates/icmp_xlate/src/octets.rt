//! Numbers written in place, in network order.
ghost use Rattle.std.specs.Prelude.{◌≡◌, ◌+◌, ◌≤◌, ◌++◌, length, take, drop};
ghost use Rattle.aftr_base.specs.Bytes.{be16, be32};

use byteorder::{BigEndian, ByteOrder};

/// Puts the two bytes of a number at an offset.
#[tactic(auto, unfolding(aftr_base::specs::Bytes::be16))]
pub(crate) fn set_u16(bytes: &mut [u8], at: usize, value: u16)
    requires { at + 2 ≤ length bytes.old }
    ensures { bytes.new ≡ take at bytes.old ++ be16 value ++ drop (at + 2) bytes.old }
{
    BigEndian::write_u16(&mut bytes[at..at + 2], value);
}

/// Puts the four bytes of a number at an offset.
#[tactic(auto, unfolding(aftr_base::specs::Bytes::be32))]
pub(crate) fn set_u32(bytes: &mut [u8], at: usize, value: u32)
    requires { at + 4 ≤ length bytes.old }
    ensures { bytes.new ≡ take at bytes.old ++ be32 value ++ drop (at + 4) bytes.old }
{
    BigEndian::write_u32(&mut bytes[at..at + 4], value);
}
