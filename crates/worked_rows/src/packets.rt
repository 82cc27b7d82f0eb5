//! Packets as hexadecimal digits, by their layers, and what comes of them.

use crate::logs::Frame;

/// A record of 81 bytes: a packet from the softwire side, at the millisecond 1,000,000.
pub const HEAD: &str = "00000051 01 00000000000f4240";

/// From the softwire of the subscriber 2001:db8:100::/56 to the AFTR, and IPv4 behind it.
pub const TUNNEL: &str = "60000000 0020 04 40
    20010db8010000000000000000000002 20010db8000000000000000000000001";

/// From 192.0.0.2 to 203.0.113.5.
pub const INNER: &str = "4500 0020 0001 0000 40 11 7ec4 c0000002 cb007105";

/// From port 5000 to port 53.
pub const DATAGRAM: &str = "1388 0035 000c 2b4a 61626364";

/// The same without a checksum.
pub const UNSUMMED: &str = "1388 0035 000c 0000 61626364";

/// The packet of these layers: a subscriber sends a datagram in its softwire.
pub const PACKET: &str = "60000000 0020 04 40
    20010db8010000000000000000000002 20010db8000000000000000000000001
    4500 0020 0001 0000 40 11 7ec4 c0000002 cb007105 1388 0035 000c 2b4a 61626364";

/// The first packet as a record.
pub const FIRST: [&str; 2] = [HEAD, PACKET];

/// The same subscriber's packet from the same port to 203.0.113.6.
pub const ELSEWHERE: &str = "60000000 0020 04 40
    20010db8010000000000000000000002 20010db8000000000000000000000001
    4500 0020 0001 0000 40 11 7ec3 c0000002 cb007106 1388 0035 000c 2b49 61626364";

/// The first record as it goes out: from 192.0.2.8, port 1024.
pub const FIRST_SENT: &str = "00000029 02 00000000000f4240
    4500 0020 0001 0000 3f 11 7dbe c0000208 cb007105 0400 0035 000c 38cc 61626364";

/// What is logged before: the ports 1024 to 1535 of 192.0.2.8 are the subscriber's from then on.
pub const FIRST_LOGGED: &str = "00000000000f4240 10
    20010db8010000000000000000000000 38 c0000208 0400 05ff";

/// And with it that the log has the names up to 1,002,000, two seconds behind the packet.
pub const FIRST_FRAME: Frame<'static> = Frame {
    horizon: Some("00000000000f4240 00000000000f4a10"),
    blocks: &[FIRST_LOGGED],
};

/// What is logged 300 s behind the packet, at its mapping's deadline: the ports are the subscriber's no more.
pub const FIRST_CLOSED: &str = "000000000013d620 11
    20010db8010000000000000000000000 38 c0000208 0400 05ff";

/// The same packet in the softwire of another subscriber, 2001:db8:100:100::/56.
pub const OTHER: &str = "60000000 0020 04 40
    20010db8010001000000000000000002 20010db8000000000000000000000001
    4500 0020 0001 0000 40 11 7ec4 c0000002 cb007105 1388 0035 000c 2b4a 61626364";

/// A record of 81 bytes, a millisecond behind the first.
pub const NEXT_HEAD: &str = "00000051 01 00000000000f4241";

/// The other subscriber's record as it goes out: from 192.0.2.8, port 1536.
pub const OTHER_SENT: &str = "00000029 02 00000000000f4241
    4500 0020 0001 0000 3f 11 7dbe c0000208 cb007105 0600 0035 000c 36cc 61626364";

/// What is logged before: the ports 1536 to 2047 are the other subscriber's.
pub const OTHER_LOGGED: &str = "00000000000f4241 10
    20010db8010001000000000000000000 38 c0000208 0600 07ff";

/// The horizon reaches that moment already.
pub const OTHER_FRAME: Frame<'static> = Frame {
    horizon: None,
    blocks: &[OTHER_LOGGED],
};

/// A block closes, and no packet goes out.
pub const CLOSED_FRAME: Frame<'static> = Frame {
    horizon: None,
    blocks: &[FIRST_CLOSED],
};

/// From 203.0.113.5 port 53 to 192.0.2.8 port 1024.
pub const REPLY: &str = "4500 0020 0007 0000 40 11 7cb8 cb007105 c0000208
    0035 0400 000c 38cc 61626364";

/// The reply as it goes into the softwire.
pub const REPLY_SENT: &str = "60000000 0020 04 40
    20010db8000000000000000000000001 20010db8010000000000000000000002
    4500 0020 0007 0000 3f 11 7fbe cb007105 c0000002 0035 1388 000c 2b4a 61626364";
