//! How many packets in pieces are held: 8 of a subscriber and 1,024 of the public side, each of up to 128 pieces.

use crate::case::{Case, RUN};
use crate::driver::check;
use crate::fragments::FRAGMENT;
use crate::logs::{Frame, LogFile};
use crate::packets::{DATAGRAM, FIRST_FRAME, FIRST_SENT, HEAD, INNER, PACKET};
use aftr_base::DropCause;
use std::process::Abort;

const MOMENT: u64 = 1_000_000;

// 60 s later: what was held from then on is held no more.
const LATE: u64 = 1_060_000;

// An input in the making, as hexadecimal digits. The identifications in it tell packets apart.
#[derive(Drop)]
struct Records {
    digits: String,
}

impl Records {
    fn new<R: AllocGlobal>(rt: &R) -> Self {
        Records {
            digits: String::new(rt.alloc()),
        }
    }

    // The first halves of the first packet from its sender, one for each of these identifications.
    fn with_first_halves<R: Abort + AllocGlobal>(rt: &R, from: u32, end: u32) -> Self {
        let mut records = Records::new(rt);
        for id in from..end {
            records.add_first_half(rt, MOMENT, 0, id);
        }
        records
    }

    // The first half of the first packet as a fragment from a subscriber.
    fn add_first_half<R: Abort + AllocGlobal>(
        &mut self,
        rt: &R,
        at: u64,
        subscriber: u16,
        id: u32,
    ) {
        let text = format!(in rt.alloc();
            "00000049 01 {at:016x} 60000000 0018 2c 40
            20010db801{subscriber:04x}000000000000000002 20010db8000000000000000000000001
            04 00 0001 {id:08x} 4500 0020 0001 0000 40 11 7ec4 c0000002\n"
        );
        self.add_made(rt, text);
    }

    // The second half, from the first packet's sender.
    fn add_second_half<R: Abort + AllocGlobal>(&mut self, rt: &R, at: u64, id: u32) {
        let text = format!(in rt.alloc();
            "00000049 01 {at:016x} 60000000 0018 2c 40
            20010db8010000000000000000000002 20010db8000000000000000000000001
            04 00 0010 {id:08x} cb007105 1388 0035 000c 2b4a 61626364\n"
        );
        self.add_made(rt, text);
    }

    // The first 8 bytes of its datagram as an IPv4 piece, from a further softwire of that sender.
    fn add_first_piece<R: Abort + AllocGlobal>(&mut self, rt: &R, id: u16) {
        let checksum = 0x5ec9_u16.wrapping_sub(id);
        let text = format!(in rt.alloc();
            "0000004d 01 00000000000f4240 60000000 001c 04 40
            20010db8010000000000000000000003 20010db8000000000000000000000001
            4500 001c {id:04x} 2000 40 11 {checksum:04x} c0000002 cb007105 1388 0035 000c 2b4a\n"
        );
        self.add_made(rt, text);
    }

    // The last 4 bytes.
    fn add_last_piece<R: Abort + AllocGlobal>(&mut self, rt: &R, id: u16) {
        let checksum = 0x7ecc_u16.wrapping_sub(id);
        let text = format!(in rt.alloc();
            "00000049 01 00000000000f4240 60000000 0018 04 40
            20010db8010000000000000000000003 20010db8000000000000000000000001
            4500 0018 {id:04x} 0001 40 11 {checksum:04x} c0000002 cb007105 61626364\n"
        );
        self.add_made(rt, text);
    }

    // The first 8 bytes of a reply, from the public side.
    fn add_first_of_reply<R: Abort + AllocGlobal>(&mut self, rt: &R, id: u16) {
        let checksum = 0x5cc3_u16.wrapping_sub(id);
        let text = format!(in rt.alloc();
            "00000025 02 00000000000f4240
            4500 001c {id:04x} 2000 40 11 {checksum:04x} cb007105 c0000208 0035 0400 000c 38cc\n"
        );
        self.add_made(rt, text);
    }

    // Its last 4 bytes.
    fn add_last_of_reply<R: Abort + AllocGlobal>(&mut self, rt: &R, id: u16) {
        let checksum = 0x7cc6_u16.wrapping_sub(id);
        let text = format!(in rt.alloc();
            "00000021 02 00000000000f4240
            4500 0018 {id:04x} 0001 40 11 {checksum:04x} cb007105 c0000208 61626364\n"
        );
        self.add_made(rt, text);
    }

    fn add_made<R: Abort>(&mut self, rt: &R, text: Result<String, std::alloc::AllocError>) {
        let text = text.expect(rt, "memory for a record");
        self.add(rt, text.as_str());
    }

    fn add<R: Abort>(&mut self, rt: &R, text: &str) {
        self.digits.push_str(text).expect(rt, "memory for an input");
    }

    // Checks what a case leaves over these records, in place of its own input.
    fn check<R: Abort + AllocGlobal>(&self, rt: &R, case: &Case<'_>) {
        let input = [self.digits.as_str()];
        check(
            rt,
            &Case {
                input: &input,
                ..*case
            },
        );
    }
}

// Nine packets of a subscriber, one of another, and once more the ninth when the others are held no more.
fn nine_packets<R: Abort + AllocGlobal>(rt: &R) -> Records {
    let mut records = Records::with_first_halves(rt, 0, 9);
    records.add_first_half(rt, MOMENT, 0x100, 0);
    records.add_first_half(rt, LATE, 0, 8);
    records
}

const NINE: Case<'static> = Case {
    name: "nine packets of a subscriber",
    report: "records 11\nsent 0\nmarks 0\ndrop PieceTooMany 1\n",
    drops: &[(DropCause::PieceTooMany, 1)],
    ..RUN
};

#[test]
fn a_ninth_packet_in_pieces(rt: HostRuntime) {
    nine_packets(&rt).check(&rt, &NINE);
}

#[test]
fn the_ninth_packet_when_the_others_are_held_no_more(rt: HostRuntime) {
    let mut records = nine_packets(&rt);
    records.add_second_half(&rt, LATE, 8);
    let case = Case {
        report: "records 12\nsent 1\nmarks 0\ndrop PieceTooMany 1\n",
        sent: &[
            "00000029 02 0000000000102ca0
            4500 0020 0001 0000 3f 11 7dbe c0000208 cb007105 0400 0035 000c 38cc 61626364",
        ],
        log_after: LogFile::Frames(&[Frame {
            horizon: Some("0000000000102ca0 0000000000103470"),
            blocks: &["0000000000102ca0 10 20010db8010000000000000000000000 38 c0000208 0400 05ff"],
        }]),
        ..NINE
    };
    records.check(&rt, &case);
}

// A fragment that is whole by itself.
const WHOLE: [&str; 3] = [
    "00000059 01 00000000000f4240
    60000000 0028 2c 40 20010db8010000000000000000000002 20010db8000000000000000000000001
    04 00 0000 00000009",
    INNER,
    DATAGRAM,
];

// Four fragments and four IPv4 pieces, from two softwires of one subscriber. A ninth of either kind is refused until one
// packet is whole, and then one is taken. What is whole by itself and another subscriber's pieces aren't counted with them.
#[test]
fn fragments_and_ipv4_pieces_count_together(rt: HostRuntime) {
    let mut records = Records::with_first_halves(&rt, 0, 4);
    for id in 0..4 {
        records.add_first_piece(&rt, id);
    }
    records.add_first_half(&rt, MOMENT, 0, 9);
    records.add_first_piece(&rt, 9);
    records.add_first_half(&rt, MOMENT, 0x100, 0);
    for part in WHOLE {
        records.add(&rt, part);
    }
    records.add_second_half(&rt, MOMENT, 0);
    records.add_first_piece(&rt, 9);
    records.add_first_half(&rt, MOMENT, 0, 9);
    records.add_last_piece(&rt, 9);
    let case = Case {
        name: "fragments and IPv4 pieces",
        report: "records 16\nsent 3\nmarks 0\ndrop PieceTooMany 3\n",
        sent: &[
            FIRST_SENT,
            FIRST_SENT,
            "00000029 02 00000000000f4240
            4500 0020 0009 0000 3f 11 7db6 c0000208 cb007105 0401 0035 000c 38cb 61626364",
        ],
        log_after: LogFile::Frames(&[FIRST_FRAME]),
        drops: &[(DropCause::PieceTooMany, 3)],
        ..RUN
    };
    records.check(&rt, &case);
}

// The first packet's first piece in two fragments, and its last piece.
const FRAGMENT_OF_PIECE: &str = "04 00 0001 00000000 4500 001c 0001 2000 40 11 5ec8 c0000002";

const REST_OF_PIECE: &str = "00000045 01 00000000000f4240
    60000000 0014 2c 40 20010db8010000000000000000000002 20010db8000000000000000000000001
    04 00 0010 00000000 cb007105 1388 0035 000c 2b4a";

const LAST_PIECE: &str = "00000049 01 00000000000f4240
    60000000 0018 04 40 20010db8010000000000000000000002 20010db8000000000000000000000001
    4500 0018 0001 0001 40 11 7ecb c0000002 cb007105 61626364";

// With seven others held, the piece has the place of its two fragments, and is the eighth.
#[test]
fn a_piece_that_fragments_make_counts_for_them(rt: HostRuntime) {
    let mut records = Records::new(&rt);
    records.add(&rt, FRAGMENT);
    records.add(&rt, FRAGMENT_OF_PIECE);
    for id in 1..8 {
        records.add_first_half(&rt, MOMENT, 0, id);
    }
    records.add(&rt, REST_OF_PIECE);
    records.add_first_half(&rt, MOMENT, 0, 8);
    records.add(&rt, LAST_PIECE);
    records.add_first_half(&rt, MOMENT, 0, 8);
    let case = Case {
        name: "a piece in fragments beside seven packets",
        report: "records 12\nsent 1\nmarks 0\ndrop PieceTooMany 1\n",
        sent: &[FIRST_SENT],
        log_after: LogFile::Frames(&[FIRST_FRAME]),
        drops: &[(DropCause::PieceTooMany, 1)],
        ..RUN
    };
    records.check(&rt, &case);
}

// A further one is refused, its last piece too, until one is whole; a subscriber's are counted apart.
#[test]
fn packets_of_the_public_side_up_to_1_024(rt: HostRuntime) {
    let mut records = Records::new(&rt);
    records.add(&rt, HEAD);
    records.add(&rt, PACKET);
    for id in 0..1025 {
        records.add_first_of_reply(&rt, id);
    }
    records.add_last_of_reply(&rt, 1024);
    records.add_first_half(&rt, MOMENT, 0, 0);
    records.add_last_of_reply(&rt, 0);
    records.add_first_of_reply(&rt, 1024);
    records.add_first_of_reply(&rt, 1025);
    records.add_last_of_reply(&rt, 1024);
    let case = Case {
        name: "1,026 packets of the public side",
        report: "records 1032\nsent 3\nmarks 0\ndrop PieceTooMany 3\n",
        sent: &[
            FIRST_SENT,
            "00000051 01 00000000000f4240
            60000000 0020 04 40 20010db8000000000000000000000001 20010db8010000000000000000000002
            4500 0020 0000 0000 3f 11 7fc5 cb007105 c0000002 0035 1388 000c 2b4a 61626364",
            "00000051 01 00000000000f4240
            60000000 0020 04 40 20010db8000000000000000000000001 20010db8010000000000000000000002
            4500 0020 0400 0000 3f 11 7bc5 cb007105 c0000002 0035 1388 000c 2b4a 61626364",
        ],
        log_after: LogFile::Frames(&[FIRST_FRAME]),
        drops: &[(DropCause::PieceTooMany, 3)],
        ..RUN
    };
    records.check(&rt, &case);
}

// The first three eighths of a packet to port 53, whose UDP length is 1,004, and of one of 1,012 in its place.
const START: [&str; 4] = [
    "4500 0400 0001 0000",
    "40 11 7ae4 c0000002",
    "cb007105 1388 0035",
    "03ec 7ae3 03x4",
];

const LONGER_START: [&str; 4] = [
    "4500 0408 0001 0000",
    "40 11 7adc c0000002",
    "cb007105 1388 0035",
    "03f4 78d1 03x4",
];

// The packet with this start as so many fragments of 8 bytes, the last of them first. From the fifth on each has the bytes
// of its number.
fn fragments<R: Abort + AllocGlobal>(rt: &R, start: [&str; 4], count: u16) -> Records {
    let mut records = Records::new(rt);
    for number in (0..count).rev() {
        let place = number.wrapping_mul(8) | u16::from(number.wrapping_add(1) < count);
        let text = format!(in rt.alloc();
            "00000041 01 00000000000f4240
            60000000 0010 2c 40 20010db8010000000000000000000002 20010db8000000000000000000000001
            04 00 {place:04x} 00000007\n"
        );
        records.add_made(rt, text);
        match start.get(usize::from(number)) {
            Some(bytes) => records.add(rt, bytes),
            None => records.add_made(rt, format!(in rt.alloc(); " {number:02x}x8")),
        }
        records.add(rt, "\n");
    }
    records
}

// 8 bytes of each number from 4 up to 127.
const NUMBERS: &str =
    "04x8 05x8 06x8 07x8 08x8 09x8 0ax8 0bx8 0cx8 0dx8 0ex8 0fx8 10x8 11x8 12x8 13x8
    14x8 15x8 16x8 17x8 18x8 19x8 1ax8 1bx8 1cx8 1dx8 1ex8 1fx8 20x8 21x8 22x8 23x8
    24x8 25x8 26x8 27x8 28x8 29x8 2ax8 2bx8 2cx8 2dx8 2ex8 2fx8 30x8 31x8 32x8 33x8
    34x8 35x8 36x8 37x8 38x8 39x8 3ax8 3bx8 3cx8 3dx8 3ex8 3fx8 40x8 41x8 42x8 43x8
    44x8 45x8 46x8 47x8 48x8 49x8 4ax8 4bx8 4cx8 4dx8 4ex8 4fx8 50x8 51x8 52x8 53x8
    54x8 55x8 56x8 57x8 58x8 59x8 5ax8 5bx8 5cx8 5dx8 5ex8 5fx8 60x8 61x8 62x8 63x8
    64x8 65x8 66x8 67x8 68x8 69x8 6ax8 6bx8 6cx8 6dx8 6ex8 6fx8 70x8 71x8 72x8 73x8
    74x8 75x8 76x8 77x8 78x8 79x8 7ax8 7bx8 7cx8 7dx8 7ex8 7fx8";

#[test]
fn a_packet_of_128_fragments(rt: HostRuntime) {
    let case = Case {
        name: "128 fragments",
        report: "records 128\nsent 1\nmarks 0\n",
        sent: &[
            "00000409 02 00000000000f4240
            4500 0400 0001 0000 3f 11 79de c0000208 cb007105 0400 0035 03ec 8865 03x4",
            NUMBERS,
        ],
        log_after: LogFile::Frames(&[FIRST_FRAME]),
        ..RUN
    };
    fragments(&rt, START, 128).check(&rt, &case);
}

// The 129th is refused, and what is held stays so. A fragment that is held already is none too many.
#[test]
fn a_packet_of_129_fragments(rt: HostRuntime) {
    let mut records = fragments(&rt, LONGER_START, 129);
    records.add(
        &rt,
        "00000041 01 00000000000f4240
        60000000 0010 2c 40 20010db8010000000000000000000002 20010db8000000000000000000000001
        04 00 0029 00000007 05x8",
    );
    let case = Case {
        name: "129 fragments",
        report: "records 130\nsent 0\nmarks 0\ndrop PieceTooMany 1\n",
        drops: &[(DropCause::PieceTooMany, 1)],
        ..RUN
    };
    records.check(&rt, &case);
}

// A reply behind the first packet in so many pieces of 8 bytes, the last of them first. The first one is the UDP header, and
// each other one has the bytes of its number.
fn reply_pieces<R: Abort + AllocGlobal>(rt: &R, udp: &str, count: u16) -> Records {
    let mut records = Records::new(rt);
    records.add(rt, HEAD);
    records.add(rt, PACKET);
    for number in (0..count).rev() {
        let more = number.wrapping_add(1) < count;
        let fragment = number | if more { 0x2000 } else { 0 };
        let checksum = if more { 0x5cbc_u16 } else { 0x7cbc_u16 }.wrapping_sub(number);
        let text = format!(in rt.alloc();
            "00000025 02 00000000000f4240
            4500 001c 0007 {fragment:04x} 40 11 {checksum:04x} cb007105 c0000208\n"
        );
        records.add_made(rt, text);
        if number == 0 {
            records.add(rt, udp);
        } else {
            records.add_made(rt, format!(in rt.alloc(); " {number:02x}x8"));
        }
        records.add(rt, "\n");
    }
    records
}

#[test]
fn a_reply_of_128_pieces(rt: HostRuntime) {
    let case = Case {
        name: "128 pieces",
        report: "records 129\nsent 2\nmarks 0\n",
        sent: &[
            FIRST_SENT,
            "00000445 01 00000000000f4240
            60000000 0414 04 40 20010db8000000000000000000000001 20010db8010000000000000000000002
            4500 0414 0007 0000 3f 11 7bca cb007105 c0000002 0035 1388 0400 68a9 01x8 02x8 03x8",
            NUMBERS,
        ],
        log_after: LogFile::Frames(&[FIRST_FRAME]),
        ..RUN
    };
    reply_pieces(&rt, "0035 0400 0400 762b", 128).check(&rt, &case);
}

#[test]
fn a_reply_of_129_pieces(rt: HostRuntime) {
    let case = Case {
        name: "129 pieces",
        report: "records 130\nsent 1\nmarks 0\ndrop PieceTooMany 1\n",
        sent: &[FIRST_SENT],
        log_after: LogFile::Frames(&[FIRST_FRAME]),
        drops: &[(DropCause::PieceTooMany, 1)],
        ..RUN
    };
    reply_pieces(&rt, "0035 0400 0408 7419", 129).check(&rt, &case);
}
