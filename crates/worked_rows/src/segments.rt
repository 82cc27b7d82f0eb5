//! TCP connections: segments both ways, and how long a connection is kept in each of its states.

use crate::case::{Case, RUN};
use crate::driver::check_all;
use crate::logs::{Frame, LogFile};
use crate::packets::FIRST_FRAME;
use aftr_base::DropCause;

// Outbound segments from 192.0.0.2 port 5000 to 203.0.113.5 port 80 at the milliseconds 1,000,000 and 1,000,020, and what goes out.
const OPENS: &str = "00000059 01 00000000000f4240 60000000 0028 04 40
    20010db8010000000000000000000002 20010db8000000000000000000000001
    4500 0028 0001 0000 40 06 7ec7 c0000002 cb007105
    1388 0050 000003e8 000007d0 5002 2000 744a 0000";

const OPENS_SENT: &str = "00000031 02 00000000000f4240
    4500 0028 0001 0000 3f 06 7dc1 c0000208 cb007105
    0400 0050 000003e8 000007d0 5002 2000 81cc 0000";

const OPENS_ANEW: &str = "00000059 01 00000000000f4254 60000000 0028 04 40
    20010db8010000000000000000000002 20010db8000000000000000000000001
    4500 0028 0001 0000 40 06 7ec7 c0000002 cb007105
    1388 0050 000003e8 000007d0 5002 2000 744a 0000";

const OPENS_ANEW_SENT: &str = "00000031 02 00000000000f4254
    4500 0028 0001 0000 3f 06 7dc1 c0000208 cb007105
    0400 0050 000003e8 000007d0 5002 2000 81cc 0000";

const ENDS: &str = "00000059 01 00000000000f4254 60000000 0028 04 40
    20010db8010000000000000000000002 20010db8000000000000000000000001
    4500 0028 0001 0000 40 06 7ec7 c0000002 cb007105
    1388 0050 000003e8 000007d0 5011 2000 743b 0000";

const ENDS_SENT: &str = "00000031 02 00000000000f4254
    4500 0028 0001 0000 3f 06 7dc1 c0000208 cb007105
    0400 0050 000003e8 000007d0 5011 2000 81bd 0000";

// Inbound segments at moments that differ, each with what comes before the segment in its record, and what goes out.
const ANSWER: &str = "4500 0028 0001 0000 40 06 7cc1 cb007105 c0000208
    0050 0400 000003e8 000007d0 5012 2000 81bc 0000";

const ANSWER_SENT: &str = "60000000 0028 04 40
    20010db8000000000000000000000001 20010db8010000000000000000000002
    4500 0028 0001 0000 3f 06 7fc7 cb007105 c0000002
    0050 1388 000003e8 000007d0 5012 2000 743a 0000";

const MORE: &str = "4500 0028 0001 0000 40 06 7cc1 cb007105 c0000208
    0050 0400 000003e8 000007d0 5010 2000 81be 0000";

const MORE_SENT: &str = "60000000 0028 04 40
    20010db8000000000000000000000001 20010db8010000000000000000000002
    4500 0028 0001 0000 3f 06 7fc7 cb007105 c0000002
    0050 1388 000003e8 000007d0 5010 2000 743c 0000";

const REMOTE_ENDS: &str = "4500 0028 0001 0000 40 06 7cc1 cb007105 c0000208
    0050 0400 000003e8 000007d0 5011 2000 81bd 0000";

const REMOTE_ENDS_SENT: &str = "60000000 0028 04 40
    20010db8000000000000000000000001 20010db8010000000000000000000002
    4500 0028 0001 0000 3f 06 7fc7 cb007105 c0000002
    0050 1388 000003e8 000007d0 5011 2000 743b 0000";

const RESET: &str = "4500 0028 0001 0000 40 06 7cc1 cb007105 c0000208
    0050 0400 000003e8 000007d0 5014 2000 81ba 0000";

const RESET_SENT: &str = "60000000 0028 04 40
    20010db8000000000000000000000001 20010db8010000000000000000000002
    4500 0028 0001 0000 3f 06 7fc7 cb007105 c0000002
    0050 1388 000003e8 000007d0 5014 2000 7438 0000";

// At 1,000,010 and 1,000,030 milliseconds, in and out.
const SOON: &str = "00000031 02 00000000000f424a";

const SOON_SENT: &str = "00000059 01 00000000000f424a";

const LATER: &str = "00000031 02 00000000000f425e";

const LATER_SENT: &str = "00000059 01 00000000000f425e";

// The closing of the connection's block, at its mapping's deadline.
const OPEN_CLOSED: Frame<'static> = Frame {
    horizon: None,
    blocks: &["000000000080c8ca 11 20010db8010000000000000000000000 38 c0000208 0400 05ff"],
};

const ENDED_CLOSED: Frame<'static> = Frame {
    horizon: None,
    blocks: &["000000000012ebde 11 20010db8010000000000000000000000 38 c0000208 0400 05ff"],
};

static CONNECTIONS: [Case<'static>; 3] = [
    Case {
        name: "7,440 s behind the answer that opened a connection",
        input: &[
            OPENS,
            SOON,
            ANSWER,
            "00000031 02 000000000080c8c9",
            MORE,
            "00000031 02 000000000080c8ca",
            MORE,
        ],
        report: "records 4\nsent 3\nmarks 0\ndrop NoMapping 1\n",
        sent: &[
            OPENS_SENT,
            SOON_SENT,
            ANSWER_SENT,
            "00000059 01 000000000080c8c9",
            MORE_SENT,
        ],
        log_after: LogFile::Frames(&[FIRST_FRAME, OPEN_CLOSED]),
        drops: &[(DropCause::NoMapping, 1)],
        ..RUN
    },
    Case {
        name: "240 s behind the second FIN",
        input: &[
            OPENS,
            SOON,
            ANSWER,
            ENDS,
            LATER,
            REMOTE_ENDS,
            "00000031 02 000000000012ebdd",
            MORE,
            "00000031 02 000000000012ebde",
            MORE,
        ],
        report: "records 6\nsent 5\nmarks 0\ndrop NoMapping 1\n",
        sent: &[
            OPENS_SENT,
            SOON_SENT,
            ANSWER_SENT,
            ENDS_SENT,
            LATER_SENT,
            REMOTE_ENDS_SENT,
            "00000059 01 000000000012ebdd",
            MORE_SENT,
        ],
        log_after: LogFile::Frames(&[FIRST_FRAME, ENDED_CLOSED]),
        drops: &[(DropCause::NoMapping, 1)],
        ..RUN
    },
    Case {
        name: "a SYN that opens a connection again, behind an RST",
        input: &[
            OPENS,
            SOON,
            RESET,
            OPENS_ANEW,
            LATER,
            ANSWER,
            "00000031 02 000000000013d620",
            MORE,
        ],
        report: "records 5\nsent 5\nmarks 0\n",
        sent: &[
            OPENS_SENT,
            SOON_SENT,
            RESET_SENT,
            OPENS_ANEW_SENT,
            LATER_SENT,
            ANSWER_SENT,
            "00000059 01 000000000013d620",
            MORE_SENT,
        ],
        log_after: LogFile::Frames(&[FIRST_FRAME]),
        ..RUN
    },
];

#[test]
fn a_connection_is_kept_by_its_state(rt: HostRuntime) {
    check_all(&rt, &CONNECTIONS);
}
