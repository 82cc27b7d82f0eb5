//! What a call of the program is handed, and all that it has to end with.

use crate::logs::LogFile;
use crate::packets::{FIRST, FIRST_FRAME, FIRST_SENT};
use aftr_base::DropCause;
use plant_mem::PlantCall;

/// One call. The bytes of inputs are hexadecimal digits, in parts that stand one behind another.
#[derive(Clone, Copy)]
pub struct Case<'a> {
    pub name: &'a str,
    pub words: &'a [&'a str],
    pub config: &'a [u8],
    /// The numbers of the reads of the configuration that fail.
    pub config_fails_at: &'a [u64],
    pub input: &'a [&'a str],
    /// As many bytes as a read of the input gives at most.
    pub piece: usize,
    pub input_fails_at: &'a [u64],
    pub log: LogFile<'a>,
    /// The numbers of the calls on the log and the outlet that fail.
    pub plant_fails_at: &'a [u64],
    pub report_fails_at: &'a [u64],
    /// As a status prints itself for debugging.
    pub status: &'a str,
    pub report: &'a str,
    pub sent: &'a [&'a str],
    pub log_after: LogFile<'a>,
    /// The causes that dropped records, and how many.
    pub drops: &'a [(DropCause, u64)],
    /// The calls on the log and the outlet, where they are compared.
    pub calls: Option<&'a [PlantCall]>,
}

/// A run of no records that meets no failure: an empty configuration and input, a log that was just made, and an input that
/// comes in one piece.
pub const RUN: Case<'static> = Case {
    name: "a run",
    words: &["run", "config", "log", "outlet", "input"],
    config: &[],
    config_fails_at: &[],
    input: &[],
    piece: usize::MAX,
    input_fails_at: &[],
    log: LogFile::Frames(&[]),
    plant_fails_at: &[],
    report_fails_at: &[],
    status: "Ok",
    report: "records 0\nsent 0\nmarks 0\n",
    sent: &[],
    log_after: LogFile::Frames(&[]),
    drops: &[],
    calls: None,
};

/// A run of the first packet.
pub const ONE_PACKET: Case<'static> = Case {
    name: "one packet",
    input: &FIRST,
    report: "records 1\nsent 1\nmarks 0\n",
    sent: &[FIRST_SENT],
    log_after: LogFile::Frames(&[FIRST_FRAME]),
    ..RUN
};

/// A query over a log that was just made, beside a configuration that a run would refuse.
pub const QUERY: Case<'static> = Case {
    name: "a query",
    words: &["leases", "log"],
    config: &[7],
    report: "horizon 0\n",
    ..RUN
};
