//! Why a record goes no further.
ghost use Rattle.std.specs.Prelude.{◌≡◌};

use aftr_base::NoMemory;

/// What a log has no room for, in bytes: its tail, what a commit needs behind it, and the limit.
#[derive(Clone, Copy, Debug, PartialEq, Eq)]
pub struct Lack {
    pub tail: u64,
    pub need: u64,
    pub limit: u64,
}

/// Why a record went no further.
#[derive(Clone, Copy, Debug, PartialEq, Eq)]
pub enum PassFailed {
    /// Memory ran out before the log was written.
    NoMemory,
    /// The log has no room for what the record logs. Nothing was written or sent.
    Full(Lack),
    /// The log file failed; nothing of the record was sent.
    Log,
    /// The outlet failed; a part of the record's packets may have been sent.
    Outlet,
}

impl From<NoMemory> for PassFailed {
    ghost use Rattle.egress_gate.specs.declared.refusal.PassFailed.{PassFailed};

    ghost from_gives = { λ cause result. result ≡ PassFailed.NoMemory };

    fn from(_refused: NoMemory) -> Self {
        PassFailed::NoMemory
    }
}
