//! A journal: a place in a log file.
ghost use Rattle.std.specs.Prelude.{◌≡◌, ◌+◌};

mod reading;
mod start;
mod writing;

pub use start::{AttachBad, attach};
use std::marker::Model;

/// A place in a log file, at the gate of a frame. The file itself is handed to each call.
#[derive(Debug, Drop)]
pub struct Journal {
    // the place behind the gate where it stands
    tail: u64,
    at_tail: bool,
    suspect: bool,
}

impl Model for Journal {
    ghost use Rattle.std.specs.Prelude.{◌≡◌, ◌<◌, ◌-◌};
    ghost use Rattle.disk_journal.specs.Standing.{Standing};

    ghost Value = { Standing };

    ghost view = { λ j. record { at = j.tail - 1; at_tail = j.at_tail; suspect = j.suspect } };

    ghost invariant = { λ j. 0 < j.tail };
}

impl Journal {
    /// Whether it has read all frames: the last one that it looked for was the tail, or it has committed since.
    pub fn at_tail(&self) -> bool
        ensures { result ≡ self.now.at_tail }
    {
        self.at_tail
    }

    /// Whether a commit has failed. The journal is only dropped then: the file has to be read again.
    pub fn suspect(&self) -> bool
        ensures { result ≡ self.now.suspect }
    {
        self.suspect
    }

    /// How many bytes of the file it has read, the gate where it stands included. At its tail, that is the length of the
    /// file that counts.
    pub fn tail(&self) -> u64
        ensures { result ≡ self.now.at + 1 }
    {
        self.tail
    }
}
