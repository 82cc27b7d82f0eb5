//! Why bytes weren't read.
ghost use Rattle.std.specs.Prelude.{◌≡◌};

use aftr_base::NoMemory;
use std::error::Error;
use std::fmt;

/// Why no event was read.
#[derive(Clone, Copy, Debug, PartialEq, Eq)]
pub enum EventBad {
    /// The bytes aren't what was asked for.
    NotOurs,
    /// Memory ran out.
    NoMemory,
}

impl fmt::Display for EventBad {
    fn fmt<W: fmt::Write>(&self, f: &mut fmt::Formatter<W>) -> fmt::Result {
        match self {
            EventBad::NotOurs => write!(f, "no record of the log"),
            EventBad::NoMemory => write!(f, "no memory"),
        }
    }
}

impl Error for EventBad {}

impl From<NoMemory> for EventBad {
    ghost use Rattle.nat_events.specs.declared.bad.EventBad.{EventBad};

    ghost from_gives = { λ _ bad. bad ≡ EventBad.NoMemory };

    fn from(_refused: NoMemory) -> Self {
        EventBad::NoMemory
    }
}

/// Why a message wasn't read.
#[derive(Clone, Copy, Debug, PartialEq, Eq)]
pub enum EventsBad {
    /// The bytes aren't a message of the log in its place.
    NotOurs,
    /// Memory ran out.
    NoMemory,
}

impl fmt::Display for EventsBad {
    fn fmt<W: fmt::Write>(&self, f: &mut fmt::Formatter<W>) -> fmt::Result {
        match self {
            EventsBad::NotOurs => write!(f, "no message of the log"),
            EventsBad::NoMemory => write!(f, "no memory"),
        }
    }
}

impl Error for EventsBad {}

impl From<NoMemory> for EventsBad {
    ghost use Rattle.nat_events.specs.declared.bad.EventsBad.{EventsBad};

    ghost from_gives = { λ _ bad. bad ≡ EventsBad.NoMemory };

    fn from(_refused: NoMemory) -> Self {
        EventsBad::NoMemory
    }
}

impl From<EventBad> for EventsBad {
    ghost use Rattle.nat_events.specs.Bad.{events_bad};

    ghost from_gives = { λ bad gives. gives ≡ events_bad bad };

    fn from(bad: EventBad) -> Self {
        match bad {
            EventBad::NotOurs => EventsBad::NotOurs,
            EventBad::NoMemory => EventsBad::NoMemory,
        }
    }
}
