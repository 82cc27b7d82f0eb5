//! What a call of the program is asked, and what it answers.
ghost use Rattle.std.specs.Prelude.{◌≡◌, ◌+◌, ◌<◌, ◌^◌, ◌++◌, [], ◌∷◌, List as Items, EachIndex, slice_index, string_bytes};
ghost use Rattle.aftr_base.specs.Drops.{drop_counts};
ghost use Rattle.aftr_base.specs.declared.event.DropCause.{DropCause as Cause};

use crate::event::DropCause;
use crate::list::List;
use std::fmt;
use std::marker::Model;

/// A word of the command line. Contracts see its bytes.
#[derive(Debug, Drop)]
pub struct Word {
    text: String,
}

impl Model for Word {
    ghost use Rattle.std.specs.Prelude.{List as Items, ℕ, string_bytes};

    ghost Value = { Items ℕ };

    ghost view = { λ w. string_bytes w.text };
}

impl Word {
    /// The word of this text. It takes the text over and needs no further memory.
    pub fn from_string(text: String) -> Self
        ensures { result ≡ string_bytes text }
    {
        Word { text }
    }

    /// The text, given back without taking memory.
    pub fn into_string(self) -> String
        ensures { string_bytes result ≡ self }
    {
        let Word { text } = self;
        text
    }

    /// The text.
    pub fn as_str(&self) -> &str
        ensures { result.now ≡ self.now }
    {
        self.text.as_str()
    }

    /// The bytes of the text.
    pub fn as_bytes(&self) -> &[u8]
        ensures { result.now ≡ self.now }
    {
        self.text.as_bytes()
    }
}

/// The name of a refused key of the configuration. Contracts see its bytes, and it prints as them.
#[derive(Debug, Drop)]
pub struct Key {
    text: String,
}

impl Model for Key {
    ghost use Rattle.std.specs.Prelude.{List as Items, ℕ, string_bytes};

    ghost Value = { Items ℕ };

    ghost view = { λ k. string_bytes k.text };
}

impl Key {
    /// The key of this name. It takes the text over and needs no further memory.
    pub fn from_string(text: String) -> Self
        ensures { result ≡ string_bytes text }
    {
        Key { text }
    }

    /// The name, given back without taking memory.
    pub fn into_string(self) -> String
        ensures { string_bytes result ≡ self }
    {
        let Key { text } = self;
        text
    }

    /// The name.
    pub fn as_str(&self) -> &str
        ensures { result.now ≡ self.now }
    {
        self.text.as_str()
    }
}

impl fmt::Display for Key {
    ghost use Rattle.std.specs.Prelude.{Some};

    ghost output = { λ k. Some k };

    fn fmt<W: fmt::Write>(&self, f: &mut fmt::Formatter<W>) -> fmt::Result {
        f.write_str(self.text.as_str())
    }
}

/// A batch of records that a failing disk call cost. No run gives one.
#[derive(Clone, Copy, Debug, PartialEq, Eq)]
pub struct Mark {
    /// The number of the batch's first record, from 0.
    pub first: u64,
    /// How many records the batch has.
    pub count: u16,
    /// Whether the log was found to have taken the batch.
    pub taken: bool,
}

/// How many records were dropped: a number for each cause, in the order of `DropCause`.
#[derive(Clone, Copy, Debug, PartialEq, Eq)]
pub struct DropCounts(pub [u64; 23]);

impl DropCounts {
    /// Nothing dropped.
    pub fn none() -> Self
        ensures { result.0 ≡ drop_counts [] }
    {
        DropCounts([0; 23])
    }

    /// Counts one more record that was dropped for this cause, where no count is near its type's end.
    pub fn count(&mut self, cause: DropCause)
        requires { EachIndex self.old.0 (λ k. slice_index self.old.0 k < 2 ^ 63) }
        ensures { (drops : Items Cause) → self.old.0 ≡ drop_counts drops → self.new.0 ≡ drop_counts (drops ++ cause ∷ []) }
    {
        let place = cause as usize;
        self.0[place] += 1;
    }
}

/// How a call of the program ended.
#[derive(Debug, Drop)]
pub enum Status {
    /// All was done.
    Ok,
    /// The words are no command.
    BadWords,
    /// The configuration has a refused key: the first one.
    BadConfig(Key),
    /// In the input of this number, from 0, no record stands at this offset in bytes, from 0.
    BadInput { input: u8, offset: u64 },
    /// The configuration or an input could not be read.
    ReadFault,
    /// The log file failed.
    LogFault,
    /// The packet outlet or the report failed.
    OutFault,
    /// The log is damaged: the first record that isn't sound begins at this offset in bytes, from 0.
    LogDamaged(u64),
    /// The log ends at `tail`, and `need` bytes more would pass its `limit`, all in bytes.
    LogFull { tail: u64, need: u64, limit: u64 },
    /// A new log was asked for, and the file has this many bytes already.
    AlreadyThere(u64),
    /// Memory ran out.
    NoMemory,
}

/// What a call of the program answers.
#[derive(Debug, Drop)]
pub struct Outcome {
    /// How the call ended.
    pub status: Status,
    /// What failing disk calls cost.
    pub marks: List<Mark>,
    /// What the run dropped; a query drops nothing.
    pub drops: DropCounts,
}
