//! Standard output.
ghost use Rattle.std.specs.Prelude.{◌≡◌, [], OnOk, OnErr};
ghost use Rattle.plant_io.specs.Causes.{HasCause, counted};

use crate::faults::count_fault;
use plant_io::{Failed, Sink};
use std::io;
use std::io::Write;

/// The report's way out: a writer, in the program standard output. It tells no content, and counts the writes that failed.
#[derive(Drop)]
pub struct StdSink<W: Write + Drop> {
    out: W,
    faults: u64,
}

impl<W: Write + Drop> StdSink<W> {
    /// What is written goes to this writer.
    pub fn new(out: W) -> Self
        ensures { result.faults ≡ 0 }
    {
        StdSink { out, faults: 0 }
    }
}

impl<W: Write + Drop> Sink for StdSink<W> {
    ghost tells = { ⊥ };

    ghost written = { λ sink. [] };

    ghost faults = { λ sink. sink.faults };

    fn write(&mut self, bytes: &[u8]) -> Result<(), Failed>
        ensures cause { HasCause self.old.faults self.new.faults result }
        ensures no_fault { OnOk result (self.new.faults ≡ self.old.faults) }
        ensures fault { OnErr result (self.new.faults ≡ counted self.old.faults) }
    {
        count_fault(write_out(&mut self.out, bytes), &mut self.faults)
    }
}

// Ok says that the bytes are out: none is left in a buffer of the writer's.
fn write_out<W: Write>(out: &mut W, bytes: &[u8]) -> io::Result<()> {
    out.write_all(bytes)?;
    out.flush()
}
