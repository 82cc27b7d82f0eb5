ghost use Rattle.std.specs.Prelude.{◌≡◌, ℕ, List, ◌++◌, OnOk, OnErr};
ghost use Rattle.plant_io.specs.Causes.{HasCause};
ghost use Rattle.plant_io.specs.Sink.{GainsPart};

use crate::Failed;

/// Bytes that go out, such as a report.
pub trait Sink {
    /// Whether contracts may speak of the bytes.
    ghost tells: { Type 0 };

    /// The bytes that were written so far.
    ghost written: { Self → List ℕ };

    /// How often it has failed.
    ghost faults: { Self → ℕ };

    /// Writes all the bytes behind those that were written before. `Failed` comes only where the count of faults rose;
    /// a part of the bytes, from the first on, may have been written then.
    fn write(&mut self, bytes: &[u8]) -> Result<(), Failed>
        ensures all { tells → OnOk result (written self.new ≡ written self.old ++ bytes.now) }
        ensures part { tells → OnErr result (GainsPart bytes.now (written self.old) (written self.new)) }
        ensures cause { HasCause (faults self.old) (faults self.new) result };
}
