ghost use Rattle.std.specs.Prelude.{◌≡◌, ◌≤◌, ℕ, List, length, IfOk, OnErr};
ghost use Rattle.plant_io.specs.Causes.{HasCause};
ghost use Rattle.plant_io.specs.Source.{TakesNext};

use crate::Failed;

/// Bytes that come in, in order and once.
pub trait Source {
    /// Whether contracts may speak of the bytes.
    ghost tells: { Type 0 };

    /// The bytes that were taken so far.
    ghost taken: { Self → List ℕ };

    /// The bytes that are left.
    ghost rest: { Self → List ℕ };

    /// How often it has failed.
    ghost faults: { Self → ℕ };

    /// Takes the next bytes into the front of `buf` and answers how many. For a `buf` that isn't empty, 0 comes only
    /// at the end. `Failed` comes only where the count of faults rose, and no byte is taken then.
    fn read(&mut self, buf: &mut [u8]) -> Result<usize, Failed>
        ensures within { IfOk result (λ count. count ≤ length buf.new) }
        ensures bytes { tells → IfOk result (λ count.
            TakesNext (rest self.old) (rest self.new) (taken self.old) (taken self.new) (length buf.new) count buf.new) }
        ensures rest_kept { tells → OnErr result (rest self.new ≡ rest self.old) }
        ensures taken_kept { tells → OnErr result (taken self.new ≡ taken self.old) }
        ensures cause { HasCause (faults self.old) (faults self.new) result };
}
