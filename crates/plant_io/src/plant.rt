ghost use Rattle.std.specs.Prelude.{◌≡◌, ◌∷◌, ◌≤◌, ◌-◌, ℕ, List, length, take, drop, min, IfOk, OnOk, OnErr};
ghost use Rattle.plant_io.specs.Causes.{HasCause};
ghost use Rattle.plant_io.specs.Story.{Step, wrote, synced, Story, content, emit_all, FailsToWrite, EmitsPart};

use crate::Failed;

/// A file that is synced and an outlet for packets, under one clock: what stops may leave of both is known together.
/// Places in the file are counted in bytes, from 0.
pub trait Plant {
    /// Whether contracts may speak of what it holds.
    ghost tells: { Type 0 };

    /// What has been done to it. Its content, what was sent and what a stop may leave follow from it.
    ghost story: { Self → Story };

    /// How often the file has failed.
    ghost disk_faults: { Self → ℕ };

    /// How often the outlet has failed.
    ghost out_faults: { Self → ℕ };

    /// The length of the file's content in bytes. `Failed` comes only where the file's count of faults rose.
    fn size(&mut self) -> Result<u64, Failed>
        ensures answer { tells → IfOk result (λ size. size ≡ length (content (story self.old))) }
        ensures same { tells → story self.new ≡ story self.old }
        ensures cause { HasCause (disk_faults self.old) (disk_faults self.new) result }
        ensures outlet { out_faults self.new ≡ out_faults self.old };

    /// Reads the content from the byte `at` on into the front of `buf` and answers how many bytes: `buf.len()`, or as
    /// many as there are up to the end, and 0 at the end or past it. `Failed` comes only where the file's count of
    /// faults rose.
    fn read_at(&mut self, at: u64, buf: &mut [u8]) -> Result<usize, Failed>
        ensures within { IfOk result (λ count. count ≤ length buf.new) }
        ensures count { tells → IfOk result (λ count. count ≡ min (length buf.new) (length (content (story self.old)) - at)) }
        ensures bytes { tells → IfOk result (λ count. take count buf.new ≡ take count (drop at (content (story self.old)))) }
        ensures same { tells → story self.new ≡ story self.old }
        ensures cause { HasCause (disk_faults self.old) (disk_faults self.new) result }
        ensures outlet { out_faults self.new ≡ out_faults self.old };

    /// Writes the bytes from the byte `at` on, over what is there and past the end; `at` is no greater than the size.
    /// Until the next sync that succeeds, a stop may leave any bytes in the range. `Failed` comes only where the file's
    /// count of faults rose, and any bytes may stand in the range then.
    fn write_at(&mut self, at: u64, bytes: &[u8]) -> Result<(), Failed>
        requires { tells → at ≤ length (content (story self.old)) }
        ensures written { tells → OnOk result (story self.new ≡ wrote at bytes.now 0 ∷ story self.old) }
        ensures torn { tells → OnErr result (FailsToWrite at bytes.now (story self.old) (story self.new)) }
        ensures cause { HasCause (disk_faults self.old) (disk_faults self.new) result }
        ensures outlet { out_faults self.new ≡ out_faults self.old };

    /// Makes the content durable: after it, a stop leaves the file as it reads. A flush, which only hands the bytes to
    /// the system, is no sync; POSIX's `fdatasync` is one. `Failed` comes only where the file's count of faults rose:
    /// nothing is promised of a stop then, and the content stays as it reads.
    fn sync(&mut self) -> Result<(), Failed>
        ensures durable { tells → OnOk result (story self.new ≡ synced ∷ story self.old) }
        ensures same { tells → OnErr result (story self.new ≡ story self.old) }
        ensures cause { HasCause (disk_faults self.old) (disk_faults self.new) result }
        ensures outlet { out_faults self.new ≡ out_faults self.old };

    /// Sends the bytes by the outlet. `Failed` comes only where the outlet's count of faults rose; a part of the bytes,
    /// from the first on, may have been sent then.
    fn emit(&mut self, bytes: &[u8]) -> Result<(), Failed>
        ensures all { tells → OnOk result (story self.new ≡ emit_all bytes.now (story self.old)) }
        ensures part { tells → OnErr result (EmitsPart bytes.now (story self.old) (story self.new)) }
        ensures cause { HasCause (out_faults self.old) (out_faults self.new) result }
        ensures disk { disk_faults self.new ≡ disk_faults self.old };
}
