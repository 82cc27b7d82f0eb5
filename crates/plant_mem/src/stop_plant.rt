// A file and an outlet in memory that stop after some calls, and what the stop may leave of the file.
ghost use Rattle.std.specs.Prelude.{◌≡◌, ◌↔◌, ◌≤◌, ◌-◌, [], ◌∷◌, length, take, drop, min, IsTrue, IsErr, IfOk, OnOk, OnErr};
ghost use Rattle.plant_io.specs.Causes.{HasCause, counted};
ghost use Rattle.plant_io.specs.Story.{wrote, synced, content, sent, durable, emit_all, IsImage, IsSettled};
ghost use Rattle.plant_mem.specs.declared.tape.PlantCall.TheVariants.{Size, ReadAt, WriteAt, Sync, Emit};
ghost use Rattle.plant_mem.specs.Tape.{IsFilled};
ghost use Rattle.plant_mem.specs.Plants.{stop_story, stop_calls, stop_after, stop_disk_faults, stop_out_faults};
ghost use Rattle.plant_mem.specs.Plants.{IsStopped, PassesBefore, DidNothing};

use crate::tape::{PlantCall, Tape};
use aftr_base::{List, NoMemory};
use plant_io::{Failed, Plant};
use std::alloc::Global;

/// What a stop makes of the pending places: those in the range of a write since the last sync.
#[derive(Clone, Copy, Debug, PartialEq, Eq)]
pub enum Pick {
    /// As they were written: the file as a read gave it.
    Kept,
    /// As before the writes: the file as it was at the last sync, its size too.
    Dropped,
    /// Zeros, and all else as a read gave it.
    Zeros,
    /// Bytes of eight ones, and all else as a read gave it.
    Ones,
}

/// A plant in memory that stops. Its first calls, of all five kinds together, pass; then every call fails and does
/// nothing. `left` gives what the stop leaves of the file, and `sent` what was sent by then: a run can be stopped at each
/// moment, and another one started from what is left. A call whose record or bytes memory refuses fails too; it does
/// nothing and isn't one of the first.
#[derive(Drop)]
pub struct StopPlant {
    tape: Tape,
    after: u64,
}

impl StopPlant {
    /// A plant whose file holds the image, synced, that has sent nothing, and of whose calls the first `after` pass. It
    /// takes no memory; calls take it from `alloc`.
    pub fn new(alloc: Global, image: List<u8>, after: u64) -> Self
        ensures content { content (stop_story result) ≡ image }
        ensures nothing_sent { sent (stop_story result) ≡ [] }
        ensures settled { IsSettled (stop_story result) }
        ensures after { stop_after result ≡ after }
        ensures calls { stop_calls result ≡ [] }
        ensures disk_faults { stop_disk_faults result ≡ 0 }
        ensures out_faults { stop_out_faults result ≡ 0 }
    {
        StopPlant {
            tape: Tape::new(alloc, image),
            after,
        }
    }

    /// The file as a read gives it.
    pub fn content(&self) -> &[u8]
        ensures { result.now ≡ content (stop_story self.now) }
    {
        self.tape.content()
    }

    /// The bytes that were sent.
    pub fn sent(&self) -> &[u8]
        ensures { result.now ≡ sent (stop_story self.now) }
    {
        self.tape.sent()
    }

    /// The kinds of the calls that passed, in order.
    pub fn calls(&self) -> &[PlantCall]
        ensures { result.now ≡ stop_calls self.now }
    {
        self.tape.calls()
    }

    /// What a stop at this moment leaves of the file, to start again from: of the files that it may leave, the one that
    /// `pick` names.
    pub fn left(&self, pick: Pick) -> Result<List<u8>, NoMemory>
        ensures image { IfOk result (λ image. IsImage (stop_story self.now) image) }
        ensures kept { pick ≡ Pick.Kept → IfOk result (λ image. image ≡ content (stop_story self.now)) }
        ensures dropped { pick ≡ Pick.Dropped → IfOk result (λ image. image ≡ durable (stop_story self.now)) }
        ensures zeros { pick ≡ Pick.Zeros → IfOk result (λ image. IsFilled 0 (stop_story self.now) image) }
        ensures ones { pick ≡ Pick.Ones → IfOk result (λ image. IsFilled 255 (stop_story self.now) image) }
    {
        match pick {
            Pick::Kept => self.tape.copy(),
            Pick::Dropped => self.tape.at_last_sync(),
            Pick::Zeros => self.tape.filled(0),
            Pick::Ones => self.tape.filled(0xFF),
        }
    }

    // Whether as many calls as pass have passed.
    fn is_stopped(&self) -> bool
        ensures { IsTrue result ↔ IsStopped self.now }
    {
        self.tape.calls().len() as u64 >= self.after
    }
}

impl Plant for StopPlant {
    ghost tells = { Unit {0} };

    ghost story = { stop_story };

    ghost disk_faults = { stop_disk_faults };

    ghost out_faults = { stop_out_faults };

    /// The length of the content in bytes. `Failed` comes where the plant has stopped, or memory is refused.
    fn size(&mut self) -> Result<u64, Failed>
        ensures answer { IfOk result (λ size. size ≡ length (content (stop_story self.old))) }
        ensures same { stop_story self.new ≡ stop_story self.old }
        ensures cause { HasCause (stop_disk_faults self.old) (stop_disk_faults self.new) result }
        ensures fault { OnErr result (stop_disk_faults self.new ≡ counted (stop_disk_faults self.old)) }
        ensures outlet { stop_out_faults self.new ≡ stop_out_faults self.old }
        ensures stopped { IsStopped self.old → IsErr result }
        ensures passed { OnOk result (PassesBefore Size self.old self.new) }
        ensures failed { OnErr result (DidNothing self.old self.new) }
    {
        if self.is_stopped() || self.tape.note(PlantCall::Size).is_err() {
            return Err(self.tape.fail_disk());
        }
        Ok(self.tape.content().len() as u64)
    }

    /// Reads from the byte `at` on. `Failed` comes where the plant has stopped, or memory is refused.
    fn read_at(&mut self, at: u64, buf: &mut [u8]) -> Result<usize, Failed>
        ensures within { IfOk result (λ count. count ≤ length buf.new) }
        ensures count { IfOk result (λ count. count ≡ min (length buf.new) (length (content (stop_story self.old)) - at)) }
        ensures bytes { IfOk result (λ count. take count buf.new ≡ take count (drop at (content (stop_story self.old)))) }
        ensures same { stop_story self.new ≡ stop_story self.old }
        ensures cause { HasCause (stop_disk_faults self.old) (stop_disk_faults self.new) result }
        ensures fault { OnErr result (stop_disk_faults self.new ≡ counted (stop_disk_faults self.old)) }
        ensures outlet { stop_out_faults self.new ≡ stop_out_faults self.old }
        ensures stopped { IsStopped self.old → IsErr result }
        ensures passed { OnOk result (PassesBefore ReadAt self.old self.new) }
        ensures failed { OnErr result (DidNothing self.old self.new) }
    {
        if self.is_stopped() || self.tape.note(PlantCall::ReadAt).is_err() {
            return Err(self.tape.fail_disk());
        }
        Ok(self.tape.copy_at(at, buf))
    }

    /// Writes from the byte `at` on. `Failed` comes where the plant has stopped, or memory is refused; nothing is stored
    /// then, and no place is pending for such a write.
    fn write_at(&mut self, at: u64, bytes: &[u8]) -> Result<(), Failed>
        requires { at ≤ length (content (stop_story self.old)) }
        ensures written { OnOk result (stop_story self.new ≡ wrote at bytes.now 0 ∷ stop_story self.old) }
        ensures none { OnErr result (stop_story self.new ≡ stop_story self.old) }
        ensures cause { HasCause (stop_disk_faults self.old) (stop_disk_faults self.new) result }
        ensures fault { OnErr result (stop_disk_faults self.new ≡ counted (stop_disk_faults self.old)) }
        ensures outlet { stop_out_faults self.new ≡ stop_out_faults self.old }
        ensures stopped { IsStopped self.old → IsErr result }
        ensures passed { OnOk result (PassesBefore WriteAt self.old self.new) }
        ensures failed { OnErr result (DidNothing self.old self.new) }
    {
        if self.is_stopped() || self.tape.keep_write(at as usize, bytes, 0).is_err() {
            return Err(self.tape.fail_disk());
        }
        Ok(())
    }

    /// Syncs the file. `Failed` comes where the plant has stopped, or memory is refused; nothing is synced then.
    fn sync(&mut self) -> Result<(), Failed>
        ensures durable { OnOk result (stop_story self.new ≡ synced ∷ stop_story self.old) }
        ensures same { OnErr result (stop_story self.new ≡ stop_story self.old) }
        ensures cause { HasCause (stop_disk_faults self.old) (stop_disk_faults self.new) result }
        ensures fault { OnErr result (stop_disk_faults self.new ≡ counted (stop_disk_faults self.old)) }
        ensures outlet { stop_out_faults self.new ≡ stop_out_faults self.old }
        ensures stopped { IsStopped self.old → IsErr result }
        ensures passed { OnOk result (PassesBefore Sync self.old self.new) }
        ensures failed { OnErr result (DidNothing self.old self.new) }
    {
        if self.is_stopped() || self.tape.keep_sync().is_err() {
            return Err(self.tape.fail_disk());
        }
        Ok(())
    }

    /// Sends the bytes. `Failed` comes where the plant has stopped, or memory is refused; nothing is sent then.
    fn emit(&mut self, bytes: &[u8]) -> Result<(), Failed>
        ensures all { OnOk result (stop_story self.new ≡ emit_all bytes.now (stop_story self.old)) }
        ensures none { OnErr result (stop_story self.new ≡ stop_story self.old) }
        ensures cause { HasCause (stop_out_faults self.old) (stop_out_faults self.new) result }
        ensures fault { OnErr result (stop_out_faults self.new ≡ counted (stop_out_faults self.old)) }
        ensures disk { stop_disk_faults self.new ≡ stop_disk_faults self.old }
        ensures stopped { IsStopped self.old → IsErr result }
        ensures passed { OnOk result (PassesBefore Emit self.old self.new) }
        ensures failed { OnErr result (DidNothing self.old self.new) }
    {
        if self.is_stopped() || self.tape.keep_emit(bytes).is_err() {
            return Err(self.tape.fail_out());
        }
        Ok(())
    }
}
