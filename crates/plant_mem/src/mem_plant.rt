// A file and an outlet in memory, of which chosen calls fail.
ghost use Rattle.std.specs.Prelude.{◌≡◌, ◌↔◌, ◌≤◌, ◌-◌, ◌/◌, [], ◌∷◌, length, take, drop, min, IsTrue, IfOk, OnOk, OnErr};
ghost use Rattle.plant_io.specs.Causes.{HasCause, counted};
ghost use Rattle.plant_io.specs.Story.{wrote, synced, content, sent, emit_all, IsSettled};
ghost use Rattle.plant_mem.specs.declared.tape.PlantCall.TheVariants.{Size, ReadAt, WriteAt, Sync, Emit};
ghost use Rattle.plant_mem.specs.Plants.{mem_story, mem_calls, mem_fail_at, mem_disk_faults, mem_out_faults, IsPlanned, Passes, Fails};

use crate::plan::is_planned;
use crate::tape::{PlantCall, Tape};
use aftr_base::List;
use plant_io::{Failed, Plant};
use std::alloc::Global;

/// A plant in memory. Its calls of all five kinds are numbered together from 0, and those whose numbers stand in
/// `fail_at` fail. A call whose record or bytes memory refuses fails too; it does nothing and isn't numbered.
#[derive(Drop)]
pub struct MemPlant {
    tape: Tape,
    fail_at: List<u64>,
}

impl MemPlant {
    /// A plant whose file holds the image, synced, and that has sent nothing. It takes no memory; calls take it from
    /// `alloc`.
    pub fn new(alloc: Global, image: List<u8>, fail_at: List<u64>) -> Self
        ensures content { content (mem_story result) ≡ image }
        ensures nothing_sent { sent (mem_story result) ≡ [] }
        ensures settled { IsSettled (mem_story result) }
        ensures fail_at { mem_fail_at result ≡ fail_at }
        ensures calls { mem_calls result ≡ [] }
        ensures disk_faults { mem_disk_faults result ≡ 0 }
        ensures out_faults { mem_out_faults result ≡ 0 }
    {
        MemPlant {
            tape: Tape::new(alloc, image),
            fail_at,
        }
    }

    /// The file as a read gives it.
    pub fn content(&self) -> &[u8]
        ensures { result.now ≡ content (mem_story self.now) }
    {
        self.tape.content()
    }

    /// The bytes that were sent.
    pub fn sent(&self) -> &[u8]
        ensures { result.now ≡ sent (mem_story self.now) }
    {
        self.tape.sent()
    }

    /// The kinds of the calls made, in order, those that failed as planned among them.
    pub fn calls(&self) -> &[PlantCall]
        ensures { result.now ≡ mem_calls self.now }
    {
        self.tape.calls()
    }

    // Whether the next call is to fail.
    fn is_next_planned(&self) -> bool
        ensures { IsTrue result ↔ IsPlanned self.now }
    {
        is_planned(self.fail_at.as_slice(), self.tape.calls().len() as u64)
    }
}

impl Plant for MemPlant {
    ghost tells = { Unit {0} };

    ghost story = { mem_story };

    ghost disk_faults = { mem_disk_faults };

    ghost out_faults = { mem_out_faults };

    /// The length of the content in bytes. `Failed` comes where the call's number is planned, or memory is refused.
    fn size(&mut self) -> Result<u64, Failed>
        ensures answer { IfOk result (λ size. size ≡ length (content (mem_story self.old))) }
        ensures same { mem_story self.new ≡ mem_story self.old }
        ensures cause { HasCause (mem_disk_faults self.old) (mem_disk_faults self.new) result }
        ensures fault { OnErr result (mem_disk_faults self.new ≡ counted (mem_disk_faults self.old)) }
        ensures outlet { mem_out_faults self.new ≡ mem_out_faults self.old }
        ensures passed { OnOk result (Passes Size self.old self.new) }
        ensures failed { OnErr result (Fails Size (mem_story self.old) self.old self.new) }
    {
        let planned = self.is_next_planned();
        if self.tape.note(PlantCall::Size).is_err() || planned {
            return Err(self.tape.fail_disk());
        }
        Ok(self.tape.content().len() as u64)
    }

    /// Reads from the byte `at` on. `Failed` comes where the call's number is planned, or memory is refused.
    fn read_at(&mut self, at: u64, buf: &mut [u8]) -> Result<usize, Failed>
        ensures within { IfOk result (λ count. count ≤ length buf.new) }
        ensures count { IfOk result (λ count. count ≡ min (length buf.new) (length (content (mem_story self.old)) - at)) }
        ensures bytes { IfOk result (λ count. take count buf.new ≡ take count (drop at (content (mem_story self.old)))) }
        ensures same { mem_story self.new ≡ mem_story self.old }
        ensures cause { HasCause (mem_disk_faults self.old) (mem_disk_faults self.new) result }
        ensures fault { OnErr result (mem_disk_faults self.new ≡ counted (mem_disk_faults self.old)) }
        ensures outlet { mem_out_faults self.new ≡ mem_out_faults self.old }
        ensures passed { OnOk result (Passes ReadAt self.old self.new) }
        ensures failed { OnErr result (Fails ReadAt (mem_story self.old) self.old self.new) }
    {
        let planned = self.is_next_planned();
        if self.tape.note(PlantCall::ReadAt).is_err() || planned {
            return Err(self.tape.fail_disk());
        }
        Ok(self.tape.copy_at(at, buf))
    }

    /// Writes from the byte `at` on. `Failed` comes where the call's number is planned, and then the first half of the
    /// bytes, rounded down, is stored; or memory is refused.
    fn write_at(&mut self, at: u64, bytes: &[u8]) -> Result<(), Failed>
        requires { at ≤ length (content (mem_story self.old)) }
        ensures written { OnOk result (mem_story self.new ≡ wrote at bytes.now 0 ∷ mem_story self.old) }
        ensures cause { HasCause (mem_disk_faults self.old) (mem_disk_faults self.new) result }
        ensures fault { OnErr result (mem_disk_faults self.new ≡ counted (mem_disk_faults self.old)) }
        ensures outlet { mem_out_faults self.new ≡ mem_out_faults self.old }
        ensures passed { OnOk result (Passes WriteAt self.old self.new) }
        ensures failed { OnErr result (let half = length bytes.now / 2 in
            Fails WriteAt (wrote at (take half bytes.now) (length bytes.now - half) ∷ mem_story self.old) self.old self.new) }
    {
        let planned = self.is_next_planned();
        let stored = if planned {
            &bytes[..bytes.len() / 2]
        } else {
            bytes
        };
        let lost = bytes.len() - stored.len();
        match self.tape.keep_write(at as usize, stored, lost) {
            Err(_) => Err(self.tape.fail_disk()),
            Ok(()) if planned => Err(self.tape.fail_disk()),
            Ok(()) => Ok(()),
        }
    }

    /// Syncs the file. `Failed` comes where the call's number is planned, or memory is refused; nothing is synced then.
    fn sync(&mut self) -> Result<(), Failed>
        ensures durable { OnOk result (mem_story self.new ≡ synced ∷ mem_story self.old) }
        ensures same { OnErr result (mem_story self.new ≡ mem_story self.old) }
        ensures cause { HasCause (mem_disk_faults self.old) (mem_disk_faults self.new) result }
        ensures fault { OnErr result (mem_disk_faults self.new ≡ counted (mem_disk_faults self.old)) }
        ensures outlet { mem_out_faults self.new ≡ mem_out_faults self.old }
        ensures passed { OnOk result (Passes Sync self.old self.new) }
        ensures failed { OnErr result (Fails Sync (mem_story self.old) self.old self.new) }
    {
        let planned = self.is_next_planned();
        let kept = if planned {
            self.tape.note(PlantCall::Sync)
        } else {
            self.tape.keep_sync()
        };
        if kept.is_err() || planned {
            return Err(self.tape.fail_disk());
        }
        Ok(())
    }

    /// Sends the bytes. `Failed` comes where the call's number is planned, or memory is refused; nothing is sent then.
    fn emit(&mut self, bytes: &[u8]) -> Result<(), Failed>
        ensures all { OnOk result (mem_story self.new ≡ emit_all bytes.now (mem_story self.old)) }
        ensures none { OnErr result (mem_story self.new ≡ mem_story self.old) }
        ensures cause { HasCause (mem_out_faults self.old) (mem_out_faults self.new) result }
        ensures fault { OnErr result (mem_out_faults self.new ≡ counted (mem_out_faults self.old)) }
        ensures disk { mem_disk_faults self.new ≡ mem_disk_faults self.old }
        ensures passed { OnOk result (Passes Emit self.old self.new) }
        ensures failed { OnErr result (Fails Emit (mem_story self.old) self.old self.new) }
    {
        let planned = self.is_next_planned();
        let kept = if planned {
            self.tape.note(PlantCall::Emit)
        } else {
            self.tape.keep_emit(bytes)
        };
        if kept.is_err() || planned {
            return Err(self.tape.fail_out());
        }
        Ok(())
    }
}
