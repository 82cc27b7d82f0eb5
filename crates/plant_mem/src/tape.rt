// What a plant in memory keeps of its calls.
ghost use Rattle.std.specs.Prelude.{◌≡◌, ◌≤◌, ◌-◌, [], ◌∷◌, ◌++◌, List as Items, length, min, take, drop, IfOk, OnOk, OnErr};
ghost use Rattle.plant_io.specs.Story.{wrote, synced, content, sent, durable, emit_all};
ghost use Rattle.plant_io.specs.Causes.{Rose, counted};
ghost use Rattle.plant_mem.specs.declared.tape.PlantCall.TheVariants.{Size, ReadAt, WriteAt, Sync, Emit};
ghost use Rattle.plant_mem.specs.declared.tape.Kept.{Kept};
ghost use Rattle.plant_mem.specs.Tape.{begun, synced_bytes, Fills, IsFilled};

use crate::disk::{Disk, overlay};
use aftr_base::{List, NoMemory};
use plant_io::Failed;
use std::alloc::Global;
use std::marker::Model;

/// The kinds of a plant's calls, one for each method of the trait `Plant`.
#[derive(Clone, Copy, Debug, PartialEq, Eq)]
pub enum PlantCall {
    /// The size was asked for.
    Size,
    /// Bytes were read.
    ReadAt,
    /// Bytes were written.
    WriteAt,
    /// The file was synced.
    Sync,
    /// A piece was sent.
    Emit,
}

/// A step that can be seen after a stop.
#[derive(Drop)]
pub enum Kept {
    /// Bytes that were stored at a place, and how many more of the range weren't.
    Wrote(usize, Vec<u8>, usize),
    /// The file was synced.
    Synced,
    /// So many bytes left by the outlet.
    Emitted(usize),
}

/// A file, an outlet, and what was done to them.
#[derive(Drop)]
pub struct Tape {
    alloc: Global,
    disk: Disk,
    outlet: Vec<u8>,
    made: Vec<PlantCall>,
    kept: Vec<Kept>,
    disk_count: u64,
    out_count: u64,
}

impl Model for Tape {
    ghost use Rattle.plant_mem.specs.Disk.{start_of, bytes_now};
    ghost use Rattle.plant_mem.specs.Tape.{TapeValue, IsTold, story_of, begun};

    ghost Value = { TapeValue };

    ghost view = { λ t. record { story = story_of t.kept.items t.outlet.items (begun (start_of t.disk)); calls = t.made.items; disk_faults = t.disk_count; out_faults = t.out_count } };

    ghost invariant = { λ t. IsTold (start_of t.disk) (bytes_now t.disk) t.outlet.items t.kept.items };
}

impl Tape {
    /// A file of these bytes, synced, and an outlet that has sent nothing. It takes no memory.
    pub fn new(alloc: Global, image: List<u8>) -> Self
        ensures story { result.story ≡ begun image }
        ensures calls { result.calls ≡ [] }
        ensures disk_faults { result.disk_faults ≡ 0 }
        ensures out_faults { result.out_faults ≡ 0 }
    {
        Tape {
            alloc,
            disk: Disk::new(image),
            outlet: Vec::new(alloc),
            made: Vec::new(alloc),
            kept: Vec::new(alloc),
            disk_count: 0,
            out_count: 0,
        }
    }

    /// The file as a read gives it.
    pub fn content(&self) -> &[u8]
        ensures { result.now ≡ content self.now.story }
    {
        self.disk.bytes()
    }

    /// The bytes that were sent.
    pub fn sent(&self) -> &[u8]
        ensures { result.now ≡ sent self.now.story }
    {
        &self.outlet
    }

    /// The kinds of the calls that were kept, in order.
    pub fn calls(&self) -> &[PlantCall]
        ensures { result.now ≡ self.now.calls }
    {
        &self.made
    }

    /// Counts a failure of the file.
    pub fn fail_disk(&mut self) -> Failed
        ensures rose { Rose self.old.disk_faults self.new.disk_faults }
        ensures later { self.old.disk_faults ≤ self.new.disk_faults }
        ensures once { self.new ≡ record self.old { disk_faults = counted self.old.disk_faults } }
    {
        self.disk_count = self.disk_count.saturating_add(1);
        Failed
    }

    /// Counts a failure of the outlet.
    pub fn fail_out(&mut self) -> Failed
        ensures rose { Rose self.old.out_faults self.new.out_faults }
        ensures later { self.old.out_faults ≤ self.new.out_faults }
        ensures once { self.new ≡ record self.old { out_faults = counted self.old.out_faults } }
    {
        self.out_count = self.out_count.saturating_add(1);
        Failed
    }

    /// Keeps a call that made no step.
    pub fn note(&mut self, call: PlantCall) -> Result<(), NoMemory>
        ensures ok { OnOk result (self.new ≡ record self.old { calls = self.old.calls ++ call ∷ [] }) }
        ensures err { OnErr result (self.new ≡ self.old) }
    {
        self.made.push(call)?;
        Ok(())
    }

    /// Reads from the byte `at` on and answers how many bytes: as many as the buffer has room for, unless the file ends
    /// before.
    pub fn copy_at(&self, at: u64, buf: &mut [u8]) -> usize
        ensures within { result ≤ length buf.new }
        ensures count { result ≡ min (length buf.new) (length (content self.now.story) - at) }
        ensures bytes { take result buf.new ≡ take result (drop at (content self.now.story)) }
    {
        let file = self.disk.bytes();
        if at >= file.len() as u64 {
            return 0;
        }
        let count = buf.len().min(file.len() - at as usize);
        buf[..count].copy_from_slice(&file[at as usize..at as usize + count]);
        count
    }

    /// Stores bytes from the byte `at` on: a write, of whose range `lost` more bytes aren't stored. `Err` changes nothing.
    pub fn keep_write(&mut self, at: usize, stored: &[u8], lost: usize) -> Result<(), NoMemory>
        requires { at ≤ length (content self.old.story) }
        ensures ok { OnOk result (self.new ≡ record self.old {
          story = wrote at stored.now lost ∷ self.old.story;
          calls = self.old.calls ++ WriteAt ∷ [];
        }) }
        ensures err { OnErr result (self.new ≡ self.old) }
    {
        let bytes = stored.to_vec(self.alloc)?;
        self.made.reserve(1)?;
        self.kept.reserve(1)?;
        self.disk.put(self.alloc, at, stored)?;
        self.made.push(PlantCall::WriteAt)?;
        self.kept.push(Kept::Wrote(at, bytes, lost))?;
        Ok(())
    }

    /// A sync. `Err` changes nothing.
    pub fn keep_sync(&mut self) -> Result<(), NoMemory>
        ensures ok { OnOk result (self.new ≡ record self.old {
          story = synced ∷ self.old.story;
          calls = self.old.calls ++ Sync ∷ [];
        }) }
        ensures err { OnErr result (self.new ≡ self.old) }
    {
        self.made.reserve(1)?;
        self.kept.push(Kept::Synced)?;
        self.made.push(PlantCall::Sync)?;
        Ok(())
    }

    /// Sends a piece. `Err` changes nothing.
    pub fn keep_emit(&mut self, piece: &[u8]) -> Result<(), NoMemory>
        ensures ok { OnOk result (self.new ≡ record self.old {
          story = emit_all piece.now self.old.story;
          calls = self.old.calls ++ Emit ∷ [];
        }) }
        ensures err { OnErr result (self.new ≡ self.old) }
    {
        self.made.reserve(1)?;
        self.kept.reserve(1)?;
        self.outlet.extend_from_slice(piece)?;
        self.kept.push(Kept::Emitted(piece.len()))?;
        self.made.push(PlantCall::Emit)?;
        Ok(())
    }

    /// The file as a read gives it.
    pub fn copy(&self) -> Result<List<u8>, NoMemory>
        ensures { IfOk result (λ file. file ≡ content self.now.story) }
    {
        let file = self.disk.bytes().to_vec(self.alloc)?;
        Ok(List::from_vec(file))
    }

    /// The file as it was at the last sync.
    pub fn at_last_sync(&self) -> Result<List<u8>, NoMemory>
        ensures { IfOk result (λ file. file ≡ durable self.now.story) }
    {
        let mut file = self.disk.start().to_vec(self.alloc)?;
        let mut at_sync = self.disk.start().to_vec(self.alloc)?;
        for step in &self.kept {
            redo(step, &mut file, &mut at_sync)?;
        }
        Ok(List::from_vec(at_sync))
    }

    /// The file as a read gives it, but with this byte in each place in the range of a write since the last sync.
    pub fn filled(&self, byte: u8) -> Result<List<u8>, NoMemory>
        ensures { IfOk result (λ image. IsFilled byte self.now.story image) }
    {
        let file = self.disk.bytes();
        let mut image = file.to_vec(self.alloc)?;
        for step in &self.kept {
            fill(step, byte, file, &mut image);
        }
        Ok(List::from_vec(image))
    }
}

// Does a step again to the file, and keeps the file at a sync.
fn redo(step: &Kept, file: &mut Vec<u8>, at_sync: &mut Vec<u8>) -> Result<(), NoMemory>
    ensures { OnOk result ((rest : Items Kept) → synced_bytes rest file.new.items at_sync.new.items
        ≡ synced_bytes (step.now ∷ rest) file.old.items at_sync.old.items) }
{
    match step {
        Kept::Wrote(at, bytes, _) => {
            let inside = (*at).min(file.len());
            overlay(file, inside, bytes)?;
        }
        Kept::Synced => {
            at_sync.clear();
            at_sync.extend_from_slice(file)?;
        }
        Kept::Emitted(_) => {}
    }
    Ok(())
}

// Fills the range of a write. A sync puts the file's bytes back.
fn fill(step: &Kept, byte: u8, file: &[u8], image: &mut Vec<u8>)
    requires { length image.old.items ≡ length file.now }
    ensures length { length image.new.items ≡ length file.now }
    ensures filled { Fills byte step.now file.now image.old.items image.new.items }
{
    match step {
        Kept::Wrote(at, bytes, lost) => {
            let end = at
                .saturating_add(bytes.len())
                .saturating_add(*lost)
                .min(image.len());
            let start = (*at).min(end);
            for place in start..end {
                image[place] = byte;
            }
        }
        Kept::Synced => image.copy_from_slice(file),
        Kept::Emitted(_) => {}
    }
}
