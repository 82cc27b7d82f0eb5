// The file of a plant in memory: its bytes at the start, and its bytes now. It copies them at the first write.
ghost use Rattle.std.specs.Prelude.{◌≡◌, ◌≤◌, length, OnOk, OnErr};
ghost use Rattle.plant_io.specs.Story.{put};
ghost use Rattle.plant_mem.specs.Disk.{start_of, bytes_now};

use aftr_base::{List, NoMemory};
use std::alloc::Global;

/// A file in memory.
#[derive(Drop)]
pub struct Disk {
    start: List<u8>,
    changed: Option<Vec<u8>>,
}

impl Disk {
    /// A file of these bytes. It takes no memory.
    pub fn new(start: List<u8>) -> Self
        ensures start { start_of result ≡ start }
        ensures bytes { bytes_now result ≡ start }
    {
        Disk {
            start,
            changed: None,
        }
    }

    /// The bytes at the start.
    pub fn start(&self) -> &[u8]
        ensures { result.now ≡ start_of self.now }
    {
        self.start.as_slice()
    }

    /// The bytes now.
    pub fn bytes(&self) -> &[u8]
        ensures { result.now ≡ bytes_now self.now }
    {
        match &self.changed {
            Some(bytes) => bytes,
            None => self.start.as_slice(),
        }
    }

    /// Writes from the byte `at` on, over what is there and past the end. `NoMemory` changes nothing.
    pub fn put(&mut self, alloc: Global, at: usize, bytes: &[u8]) -> Result<(), NoMemory>
        requires { at ≤ length (bytes_now self.old) }
        ensures ok { OnOk result (bytes_now self.new ≡ put at bytes.now (bytes_now self.old)) }
        ensures err { OnErr result (bytes_now self.new ≡ bytes_now self.old) }
        ensures start { start_of self.new ≡ start_of self.old }
    {
        match &mut self.changed {
            Some(changed) => overlay(changed, at, bytes),
            None => {
                let mut changed = self.start.as_slice().to_vec(alloc)?;
                overlay(&mut changed, at, bytes)?;
                self.changed = Some(changed);
                Ok(())
            }
        }
    }
}

/// Writes over the bytes from the byte `at` on, and past the end. `NoMemory` changes nothing.
pub fn overlay(file: &mut Vec<u8>, at: usize, bytes: &[u8]) -> Result<(), NoMemory>
    requires { at ≤ length file.old.items }
    ensures ok { OnOk result (file.new.items ≡ put at bytes.now file.old.items) }
    ensures err { OnErr result (file.new.items ≡ file.old.items) }
{
    let overlap = bytes.len().min(file.len() - at);
    file.extend_from_slice(&bytes[overlap..])?;
    file[at..at + overlap].copy_from_slice(&bytes[..overlap]);
    Ok(())
}
