//! A file that is read in order.
ghost use Rattle.std.specs.Prelude.{◌≡◌, [], ◌≤◌, length, IfOk, OnOk, OnErr, IsErr, IsNone};
ghost use Rattle.plant_io.specs.Causes.{HasCause, counted};

use crate::faults::{count_fault, opened};
use crate::file_id::FileId;
use plant_io::{Failed, Source};
use std::fs::File;
use std::io;
use std::io::Read;
use std::rt::Files;

/// A file that is read in order, from its first byte on. It tells no content, and counts the reads that failed.
#[derive(Drop)]
pub struct FileSource {
    file: Option<File>,
    faults: u64,
}

impl FileSource {
    /// The file at this path. Where it can't be opened every read fails; so it does without a path, and then no file is
    /// touched.
    pub fn open(rt: &impl Files<File = File>, path: Option<&str>) -> Self
        ensures faults { result.faults ≡ 0 }
        ensures unnamed { IsNone path.entry → IsNone result.file }
    {
        let file = match path {
            Some(path) => File::open(rt, path).ok(),
            None => None,
        };
        FileSource { file, faults: 0 }
    }

    /// What its file is known by, or `None` where it has none or no regular one.
    pub fn id(&self) -> io::Result<Option<FileId>> {
        match &self.file {
            Some(file) => FileId::of(file),
            None => Ok(None),
        }
    }
}

impl Source for FileSource {
    ghost tells = { ⊥ };

    ghost taken = { λ source. [] };

    ghost rest = { λ source. [] };

    ghost faults = { λ source. source.faults };

    fn read(&mut self, buf: &mut [u8]) -> Result<usize, Failed>
        ensures within { IfOk result (λ count. count ≤ length buf.new) }
        ensures cause { HasCause self.old.faults self.new.faults result }
        ensures no_fault { OnOk result (self.new ≡ self.old) }
        ensures fault { OnErr result (self.new ≡ record self.old { faults = counted self.old.faults }) }
        ensures missing { IsNone self.old.file → IsErr result }
    {
        count_fault(read_next(&self.file, buf), &mut self.faults)
    }
}

fn read_next(file: &Option<File>, buf: &mut [u8]) -> io::Result<usize>
    ensures within { IfOk result (λ count. count ≤ length buf.new) }
    ensures missing { IsNone file.now → IsErr result }
{
    let mut file = opened(file)?;
    file.read(buf)
}
