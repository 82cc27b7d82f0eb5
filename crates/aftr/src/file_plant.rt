//! A log file and an outlet file.
ghost use Rattle.std.specs.Prelude.{◌≡◌, [], ◌≤◌, length, IfOk, OnOk, OnErr, IsErr, IsNone};
ghost use Rattle.plant_io.specs.Causes.{HasCause, counted};

use crate::faults::{count_fault, opened};
use crate::file_id::FileId;
use crate::opening::{Outlet, open_log, open_outlet};
use aftr_base::NoMemory;
use aftr_engine::LogUse;
use plant_io::{Failed, Plant};
use std::fs::File;
use std::io;
use std::io::Write;
use std::os::unix::fs::FileExt;
use std::rt::Files;

/// A log file, and an outlet file that packets are written to. It tells no content, and counts the calls that failed on each.
#[derive(Drop)]
pub struct FilePlant {
    log: Option<File>,
    outlet: Option<File>,
    disk_faults: u64,
    out_faults: u64,
}

/// The paths of a log and an outlet, where the words name them, and what is done with the log.
#[derive(Clone, Copy, Debug)]
pub struct PlantPaths<'a> {
    pub log: Option<&'a str>,
    pub log_use: LogUse,
    pub outlet: Option<&'a str>,
}

impl FilePlant {
    /// The log at its path, which keeps its bytes, and the outlet at its path, which starts empty. Where one can't be opened every
    /// call on it fails; so it does without a path, and then no file is touched.
    ///
    /// Where the log can't be opened, another command's lock on it among the causes, the outlet keeps its bytes and every call
    /// on it fails. Where the outlet is the log or one of the other files, every call on both fails, and none of these files is
    /// emptied or written.
    pub fn open(
        rt: &impl Files<File = File>,
        paths: &PlantPaths<'_>,
        others: &mut Vec<FileId>,
    ) -> Result<Self, NoMemory>
        ensures disk { IfOk result (λ plant. plant.disk_faults ≡ 0) }
        ensures outlet { IfOk result (λ plant. plant.out_faults ≡ 0) }
        ensures unnamed_log { IsNone paths.now.log → IfOk result (λ plant. IsNone plant.log) }
        ensures unnamed_outlet { IsNone paths.now.outlet → IfOk result (λ plant. IsNone plant.outlet) }
    {
        let log = match paths.log {
            Some(path) => open_log(rt, path, paths.log_use).ok(),
            None => None,
        };
        let Some(log) = log else {
            return Ok(FilePlant::without_files());
        };
        match FileId::of(&log) {
            Ok(Some(id)) => others.push(id)?,
            Ok(None) => {}
            Err(_) => return Ok(FilePlant::without_files()),
        }
        let outlet = match paths.outlet {
            Some(path) => open_outlet(rt, path, others),
            None => Outlet::Missing,
        };
        Ok(match outlet {
            Outlet::Open(outlet) => FilePlant::with_files(Some(log), Some(outlet)),
            Outlet::Missing => FilePlant::with_files(Some(log), None),
            Outlet::Shared => FilePlant::without_files(),
        })
    }

    // No file: every call fails.
    fn without_files() -> Self
        ensures disk { result.disk_faults ≡ 0 }
        ensures outlet { result.out_faults ≡ 0 }
        ensures no_log { IsNone result.log }
        ensures no_outlet { IsNone result.outlet }
    {
        FilePlant::with_files(None, None)
    }

    fn with_files(log: Option<File>, outlet: Option<File>) -> Self
        ensures log { result.log ≡ log }
        ensures outlet { result.outlet ≡ outlet }
        ensures disk { result.disk_faults ≡ 0 }
        ensures out { result.out_faults ≡ 0 }
    {
        FilePlant {
            log,
            outlet,
            disk_faults: 0,
            out_faults: 0,
        }
    }
}

impl Plant for FilePlant {
    ghost tells = { ⊥ };

    ghost story = { λ plant. [] };

    ghost disk_faults = { λ plant. plant.disk_faults };

    ghost out_faults = { λ plant. plant.out_faults };

    fn size(&mut self) -> Result<u64, Failed>
        ensures cause { HasCause self.old.disk_faults self.new.disk_faults result }
        ensures outlet { self.new.out_faults ≡ self.old.out_faults }
        ensures no_fault { OnOk result (self.new ≡ self.old) }
        ensures fault { OnErr result (self.new ≡ record self.old { disk_faults = counted self.old.disk_faults }) }
        ensures missing { IsNone self.old.log → IsErr result }
    {
        count_fault(size_of(&self.log), &mut self.disk_faults)
    }

    fn read_at(&mut self, at: u64, buf: &mut [u8]) -> Result<usize, Failed>
        ensures within { IfOk result (λ count. count ≤ length buf.new) }
        ensures cause { HasCause self.old.disk_faults self.new.disk_faults result }
        ensures outlet { self.new.out_faults ≡ self.old.out_faults }
        ensures no_fault { OnOk result (self.new ≡ self.old) }
        ensures fault { OnErr result (self.new ≡ record self.old { disk_faults = counted self.old.disk_faults }) }
        ensures missing { IsNone self.old.log → IsErr result }
    {
        count_fault(read_from(&self.log, at, buf), &mut self.disk_faults)
    }

    fn write_at(&mut self, at: u64, bytes: &[u8]) -> Result<(), Failed>
        ensures cause { HasCause self.old.disk_faults self.new.disk_faults result }
        ensures outlet { self.new.out_faults ≡ self.old.out_faults }
        ensures no_fault { OnOk result (self.new ≡ self.old) }
        ensures fault { OnErr result (self.new ≡ record self.old { disk_faults = counted self.old.disk_faults }) }
        ensures missing { IsNone self.old.log → IsErr result }
    {
        count_fault(write_to(&self.log, at, bytes), &mut self.disk_faults)
    }

    fn sync(&mut self) -> Result<(), Failed>
        ensures cause { HasCause self.old.disk_faults self.new.disk_faults result }
        ensures outlet { self.new.out_faults ≡ self.old.out_faults }
        ensures no_fault { OnOk result (self.new ≡ self.old) }
        ensures fault { OnErr result (self.new ≡ record self.old { disk_faults = counted self.old.disk_faults }) }
        ensures missing { IsNone self.old.log → IsErr result }
    {
        count_fault(sync_file(&self.log), &mut self.disk_faults)
    }

    fn emit(&mut self, bytes: &[u8]) -> Result<(), Failed>
        ensures cause { HasCause self.old.out_faults self.new.out_faults result }
        ensures disk { self.new.disk_faults ≡ self.old.disk_faults }
        ensures no_fault { OnOk result (self.new ≡ self.old) }
        ensures fault { OnErr result (self.new ≡ record self.old { out_faults = counted self.old.out_faults }) }
        ensures missing { IsNone self.old.outlet → IsErr result }
    {
        count_fault(send(&self.outlet, bytes), &mut self.out_faults)
    }
}

fn size_of(file: &Option<File>) -> io::Result<u64>
    ensures missing { IsNone file.now → IsErr result }
{
    Ok(opened(file)?.metadata()?.len())
}

// Reads as many bytes as the buffer has room for, unless the file ends before.
fn read_from(file: &Option<File>, at: u64, buf: &mut [u8]) -> io::Result<usize>
    ensures within { IfOk result (λ count. count ≤ length buf.new) }
    ensures missing { IsNone file.now → IsErr result }
{
    let left = size_of(file)?.saturating_sub(at);
    let count = left.min(buf.len() as u64) as usize;
    opened(file)?.read_exact_at(&mut buf[..count], at)?;
    Ok(count)
}

fn write_to(file: &Option<File>, at: u64, bytes: &[u8]) -> io::Result<()>
    ensures missing { IsNone file.now → IsErr result }
{
    opened(file)?.write_all_at(bytes, at)
}

// A flush would leave the bytes in the system's memory.
fn sync_file(file: &Option<File>) -> io::Result<()>
    ensures missing { IsNone file.now → IsErr result }
{
    opened(file)?.sync_data()
}

fn send(file: &Option<File>, bytes: &[u8]) -> io::Result<()>
    ensures missing { IsNone file.now → IsErr result }
{
    let mut file = opened(file)?;
    file.write_all(bytes)
}
