// Bytes in memory that come in.
ghost use Rattle.std.specs.Prelude.{◌≡◌, ◌<◌, ◌≤◌, ◌↔◌, [], length, min, max, IsOk, IsErr, IfOk, OnOk, OnErr};
ghost use Rattle.std.specs.List.{Contains};
ghost use Rattle.plant_io.specs.Causes.{HasCause, counted};
ghost use Rattle.plant_io.specs.Source.{TakesNext};

use crate::plan::is_planned;
use aftr_base::List;
use plant_io::{Failed, Source};

/// A source of bytes in memory. A read gives at most `piece` bytes. Its reads are numbered from 0, and those whose
/// numbers stand in `fail_at` fail; no other read fails.
#[derive(Drop)]
pub struct MemSource {
    bytes: List<u8>,
    at: usize,
    piece: usize,
    fail_at: List<u64>,
    calls: u64,
    failures: u64,
    ghost inside: { at ≤ length bytes },
    ghost goes_on: { 0 < piece },
}

impl MemSource {
    ghost use Rattle.plant_mem.specs.Sources.{source_taken, source_rest, source_piece, source_fail_at, source_calls, source_faults};

    /// A source of these bytes, of which nothing was taken. `piece` is in bytes, and 0 counts as 1. It takes no memory.
    pub fn new(bytes: List<u8>, piece: usize, fail_at: List<u64>) -> Self
        ensures taken { source_taken result ≡ [] }
        ensures rest { source_rest result ≡ bytes }
        ensures piece { source_piece result ≡ max piece 1 }
        ensures fail_at { source_fail_at result ≡ fail_at }
        ensures calls { source_calls result ≡ 0 }
        ensures faults { source_faults result ≡ 0 }
    {
        MemSource {
            bytes,
            at: 0,
            piece: piece.max(1),
            fail_at,
            calls: 0,
            failures: 0,
        }
    }
}

impl Source for MemSource {
    ghost use Rattle.plant_mem.specs.Sources.{source_taken, source_rest, source_piece, source_fail_at, source_calls, source_faults};

    ghost tells = { Unit {0} };

    ghost taken = { source_taken };

    ghost rest = { source_rest };

    ghost faults = { source_faults };

    /// Gives as many bytes as `buf` and `piece` allow and as are left. `Failed` comes where the read's number is
    /// planned, and only there.
    fn read(&mut self, buf: &mut [u8]) -> Result<usize, Failed>
        ensures within { IfOk result (λ count. count ≤ length buf.new) }
        ensures bytes { IfOk result (λ count.
            TakesNext (source_rest self.old) (source_rest self.new) (source_taken self.old) (source_taken self.new) (length buf.new) count buf.new) }
        ensures rest_kept { OnErr result (source_rest self.new ≡ source_rest self.old) }
        ensures taken_kept { OnErr result (source_taken self.new ≡ source_taken self.old) }
        ensures cause { HasCause (source_faults self.old) (source_faults self.new) result }
        ensures planned { IsErr result ↔ Contains (source_fail_at self.old) (source_calls self.old) }
        ensures count { IfOk result (λ count. count ≡ min (min (length buf.new) (source_piece self.old)) (length (source_rest self.old))) }
        ensures numbered { source_calls self.new ≡ counted (source_calls self.old) }
        ensures fail_at { source_fail_at self.new ≡ source_fail_at self.old }
        ensures piece { source_piece self.new ≡ source_piece self.old }
        ensures no_fault { OnOk result (source_faults self.new ≡ source_faults self.old) }
        ensures fault { OnErr result (source_faults self.new ≡ counted (source_faults self.old)) }
    {
        let planned = is_planned(self.fail_at.as_slice(), self.calls);
        self.calls = self.calls.saturating_add(1);
        if planned {
            self.failures = self.failures.saturating_add(1);
            return Err(Failed);
        }
        let count = buf.len().min(self.piece).min(self.bytes.len() - self.at);
        buf[..count].copy_from_slice(&self.bytes.as_slice()[self.at..self.at + count]);
        self.at += count;
        Ok(count)
    }
}

/// A source of bytes in memory that never fails.
#[derive(Drop)]
pub struct NoFaultSource {
    bytes: List<u8>,
    at: usize,
    ghost inside: { at ≤ length bytes },
}

impl NoFaultSource {
    ghost use Rattle.plant_mem.specs.Sources.{no_fault_taken, no_fault_rest};

    /// A source of these bytes, of which nothing was taken. It takes no memory.
    pub fn new(bytes: List<u8>) -> Self
        ensures taken { no_fault_taken result ≡ [] }
        ensures rest { no_fault_rest result ≡ bytes }
    {
        NoFaultSource { bytes, at: 0 }
    }
}

impl Source for NoFaultSource {
    ghost use Rattle.plant_mem.specs.Sources.{no_fault_taken, no_fault_rest};

    ghost tells = { Unit {0} };

    ghost taken = { no_fault_taken };

    ghost rest = { no_fault_rest };

    ghost faults = { λ source. 0 };

    /// Gives as many bytes as `buf` has room for and as are left. `Failed` never comes.
    fn read(&mut self, buf: &mut [u8]) -> Result<usize, Failed>
        ensures within { IfOk result (λ count. count ≤ length buf.new) }
        ensures bytes { IfOk result (λ count.
            TakesNext (no_fault_rest self.old) (no_fault_rest self.new) (no_fault_taken self.old) (no_fault_taken self.new) (length buf.new) count buf.new) }
        ensures count { IfOk result (λ count. count ≡ min (length buf.new) (length (no_fault_rest self.old))) }
        ensures never_fails { IsOk result }
    {
        let count = buf.len().min(self.bytes.len() - self.at);
        buf[..count].copy_from_slice(&self.bytes.as_slice()[self.at..self.at + count]);
        self.at += count;
        Ok(count)
    }
}
