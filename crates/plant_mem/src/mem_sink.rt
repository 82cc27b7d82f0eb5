// Bytes in memory that go out.
ghost use Rattle.std.specs.Prelude.{◌≡◌, ◌++◌, [], OnOk, OnErr};
ghost use Rattle.std.specs.List.{Contains};
ghost use Rattle.plant_io.specs.Causes.{HasCause, counted};
ghost use Rattle.plant_mem.specs.Sources.{sink_written, sink_fail_at, sink_calls, sink_faults};

use crate::plan::is_planned;
use aftr_base::List;
use plant_io::{Failed, Sink};
use std::alloc::Global;

/// A sink of bytes in memory. Its writes are numbered from 0. Those whose numbers stand in `fail_at` fail, and one for
/// whose bytes memory is refused fails too. A write that fails adds nothing.
#[derive(Drop)]
pub struct MemSink {
    bytes: List<u8>,
    fail_at: List<u64>,
    calls: u64,
    failures: u64,
}

impl MemSink {
    /// A sink to which nothing was written. It takes no memory; a write takes it from `alloc`.
    pub fn new(alloc: Global, fail_at: List<u64>) -> Self
        ensures written { sink_written result ≡ [] }
        ensures fail_at { sink_fail_at result ≡ fail_at }
        ensures calls { sink_calls result ≡ 0 }
        ensures faults { sink_faults result ≡ 0 }
    {
        MemSink {
            bytes: List::new(alloc),
            fail_at,
            calls: 0,
            failures: 0,
        }
    }

    /// The bytes that were written so far.
    pub fn written(&self) -> &[u8]
        ensures { result.now ≡ sink_written self.now }
    {
        self.bytes.as_slice()
    }
}

impl Sink for MemSink {
    ghost tells = { Unit {0} };

    ghost written = { sink_written };

    ghost faults = { sink_faults };

    /// Writes all the bytes. `Failed` comes where the write's number is planned or memory is refused, and nothing is
    /// written then.
    fn write(&mut self, bytes: &[u8]) -> Result<(), Failed>
        ensures all { OnOk result (sink_written self.new ≡ sink_written self.old ++ bytes.now) }
        ensures none { OnErr result (sink_written self.new ≡ sink_written self.old) }
        ensures cause { HasCause (sink_faults self.old) (sink_faults self.new) result }
        ensures unplanned { OnOk result (¬ Contains (sink_fail_at self.old) (sink_calls self.old)) }
        ensures numbered { sink_calls self.new ≡ counted (sink_calls self.old) }
        ensures fail_at { sink_fail_at self.new ≡ sink_fail_at self.old }
        ensures no_fault { OnOk result (sink_faults self.new ≡ sink_faults self.old) }
        ensures fault { OnErr result (sink_faults self.new ≡ counted (sink_faults self.old)) }
    {
        let planned = is_planned(self.fail_at.as_slice(), self.calls);
        self.calls = self.calls.saturating_add(1);
        if planned || self.bytes.extend_from_slice(bytes).is_err() {
            self.failures = self.failures.saturating_add(1);
            return Err(Failed);
        }
        Ok(())
    }
}
