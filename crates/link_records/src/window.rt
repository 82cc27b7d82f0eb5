//! The buffer between a source and its records.
ghost use Rattle.std.specs.Prelude.{◌≡◌, ◌+◌, ◌<◌, ◌≤◌, [], ◌++◌, length, take, drop, IfOk, OnErr};
ghost use Rattle.plant_io.specs.Causes.{HasCause};

use aftr_base::NoMemory;
use plant_io::{Failed, Source};
use std::alloc::Global;

/// The bytes of the buffer: the longest record, and 64 KiB. A read comes only while the longest record
/// is not at hand, so it is offered at least 64 KiB of room.
const SIZE: usize = 65_588 + 65_536;

/// The bytes that were read and not passed yet, from `first` up to `end` of a buffer that never grows.
#[derive(Drop)]
pub(crate) struct Window {
    buffer: Vec<u8>,
    first: usize,
    end: usize,
    ghost ordered: { first ≤ end },
    ghost within: { end ≤ 131124 },
    ghost size: { length buffer.items ≡ 131124 },
}

/// What one more read gave.
#[derive(Clone, Copy)]
pub(crate) enum Fill {
    /// At least one byte more.
    More,
    /// The input's end.
    End,
    /// The input could not be read.
    Failed,
}

impl Window {
    ghost use Rattle.link_records.specs.Front.{longest_frame};
    ghost use Rattle.link_records.specs.Window.{held, Fills, FillsWhole};

    /// An empty window.
    pub(crate) fn new(alloc: Global) -> Result<Window, NoMemory>
        ensures { IfOk result (λ window. held window ≡ []) }
    {
        let buffer = vec![in alloc; 0; SIZE]?;
        Ok(Window {
            buffer,
            first: 0,
            end: 0,
        })
    }

    /// The bytes at hand.
    pub(crate) fn as_slice(&self) -> &[u8]
        ensures { result.now ≡ held self.now }
    {
        &self.buffer[self.first..self.end]
    }

    /// Lets the first `count` bytes go.
    pub(crate) fn pass(&mut self, count: usize)
        requires { count ≤ length (held self.old) }
        ensures { held self.new ≡ drop count (held self.old) }
    {
        self.first += count;
    }

    /// Reads once, into all the room that there is behind the bytes at hand.
    pub(crate) fn fill<I: Source>(&mut self, input: &mut I) -> Fill
        requires { length (held self.old) < longest_frame }
        ensures kept { I.tells → FillsWhole (held self.old ++ I.rest input.old)
            (held self.new ++ I.rest input.new) (I.rest input.old) result }
        ensures progress { Fills (held self.old) (held self.new) (I.faults input.old)
            (I.faults input.new) result }
        ensures later { I.faults input.old ≤ I.faults input.new }
    {
        self.move_to_front();
        match read_behind(self.buffer.as_mut_slice(), self.end, input) {
            Ok(0) => Fill::End,
            Ok(count) => {
                self.end += count;
                Fill::More
            }
            Err(Failed) => Fill::Failed,
        }
    }

    /// Moves the bytes at hand to the buffer's start.
    fn move_to_front(&mut self)
        ensures held { held self.new ≡ held self.old }
        ensures first { self.new.first ≡ 0 }
    {
        if self.first == 0 {
            return;
        }
        let (first, end) = (self.first, self.end);
        self.buffer.as_mut_slice().copy_within(first..end, 0);
        self.first = 0;
        self.end = end - first;
    }
}

/// Reads once into the bytes from `end` on, and leaves those before it.
fn read_behind<I: Source>(buffer: &mut [u8], end: usize, input: &mut I) -> Result<usize, Failed>
    requires { end < length buffer.old }
    ensures within { IfOk result (λ count. end + count ≤ length buffer.new) }
    ensures front { take end buffer.new ≡ take end buffer.old }
    ensures bytes { I.tells → IfOk result
        (λ count. take (end + count) buffer.new ++ I.rest input.new
        ≡ take end buffer.old ++ I.rest input.old) }
    ensures stops { I.tells → IfOk result (λ count. count ≡ 0 → I.rest input.old ≡ []) }
    ensures rest { I.tells → OnErr result (I.rest input.new ≡ I.rest input.old) }
    ensures cause { HasCause (I.faults input.old) (I.faults input.new) result }
{
    input.read(&mut buffer[end..])
}
