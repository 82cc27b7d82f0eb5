//! A reader of records.
ghost use Rattle.std.specs.Prelude.{◌≡◌, ◌≤◌, ◌++◌, [], length, IfOk};
ghost use Rattle.link_records.specs.Frames.{input_limit};
ghost use Rattle.link_records.specs.Front.{event_of};
ghost use Rattle.link_records.specs.Window.{held};
ghost use Rattle.link_records.specs.Search.{Finds, FindsWhole, FailsFor};
ghost use Rattle.link_records.specs.Reader.{Reads};
ghost use Rattle.link_records.specs.Answers.{Advances, HasFault, IsBadHere, IsTimely, HoldsNone};

use crate::Next;
use crate::front::{Front, HEAD, Head, front_of};
use crate::window::{Fill, Window};
use aftr_base::{Event, List, NoMemory};
use plant_io::Source;
use std::alloc::Global;
use std::marker::Model;

/// Reads the records of one input, whatever pieces its source hands out. Contracts see the bytes that
/// were read ahead and the offset in the input, in bytes, at which they begin. The buffer of 128 KiB and
/// a little more is made once.
#[derive(Drop)]
pub struct FrameReader {
    window: Window,
    offset: u64,
}

impl Model for FrameReader {
    ghost use Rattle.std.specs.Prelude.{◌≤◌};
    ghost use Rattle.link_records.specs.Reader.{Reader};

    ghost Value = { Reader };

    ghost use Rattle.link_records.specs.Frames.{input_limit};
    ghost use Rattle.link_records.specs.Window.{held};

    ghost view = { λ r. record { held = held r.window; offset = r.offset } };

    ghost invariant = { λ r. r.offset ≤ input_limit };
}

/// What the search for the next record found.
#[derive(Clone, Copy)]
enum Found {
    /// A record, all of it at hand.
    Record(Head),
    /// The input's end.
    End,
    /// No record, before the input's end.
    Bad,
    /// The input could not be read.
    Failed,
}

impl FrameReader {
    /// A reader at the start of an input. `NoMemory` comes where there is none for its buffer.
    pub fn new(alloc: Global) -> Result<Self, NoMemory>
        ensures held { IfOk result (λ reader. reader.held ≡ []) }
        ensures offset { IfOk result (λ reader. reader.offset ≡ 0) }
    {
        let window = Window::new(alloc)?;
        Ok(FrameReader { window, offset: 0 })
    }

    /// The next record, with a memory of its own for its body. No other answer passes over anything, so a
    /// call after `Failed` or `NoMemory` tries again.
    ///
    /// `End` comes where no byte is left, `Bad` at bytes that are no record (cut short by the input's end
    /// among them), `Failed` where the source failed and no whole record is at hand, and `NoMemory` where there is
    /// none for the body.
    pub fn next<I: Source>(&mut self, alloc: Global, input: &mut I) -> Next
        ensures reads { I.tells → Reads self.old.offset (self.old.held ++ I.rest input.old)
            self.new.offset (self.new.held ++ I.rest input.new) result }
        ensures moment { IsTimely result }
        ensures advance { Advances self.old.offset self.new.offset result }
        ensures bad { IsBadHere self.old.offset result }
        ensures none { HoldsNone self.new.offset self.new.held result }
        ensures failed { HasFault (I.faults input.old) (I.faults input.new) result }
        ensures later { I.faults input.old ≤ I.faults input.new }
    {
        match find(&mut self.window, self.offset, input) {
            Found::Record(head) => match event_from(alloc, self.window.as_slice(), head) {
                Ok(event) => {
                    self.window.pass(head.len);
                    self.offset += head.len as u64;
                    Next::Got(event)
                }
                Err(NoMemory) => Next::NoMemory,
            },
            Found::End => Next::End,
            Found::Bad => Next::Bad(self.offset),
            Found::Failed => Next::Failed,
        }
    }
}

/// Reads until the window tells what stands at its front, which is at this offset of the input.
fn find<I: Source>(window: &mut Window, at: u64, input: &mut I) -> Found
    requires { at ≤ input_limit }
    ensures whole { I.tells → FindsWhole at (held window.old ++ I.rest input.old)
        (held window.new ++ I.rest input.new) result }
    ensures found { Finds at (held window.new) result }
    ensures failed { FailsFor (I.faults input.old) (I.faults input.new) result }
    ensures later { I.faults input.old ≤ I.faults input.new }
{
    loop {
        match front_of(window.as_slice(), at) {
            Front::Whole(head) => return Found::Record(head),
            Front::Bad => return Found::Bad,
            Front::Short => match window.fill(input) {
                Fill::More => {}
                Fill::End if window.as_slice().is_empty() => return Found::End,
                Fill::End => return Found::Bad,
                Fill::Failed => return Found::Failed,
            },
        }
    }
}

/// The record with this head at the front of these bytes.
fn event_from(alloc: Global, bytes: &[u8], head: Head) -> Result<Event, NoMemory>
    requires long { HEAD ≤ head.len }
    requires whole { head.len ≤ length bytes.now }
    ensures { IfOk result (λ event. event ≡ event_of bytes.now head) }
{
    let body = Vec::from_slice(alloc, &bytes[HEAD..head.len])?;
    Ok(Event {
        kind: head.kind,
        at: head.at,
        bytes: List::from_vec(body),
    })
}
