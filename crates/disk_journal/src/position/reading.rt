//! Reading the frames of a log in order.
ghost use Rattle.std.specs.Prelude.{◌≡◌, ◌+◌, ◌≤◌, ◌<◌, ◌^◌, ◌≢◌, length, drop, IfOk, Ok};
ghost use Rattle.aftr_base.specs.Bytes.{be32};
ghost use Rattle.plant_io.specs.Causes.{HasCause, Rose};
ghost use Rattle.plant_io.specs.Story.{content};
ghost use Rattle.disk_journal.specs.Frame.{IsNextFrame, IsFrameAt, OnGot, OpensAt};
ghost use Rattle.disk_journal.specs.Standing.{after_read};

use super::Journal;
use crate::format::{Frame, LEAST, MOST, OPEN};
use aftr_base::{List, u32_in};
use plant_io::{Failed, Plant};
use std::alloc::Global;
use std::mem;

impl Journal {
    /// Reads the frame at the gate where the journal stands. After `Got` its message is in `buf` and the journal stands at
    /// the next gate; after `Tail` it is at its tail; after every other answer it stands where it stood, and nothing is
    /// said of `buf`. `Failed` comes only where the plant's count of disk faults rose. Nothing is written.
    pub fn next_frame<P: Plant>(
        &mut self,
        alloc: Global,
        plant: &mut P,
        buf: &mut List<u8>,
    ) -> Frame
        ensures frame { P.tells →
            IsNextFrame (content (P.story plant.old)) self.old.at buf.new result }
        ensures bears { IsFrameAt self.old.at buf.new result }
        ensures stands { self.new ≡ after_read result buf.new self.old }
        ensures same { P.tells → P.story plant.new ≡ P.story plant.old }
        ensures failed { result ≡ Frame.Failed →
            Rose (P.disk_faults plant.old) (P.disk_faults plant.new) }
        ensures disk_count { P.disk_faults plant.old ≤ P.disk_faults plant.new }
        ensures outlet { P.out_faults plant.new ≡ P.out_faults plant.old }
    {
        let mut bytes = mem::replace(buf, List::new(alloc)).into_vec();
        let frame = match read_frame(plant, self.tail - 1, &mut bytes) {
            Ok(frame) => frame,
            Err(Failed) => Frame::Failed,
        };
        match frame {
            Frame::Got(_) => {
                self.tail += 5 + bytes.len() as u64;
                self.at_tail = false;
            }
            Frame::Tail => self.at_tail = true,
            Frame::Damaged(_) | Frame::Failed | Frame::NoMemory => {}
        }
        *buf = List::from_vec(bytes);
        frame
    }
}

// What stands at the gate at this offset: it is closed, or it is open and a frame stands behind it.
fn read_frame<P: Plant>(plant: &mut P, at: u64, bytes: &mut Vec<u8>) -> Result<Frame, Failed>
    ensures frame { P.tells →
        IfOk result (IsNextFrame (content (P.story plant.old)) at bytes.new.items) }
    ensures bears { IfOk result (IsFrameAt at bytes.new.items) }
    ensures fits { IfOk result (λ frame. OnGot frame (at + 6 + length bytes.new.items < 2 ^ 64)) }
    ensures failed { result ≢ Ok Frame.Failed }
    ensures same { P.tells → P.story plant.new ≡ P.story plant.old }
    ensures cause { HasCause (P.disk_faults plant.old) (P.disk_faults plant.new) result }
    ensures outlet { P.out_faults plant.new ≡ P.out_faults plant.old }
{
    let mut head = [0; 5];
    let count = plant.read_at(at, &mut head)?;
    if count == 0 {
        return Ok(Frame::Damaged(at));
    }
    if head[0] != OPEN {
        return Ok(Frame::Tail);
    }
    if count < 5 {
        return Ok(Frame::Damaged(at));
    }
    read_message(plant, at, length_behind(&head), bytes)
}

// The length behind a gate.
fn length_behind(head: &[u8]) -> u32
    requires { length head.now ≡ 5 }
    ensures { drop 1 head.now ≡ be32 result }
{
    u32_in(head, 1)
}

// The message of this length behind the open gate at this offset, where the next gate is inside the file.
fn read_message<P: Plant>(
    plant: &mut P,
    at: u64,
    len: u32,
    bytes: &mut Vec<u8>,
) -> Result<Frame, Failed>
    requires { P.tells → OpensAt (content (P.story plant.old)) at len }
    ensures frame { P.tells →
        IfOk result (IsNextFrame (content (P.story plant.old)) at bytes.new.items) }
    ensures bears { IfOk result (IsFrameAt at bytes.new.items) }
    ensures fits { IfOk result (λ frame. OnGot frame (at + 6 + length bytes.new.items < 2 ^ 64)) }
    ensures failed { result ≢ Ok Frame.Failed }
    ensures same { P.tells → P.story plant.new ≡ P.story plant.old }
    ensures cause { HasCause (P.disk_faults plant.old) (P.disk_faults plant.new) result }
    ensures outlet { P.out_faults plant.new ≡ P.out_faults plant.old }
{
    if len < LEAST || len > MOST {
        return Ok(Frame::Damaged(at));
    }
    let size = plant.size()?;
    if size < at || size - at < 6 + u64::from(len) {
        return Ok(Frame::Damaged(at));
    }
    bytes.clear();
    match bytes.resize(len as usize + 1, 0) {
        Ok(()) => {}
        Err(_) => return Ok(Frame::NoMemory),
    }
    let count = plant.read_at(at + 5, bytes.as_mut_slice())?;
    if count <= len as usize {
        return Ok(Frame::Damaged(at));
    }
    bytes.truncate(len as usize);
    Ok(Frame::Got(at))
}
