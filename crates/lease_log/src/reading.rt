//! Reading a log: what its messages tell, one after another.
ghost use Rattle.std.specs.Prelude.{◌≡◌, ◌≢◌, ◌≤◌, ◌<◌, ◌+◌, ◌*◌, ◌^◌, length, Err, IfOk, IsErrOf, OnOk};
ghost use Rattle.plant_io.specs.Causes.{Rose};
ghost use Rattle.plant_io.specs.Story.{content, IsSettled};
ghost use Rattle.plant_io.specs.Stops.{StopsLeave};
ghost use Rattle.aftr_base.specs.Telling.{told_after};
ghost use Rattle.disk_journal.specs.Attach.{AttachLeaves, IsKept};
ghost use Rattle.disk_journal.specs.Standing.{at_first_gate};
ghost use Rattle.lease_log.specs.Answers.{AreFew, number_of_rows, IsAtTail, IsReadLog, TellsFrames, TellsLog};
ghost use Rattle.lease_log.specs.Applying.{Follows};
ghost use Rattle.lease_log.specs.Log.{after_message, log_of};
ghost use Rattle.lease_log.specs.Sound.{IsSound};

use crate::applying::ApplyBad;
use crate::telling::Telling;
use aftr_base::{List, LogEvent, Told};
use disk_journal::{AttachBad, Frame, Journal, attach};
use nat_events::{EventsBad, messages_are_spelled, read_events};
use plant_io::Plant;
use std::alloc::Global;

/// Why a log tells nothing.
#[derive(Clone, Copy, Debug, PartialEq, Eq)]
pub enum ToldBad {
    /// The file is no log: its header isn't there, which is damage at 0, or the gate at this offset is open and no whole
    /// frame with a log message in its place stands behind it.
    Damaged(u64),
    /// A call on the file failed, and the plant's count of disk faults rose.
    Failed,
    /// There was no room for what is told or for a message.
    NoMemory,
}

/// Syncs the file and reads what it tells, with a journal at its tail. The file isn't written. Beside the rows that are
/// told it keeps one message in memory.
///
/// `Damaged` comes exactly where the file is damaged: its offset is 0 where the header or the first gate isn't there, and
/// else that of the gate of the first frame that isn't whole or whose message can't be told: one that isn't a log message
/// of RFC 7011 behind so many records, and one with an event that can't follow those before it. `Failed` comes only where
/// the plant's count of disk faults rose.
pub fn read_told<P: Plant>(alloc: Global, plant: &mut P) -> Result<(Told, Journal), ToldBad>
    ensures told { P.tells → TellsLog (log_of (content (P.story plant.old))) result }
    ensures read { IfOk result IsReadLog }
    ensures kept { P.tells → IsKept (P.story plant.old) (P.story plant.new) }
    ensures settled { P.tells → result ≢ Err ToldBad.Failed → IsSettled (P.story plant.new) }
    ensures stops { P.tells → StopsLeave (P.story plant.old) (P.story plant.new)
        (AttachLeaves (P.story plant.old)) }
    ensures failed { IsErrOf result ToldBad.Failed → Rose (P.disk_faults plant.old) (P.disk_faults plant.new) }
    ensures disk_count { P.disk_faults plant.old ≤ P.disk_faults plant.new }
    ensures outlet { P.out_faults plant.new ≡ P.out_faults plant.old }
{
    let mut journal = match attach(plant) {
        Ok(journal) => journal,
        Err(AttachBad::Damaged(offset)) => return Err(ToldBad::Damaged(offset)),
        Err(AttachBad::Failed) => return Err(ToldBad::Failed),
    };
    match read_frames(alloc, plant, &mut journal) {
        Ok(told) => Ok((told, journal)),
        Err(bad) => Err(bad),
    }
}

// Reads the frames from the journal's place on and tells their messages after what was told, up to the tail.
fn read_frames<P: Plant>(
    alloc: Global,
    plant: &mut P,
    journal: &mut Journal,
) -> Result<Told, ToldBad>
    requires start { journal.old ≡ at_first_gate }
    ensures told { P.tells → TellsFrames (content (P.story plant.old)) journal.new.at result }
    ensures sound { IfOk result IsSound }
    ensures few { IfOk result (λ told. AreFew told journal.new.at) }
    ensures stands { OnOk result (IsAtTail journal.new) }
    ensures same { P.tells → P.story plant.new ≡ P.story plant.old }
    ensures failed { IsErrOf result ToldBad.Failed → Rose (P.disk_faults plant.old) (P.disk_faults plant.new) }
    ensures disk_count { P.disk_faults plant.old ≤ P.disk_faults plant.new }
    ensures outlet { P.out_faults plant.new ≡ P.out_faults plant.old }
{
    let mut told = Telling::nothing(alloc);
    let mut message = List::new(alloc);
    'frames: loop {
        match journal.next_frame(alloc, plant, &mut message) {
            Frame::Got(offset) => {
                // How far it has read bounds how many records it has told.
                let _read = journal.tail();
                match tell_message(alloc, &mut told, message.as_slice()) {
                    Ok(()) => {}
                    Err(ApplyBad::Refused) => return Err(ToldBad::Damaged(offset)),
                    Err(ApplyBad::NoMemory) => return Err(ToldBad::NoMemory),
                }
            }
            Frame::Tail => return Ok(told.into_told()),
            Frame::Damaged(offset) => return Err(ToldBad::Damaged(offset)),
            Frame::Failed => return Err(ToldBad::Failed),
            Frame::NoMemory => return Err(ToldBad::NoMemory),
        }
    }
}

// Tells the events of a log message in its place.
fn tell_message(alloc: Global, told: &mut Telling, message: &[u8]) -> Result<(), ApplyBad>
    requires fits { told.old.count + length message.now < 2 ^ 64 }
    requires sound { IsSound told.old }
    ensures told { Follows (after_message told.old message.now) told.new result }
    ensures sound { OnOk result (IsSound told.new) }
    ensures count { OnOk result (8 * told.new.count ≤ 8 * told.old.count + length message.now) }
    ensures rows { OnOk result
        (number_of_rows told.new + told.old.count ≤ number_of_rows told.old + told.new.count) }
{
    messages_are_spelled();
    let mut events = List::new(alloc);
    match read_events(alloc, told.count(), message, &mut events) {
        Ok(()) => tell_all(alloc, told, events),
        Err(EventsBad::NotOurs) => Err(ApplyBad::Refused),
        Err(EventsBad::NoMemory) => Err(ApplyBad::NoMemory),
    }
}

// Tells events in order.
fn tell_all(alloc: Global, told: &mut Telling, events: List<LogEvent>) -> Result<(), ApplyBad>
    requires { told.old.count + length events < 2 ^ 64 }
    ensures { Follows (told_after events told.old) told.new result }
{
    for event in events.into_vec() {
        told.tell(alloc, event)?;
    }
    Ok(())
}
