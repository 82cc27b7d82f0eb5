//! Adding a frame to a log.
ghost use Rattle.std.specs.Prelude.{◌≡◌, ◌<◌, ◌≤◌, ◌+◌, length, IsTrue, false, OnOk};
ghost use Rattle.plant_io.specs.Causes.{HasCause, Rose};
ghost use Rattle.plant_io.specs.Story.{content, IsSettled};
ghost use Rattle.plant_io.specs.Stops.{StopsLeave};
ghost use Rattle.disk_journal.specs.Frames.{message_of, IsBody};
ghost use Rattle.disk_journal.specs.Walk.{StandsAt};
ghost use Rattle.disk_journal.specs.Commit.{CommitLeaves, IsCommitted, IsFullAt, OnDone, OnFull};
ghost use Rattle.disk_journal.specs.Standing.{after_commit};

use super::Journal;
use crate::format::{Commit, OPEN};
use plant_io::{Failed, Plant};

impl Journal {
    /// Adds the frame with this body to the log: the length of a message in 32 bits, the message, and a closed gate. The
    /// file may grow to `limit` bytes. After `Done` the journal is at the new tail; after `Full`, which comes exactly where
    /// the tail and the body are together over the limit, nothing was written; after `Failed` it is suspect and only
    /// dropped. A stop meanwhile leaves the log as it was or with the message. It takes no memory.
    pub fn commit<P: Plant>(&mut self, plant: &mut P, limit: u64, body: &[u8]) -> Commit
        requires at_tail { IsTrue self.old.at_tail }
        requires sound { self.old.suspect ≡ false }
        requires body { IsBody body.now }
        requires stands { P.tells → StandsAt (content (P.story plant.old)) (self.old.at + 1) }
        requires settled { P.tells → IsSettled (P.story plant.old) }
        ensures done { P.tells → OnDone result
            (IsCommitted (P.story plant.old) (P.story plant.new) (message_of body.now) (self.new.at + 1)) }
        ensures stops { P.tells → StopsLeave (P.story plant.old) (P.story plant.new)
            (CommitLeaves (P.story plant.old) (message_of body.now)) }
        ensures full { IsFullAt (self.old.at + 1) (length body.now) limit result }
        ensures unwritten { P.tells → OnFull result (P.story plant.new ≡ P.story plant.old) }
        ensures standing { self.new ≡ after_commit result body.now self.old }
        ensures failed { result ≡ Commit.Failed →
            Rose (P.disk_faults plant.old) (P.disk_faults plant.new) }
        ensures disk_count { P.disk_faults plant.old ≤ P.disk_faults plant.new }
        ensures outlet { P.out_faults plant.new ≡ P.out_faults plant.old }
    {
        let need = body.len() as u64;
        if self.tail > limit || need > limit - self.tail {
            return Commit::Full {
                tail: self.tail,
                need,
                limit,
            };
        }
        match write_frame(plant, self.tail, body) {
            Ok(()) => {
                self.tail += need;
                Commit::Done
            }
            Err(Failed) => {
                self.suspect = true;
                Commit::Failed
            }
        }
    }
}

// Writes the body behind the closed gate at the tail, and opens the gate once the body is durable.
fn write_frame<P: Plant>(plant: &mut P, tail: u64, body: &[u8]) -> Result<(), Failed>
    requires gate { 0 < tail }
    requires body { IsBody body.now }
    requires stands { P.tells → StandsAt (content (P.story plant.old)) tail }
    requires settled { P.tells → IsSettled (P.story plant.old) }
    ensures done { P.tells → OnOk result
        (IsCommitted (P.story plant.old) (P.story plant.new) (message_of body.now) (tail + length body.now)) }
    ensures stops { P.tells → StopsLeave (P.story plant.old) (P.story plant.new)
        (CommitLeaves (P.story plant.old) (message_of body.now)) }
    ensures cause { HasCause (P.disk_faults plant.old) (P.disk_faults plant.new) result }
    ensures outlet { P.out_faults plant.new ≡ P.out_faults plant.old }
{
    plant.write_at(tail, body)?;
    plant.sync()?; // the body, before the gate
    plant.write_at(tail - 1, &[OPEN])?;
    plant.sync()?; // the gate
    Ok(())
}
