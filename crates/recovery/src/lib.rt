//! A restart: what a log tells, with every row that was open closed at the horizon before anything else is logged.
#![tactic(auto)]

ghost use Rattle.std.specs.Prelude.{◌≡◌, ◌≢◌, ◌≤◌, Ok as Is, Err, IfOk, IsErrOf, ◌<◌, ◌^◌, IfErr};
ghost use Rattle.plant_io.specs.Causes.{Rose};
ghost use Rattle.plant_io.specs.Stops.{StopsLeave};
ghost use Rattle.plant_io.specs.Story.{content, sent, IsImage, IsSettled};
ghost use Rattle.recovery.specs.Answers.{IsLack, IsReady, RecoversTo};
ghost use Rattle.recovery.specs.Laws.{EachClosingIsBelieved, EachClosingKeepsNames, IsLeft, RecoveredKeepsNames};
ghost use Rattle.recovery.specs.Leaves.{RecoverLeaves};
ghost use Rattle.recovery.specs.Frames.{CloseLeaves, log_at_tail};
ghost use Rattle.aftr_base.specs.Told.{closed};
ghost use Rattle.lease_log.specs.Answers.{AreFew, IsAtTail};
ghost use Rattle.lease_log.specs.Log.{log_of};
ghost use Rattle.lease_log.specs.Sound.{IsSound};
ghost use Rattle.trace_query.specs.Logs.{AreBelieved, KeepsNames};

mod closing;
mod rows;

use aftr_base::{NoMemory, Told};
use closing::commit_closings;
use disk_journal::Journal;
use lease_log::{LogBatch, ToldBad, read_told};
use plant_io::Plant;
use rows::end_rows;
use std::alloc::Global;

/// A log that a run may go on with: no row that it tells is open, and the journal is at its tail.
#[derive(Debug, Drop)]
pub struct Ready {
    /// What the log tells, with all rows closed.
    pub told: Told,
    pub journal: Journal,
    /// How many data records the log told before the closings.
    pub found: u64,
}

/// Why a log can't be gone on with.
#[derive(Clone, Copy, Debug, PartialEq, Eq)]
pub enum RecoverBad {
    /// The file is no log: damage at this offset, in bytes. Nothing was written.
    Damaged(u64),
    /// The next frame of closings, of `need` bytes behind the tail, would pass the limit, all in bytes. The frames before it stand, and
    /// keep to the limit.
    Full { tail: u64, need: u64, limit: u64 },
    /// A call on the file failed, and the plant's count of disk faults rose. The frames committed before stand.
    Failed,
    /// There was no memory. The frames committed before stand, and keep to the limit.
    NoMemory,
}

impl From<NoMemory> for RecoverBad {
    ghost use Rattle.std.specs.Prelude.{◌≡◌};
    ghost use Rattle.recovery.specs.declared.RecoverBad.TheVariants.{NoMemory as OutOfMemory};

    ghost from_gives = { λ _ bad. bad ≡ OutOfMemory };

    fn from(_refused: NoMemory) -> Self {
        RecoverBad::NoMemory
    }
}

/// Syncs and reads the log, then ends the plan in use and each open lease, in order of opening, at the horizon that was told: in
/// frames of 1,024 closings, but for the last. The file may grow to `limit` bytes. After a refusal it may be called again.
///
/// `Damaged` comes exactly where the file is damaged, `Full` exactly where the next closings have no room, and `Failed` only where
/// the plant's count of disk faults rose.
pub fn recover<P: Plant>(alloc: Global, plant: &mut P, limit: u64) -> Result<Ready, RecoverBad>
    ensures told { P.tells → RecoversTo limit (content (P.story plant.old)) (content (P.story plant.new)) result }
    ensures ready { IfOk result IsReady }
    ensures full { IfErr result (IsLack limit) }
    ensures settled { P.tells → result ≢ Err RecoverBad.Failed → IsSettled (P.story plant.new) }
    ensures unsent { P.tells → sent (P.story plant.new) ≡ sent (P.story plant.old) }
    ensures stops { P.tells → StopsLeave (P.story plant.old) (P.story plant.new) (RecoverLeaves (P.story plant.old)) }
    ensures believed { P.tells → AreBelieved (IsImage (P.story plant.old)) → AreBelieved (IsLeft (P.story plant.old) (P.story plant.new)) }
    ensures names { P.tells → KeepsNames (IsImage (P.story plant.old)) (IsLeft (P.story plant.old) (P.story plant.new)) }
    ensures failed { IsErrOf result RecoverBad.Failed → Rose (P.disk_faults plant.old) (P.disk_faults plant.new) }
    ensures disk_count { P.disk_faults plant.old ≤ P.disk_faults plant.new }
    ensures outlet { P.out_faults plant.new ≡ P.out_faults plant.old }
{
    read_and_close(alloc, plant, limit)
}

// The same, without what follows for names.
fn read_and_close<P: Plant>(alloc: Global, plant: &mut P, limit: u64) -> Result<Ready, RecoverBad>
    ensures told { P.tells → RecoversTo limit (content (P.story plant.old)) (content (P.story plant.new)) result }
    ensures ready { IfOk result IsReady }
    ensures full { IfErr result (IsLack limit) }
    ensures settled { P.tells → result ≢ Err RecoverBad.Failed → IsSettled (P.story plant.new) }
    ensures stops { P.tells → StopsLeave (P.story plant.old) (P.story plant.new) (RecoverLeaves (P.story plant.old)) }
    ensures failed { IsErrOf result RecoverBad.Failed → Rose (P.disk_faults plant.old) (P.disk_faults plant.new) }
    ensures disk_count { P.disk_faults plant.old ≤ P.disk_faults plant.new }
    ensures outlet { P.out_faults plant.new ≡ P.out_faults plant.old }
{
    match read_told(alloc, plant) {
        Ok((told, journal)) => close_rows(alloc, told, journal, plant, limit),
        Err(ToldBad::Damaged(offset)) => Err(RecoverBad::Damaged(offset)),
        Err(ToldBad::Failed) => Err(RecoverBad::Failed),
        Err(ToldBad::NoMemory) => Err(RecoverBad::NoMemory),
    }
}

// Closes the rows that the log left open: first in the log, and then in what it told.
fn close_rows<P: Plant>(
    alloc: Global,
    told: Told,
    journal: Journal,
    plant: &mut P,
    limit: u64,
) -> Result<Ready, RecoverBad>
    requires sound { IsSound told }
    requires few { AreFew told journal.at }
    requires journal { IsAtTail journal }
    requires tells { P.tells → log_of (content (P.story plant.old)) ≡ Is (log_at_tail told journal) }
    requires settled { P.tells → IsSettled (P.story plant.old) }

    ensures told { P.tells → RecoversTo limit (content (P.story plant.old)) (content (P.story plant.new)) result }
    ensures ready { IfOk result IsReady }
    ensures full { IfErr result (IsLack limit) }
    ensures settled { P.tells → result ≢ Err RecoverBad.Failed → IsSettled (P.story plant.new) }
    ensures stops { P.tells → StopsLeave (P.story plant.old) (P.story plant.new) (CloseLeaves (P.story plant.old)) }
    ensures failed { IsErrOf result RecoverBad.Failed → Rose (P.disk_faults plant.old) (P.disk_faults plant.new) }
    ensures disk_count { P.disk_faults plant.old ≤ P.disk_faults plant.new }
    ensures outlet { P.out_faults plant.new ≡ P.out_faults plant.old }
{
    let mut journal = journal;
    let mut batch = LogBatch::new(alloc, told.horizon, told.count)?;
    match commit_closings(&told, &mut batch, &mut journal, plant, limit) {
        Ok(count) => Ok(with_rows_ended(alloc, told, journal, count)),
        Err(bad) => Err(bad),
    }
}

// What was told with all rows closed, in a log of so many data records.
fn with_rows_ended(alloc: Global, told: Told, journal: Journal, count: u64) -> Ready
    requires sound { IsSound told }
    requires few { count < 2 ^ 62 }
    requires journal { IsAtTail journal }
    ensures ready { IsReady result }
    ensures told { result.told ≡ record (closed told) { count = count } }
    ensures journal { result.journal ≡ journal }
    ensures found { result.found ≡ told.count }
{
    let mut told = told;
    let found = told.count;
    end_rows(alloc, &mut told);
    told.count = count;
    Ready {
        told,
        journal,
        found,
    }
}

/// Closing rows changes no names: a log of some rows closed can be believed where that of all rows open can, and names
/// what that names.
pub fn closings_keep_names()
    ensures believed { EachClosingIsBelieved }
    ensures kept { EachClosingKeepsNames }
    ensures recovered { RecoveredKeepsNames }
{}
