//! Making a log.
ghost use Rattle.std.specs.Prelude.{◌≡◌, ◌<◌, ◌≤◌, ℕ, [], length, OnOk, IsErrOf, Err};
ghost use Rattle.plant_io.specs.Causes.{HasCause, Rose};
ghost use Rattle.plant_io.specs.Story.{content};
ghost use Rattle.plant_io.specs.Stops.{StopsLeave};
ghost use Rattle.disk_journal.specs.Make.{MakeLeaves, IsMade};

use crate::format::EMPTY_LOG;
use plant_io::{Failed, Plant};

/// Why no log was made.
#[derive(Clone, Copy, Debug, PartialEq, Eq)]
pub enum MakeBad {
    /// The file has this many bytes, which is not 0. Nothing was written.
    AlreadyThere(u64),
    /// A call on the file failed, and the plant's count of disk faults rose.
    Failed,
}

/// Makes the empty log of 17 bytes in a file of size 0, and syncs it. `AlreadyThere` comes exactly where the size isn't 0.
/// It takes no memory.
pub fn make<P: Plant>(plant: &mut P) -> Result<(), MakeBad>
    ensures made { P.tells → OnOk result (IsMade (P.story plant.old) (P.story plant.new)) }
    ensures size { P.tells → (size : ℕ) → result ≡ Err (MakeBad.AlreadyThere size) →
        size ≡ length (content (P.story plant.old)) }
    ensures not_empty { (size : ℕ) → result ≡ Err (MakeBad.AlreadyThere size) → 0 < size }
    ensures unwritten { P.tells → (size : ℕ) → result ≡ Err (MakeBad.AlreadyThere size) →
        P.story plant.new ≡ P.story plant.old }
    ensures stops { P.tells → StopsLeave (P.story plant.old) (P.story plant.new)
        (MakeLeaves (P.story plant.old)) }
    ensures failed { IsErrOf result MakeBad.Failed →
        Rose (P.disk_faults plant.old) (P.disk_faults plant.new) }
    ensures disk_count { P.disk_faults plant.old ≤ P.disk_faults plant.new }
    ensures outlet { P.out_faults plant.new ≡ P.out_faults plant.old }
{
    match plant.size() {
        Ok(0) => {}
        Ok(size) => return Err(MakeBad::AlreadyThere(size)),
        Err(Failed) => return Err(MakeBad::Failed),
    }
    match write_empty_log(plant) {
        Ok(()) => Ok(()),
        Err(Failed) => Err(MakeBad::Failed),
    }
}

// Writes the empty log into an empty file, and syncs it.
fn write_empty_log<P: Plant>(plant: &mut P) -> Result<(), Failed>
    requires { P.tells → content (P.story plant.old) ≡ [] }
    ensures made { P.tells → OnOk result (IsMade (P.story plant.old) (P.story plant.new)) }
    ensures stops { P.tells → StopsLeave (P.story plant.old) (P.story plant.new)
        (MakeLeaves (P.story plant.old)) }
    ensures cause { HasCause (P.disk_faults plant.old) (P.disk_faults plant.new) result }
    ensures outlet { P.out_faults plant.new ≡ P.out_faults plant.old }
{
    plant.write_at(0, &EMPTY_LOG)?;
    plant.sync()?;
    Ok(())
}
