//! Attaching a journal to a file.
ghost use Rattle.std.specs.Prelude.{◌≡◌, ◌≢◌, ◌≤◌, ℕ, IsTrue, true, false, IfOk, OnOk, IsErrOf, Err};
ghost use Rattle.plant_io.specs.Causes.{HasCause, Rose};
ghost use Rattle.plant_io.specs.Story.{content, IsSettled};
ghost use Rattle.plant_io.specs.Stops.{StopsLeave};
ghost use Rattle.disk_journal.specs.Attach.{AttachLeaves, IsKept};
ghost use Rattle.disk_journal.specs.Standing.{at_first_gate};
ghost use Rattle.disk_journal.specs.Walk.{has_header};

use super::Journal;
use crate::format::HEADER;
use plant_io::{Failed, Plant};

/// Why no journal was attached.
#[derive(Clone, Copy, Debug, PartialEq, Eq)]
pub enum AttachBad {
    /// The file is no log: it is damaged at this offset, which is 0.
    Damaged(u64),
    /// A call on the file failed, and the plant's count of disk faults rose.
    Failed,
}

/// Syncs the file and attaches a journal to it, before its first frame. `Damaged(0)` comes exactly where the first 17
/// bytes aren't there or the first 16 aren't a log's header. It takes no memory.
pub fn attach<P: Plant>(plant: &mut P) -> Result<Journal, AttachBad>
    ensures first { IfOk result (λ journal. journal ≡ at_first_gate) }
    ensures header { P.tells → OnOk result (has_header (content (P.story plant.old)) ≡ true) }
    ensures damaged { P.tells → IsErrOf result (AttachBad.Damaged 0) →
        has_header (content (P.story plant.old)) ≡ false }
    ensures offset { (at : ℕ) → result ≡ Err (AttachBad.Damaged at) → at ≡ 0 }
    ensures kept { P.tells → IsKept (P.story plant.old) (P.story plant.new) }
    ensures settled { P.tells → result ≢ Err AttachBad.Failed → IsSettled (P.story plant.new) }
    ensures stops { P.tells → StopsLeave (P.story plant.old) (P.story plant.new)
        (AttachLeaves (P.story plant.old)) }
    ensures failed { IsErrOf result AttachBad.Failed →
        Rose (P.disk_faults plant.old) (P.disk_faults plant.new) }
    ensures disk_count { P.disk_faults plant.old ≤ P.disk_faults plant.new }
    ensures outlet { P.out_faults plant.new ≡ P.out_faults plant.old }
{
    match begins_with_header(plant) {
        Ok(true) => Ok(Journal {
            tail: 17,
            at_tail: false,
            suspect: false,
        }),
        Ok(false) => Err(AttachBad::Damaged(0)),
        Err(Failed) => Err(AttachBad::Failed),
    }
}

// Syncs, and tells whether the file begins with a log's header and a gate behind it.
fn begins_with_header<P: Plant>(plant: &mut P) -> Result<bool, Failed>
    ensures header { P.tells →
        IfOk result (λ begins. begins ≡ has_header (content (P.story plant.old))) }
    ensures kept { P.tells → IsKept (P.story plant.old) (P.story plant.new) }
    ensures settled { P.tells → OnOk result (IsSettled (P.story plant.new)) }
    ensures stops { P.tells → StopsLeave (P.story plant.old) (P.story plant.new)
        (AttachLeaves (P.story plant.old)) }
    ensures cause { HasCause (P.disk_faults plant.old) (P.disk_faults plant.new) result }
    ensures outlet { P.out_faults plant.new ≡ P.out_faults plant.old }
{
    plant.sync()?;
    let mut head = [0; 17];
    let count = plant.read_at(0, &mut head)?;
    if count < 17 {
        return Ok(false);
    }
    Ok(head[..16] == HEADER[..])
}
