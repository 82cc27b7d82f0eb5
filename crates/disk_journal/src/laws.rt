//! What reading a log file and spelling one have to do with each other. These functions do nothing.
ghost use Rattle.std.specs.Prelude.{◌≡◌, List, ℕ};
ghost use Rattle.disk_journal.specs.Walk.{Walk, walk_of, Spells, IsWalkOf};

/// A file that is spelled so is read so.
pub fn a_spelled_log_is_read()
    ensures { (file : List ℕ) (walk : Walk) → Spells file walk → walk_of file ≡ walk }
{}

/// What is read of a file spells it, or it has no header.
pub fn what_is_read_is_spelled()
    ensures { (file : List ℕ) → IsWalkOf file (walk_of file) }
{}
