//! The number that the program ends with.
ghost use Rattle.std.specs.Prelude.{◌≡◌};
ghost use Rattle.aftr.specs.ExitStatus.{exit_number};

use aftr_base::Status;

/// The exit status of a call that ended so.
pub fn exit_status(status: &Status) -> u8
    ensures number { result ≡ exit_number status.now }
{
    match status {
        Status::Ok => 0,
        Status::BadWords => 1,
        Status::BadConfig(_) => 2,
        Status::BadInput { .. } => 3,
        Status::ReadFault => 4,
        Status::LogFault => 5,
        Status::OutFault => 6,
        Status::LogDamaged(_) => 7,
        Status::LogFull { .. } => 8,
        Status::AlreadyThere(_) => 9,
        Status::NoMemory => 10,
    }
}
