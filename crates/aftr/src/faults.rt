//! What every object of the outside does with a call that fails.
ghost use Rattle.std.specs.Prelude.{◌≡◌, ◌↔◌, IfOk, OnOk, OnErr, IsOk, IsErr, IsSome, Ok, Some};
ghost use Rattle.plant_io.specs.Causes.{HasCause, counted};

use plant_io::Failed;
use std::fs::File;
use std::io;
use std::io::ErrorKind;

/// The answer of a call on the system; a failure raises the object's count of faults, and its kind is told to nobody.
pub fn count_fault<T>(answer: io::Result<T>, faults: &mut u64) -> Result<T, Failed>
    ensures value { IfOk result (λ value. answer ≡ Ok value) }
    ensures failed { IsErr result ↔ IsErr answer }
    ensures no_fault { OnOk result (faults.new ≡ faults.old) }
    ensures fault { OnErr result (faults.new ≡ counted faults.old) }
    ensures cause { HasCause faults.old faults.new result }
{
    match answer {
        Ok(value) => Ok(value),
        Err(_) => {
            *faults = faults.saturating_add(1);
            Err(Failed)
        }
    }
}

/// The file, or the failure that each call meets where none could be opened.
pub fn opened(file: &Option<File>) -> io::Result<&File>
    ensures there { IsOk result ↔ IsSome file.now }
    ensures file { IfOk result (λ it. file.now ≡ Some it.now) }
{
    match file {
        Some(file) => Ok(file),
        None => Err(io::Error::from(ErrorKind::NotFound)),
    }
}
