//! Why a record brings no packet and no piece.
ghost use Rattle.std.specs.Prelude.{◌≡◌};
ghost use Rattle.ingress.specs.declared.refusal.Refusal.TheVariants.{Dropped, NoMemory as OutOfMemory};

use aftr_base::{DropCause, NoMemory};

/// Why a record brings no packet, though it is no piece that is held.
#[derive(Clone, Copy, Debug, PartialEq, Eq)]
pub enum Refusal {
    /// It is dropped.
    Dropped(DropCause),
    /// Memory ran out.
    NoMemory,
}

impl From<DropCause> for Refusal {
    ghost from_gives = { λ cause refusal. refusal ≡ Dropped cause };

    fn from(cause: DropCause) -> Self {
        Refusal::Dropped(cause)
    }
}

impl From<NoMemory> for Refusal {
    ghost from_gives = { λ _ refusal. refusal ≡ OutOfMemory };

    fn from(_want: NoMemory) -> Self {
        Refusal::NoMemory
    }
}
