//! Pieces, offered and put together.
ghost use Rattle.std.specs.Prelude.{◌≡◌, ◌≤◌, ◌+◌, false, length, IfOk, IfSome};
ghost use Rattle.frag_reasm.specs.Keys.{is_six};
ghost use Rattle.frag_reasm.specs.Whole.{held as held_piece};
ghost use Rattle.ingress.specs.Arrival.{Tells};
ghost use Rattle.ingress.specs.Gathering.{AreKept, IsPiece, IsPlainHead, answer_to, taken};

use crate::refusal::Refusal;
use aftr_base::{DropCause, List, Moment};
use frag_reasm::{Offer, Piece, PieceKey, Pieces};

/// A datagram that its pieces made whole: the header of the piece at offset 0, and the body.
#[derive(Debug, Drop)]
pub(crate) struct Gathered {
    pub(crate) head: List<u8>,
    pub(crate) bytes: List<u8>,
}

/// Offers a piece at the moment `now`, and answers what it makes whole.
pub(crate) fn take(
    pieces: &mut Pieces,
    key: PieceKey,
    piece: Piece<'_>,
    now: Moment,
) -> Result<Option<Gathered>, Refusal>
    requires kept { AreKept pieces.old }
    requires piece { IsPiece key (held_piece piece) }
    ensures tells { Tells result pieces.new (taken key (held_piece piece.entry) now.0 pieces.old) }
    ensures kept { AreKept pieces.new }
    ensures head { IfOk result (λ brought. IfSome brought
        (λ g. is_six key ≡ false → IsPlainHead g.head)) }
    ensures short { IfOk result (λ brought. IfSome brought
        (λ g. is_six key ≡ false → 20 + length g.bytes ≤ 65535)) }
{
    answer(pieces.offer(key, piece, now))
}

// what an answer brings
fn answer(offer: Offer) -> Result<Option<Gathered>, Refusal>
    ensures { result ≡ answer_to offer }
{
    match offer {
        Offer::Whole { head, bytes } => Ok(Some(Gathered { head, bytes })),
        Offer::Held => Ok(None),
        Offer::Overlap => Err(Refusal::Dropped(DropCause::PieceOverlap)),
        Offer::TooMany => Err(Refusal::Dropped(DropCause::PieceTooMany)),
        Offer::TooLong => Err(Refusal::Dropped(DropCause::PieceTooLong)),
        Offer::Bad => Err(Refusal::Dropped(DropCause::BadPacket)),
        Offer::NoMemory => Err(Refusal::NoMemory),
    }
}
