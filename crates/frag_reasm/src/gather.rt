//! Whether the pieces of a datagram leave no gap, and what they make then.
ghost use Rattle.std.specs.Prelude.{List as Items, ℕ, ◌≡◌, ◌∷◌, ◌++◌, [], ◌==◌, Some, IfOk, IfSome, find, option_map, option_copied};
ghost use Rattle.std.specs.Prelude.{is_some};
ghost use Rattle.std.specs.List.{list_any};
ghost use Rattle.frag_reasm.specs.Whole.{held as held_piece, same_piece, contradicts, piece_at, body_of, head_of};
ghost use Rattle.frag_reasm.specs.declared.piece.HeldPiece.{HeldPiece as Kept};

use crate::piece::{HeldPiece, Piece, bytes_of};
use aftr_base::{List, NoMemory};
use std::alloc::Global;

/// Whether one of the held pieces is the same.
pub(crate) fn is_held(held: &[HeldPiece], piece: Piece<'_>) -> bool
    ensures { result ≡ list_any (same_piece (held_piece piece.entry)) held.now }
{
    held.iter().any(|kept| piece.is_same(&kept.as_piece()))
}

/// Whether the piece can't belong to one datagram with one of the held ones.
pub(crate) fn is_contradicted(held: &[HeldPiece], piece: Piece<'_>) -> bool
    ensures { result ≡ list_any (contradicts (held_piece piece.entry)) held.now }
{
    held.iter().any(|kept| piece.contradicts(&kept.as_piece()))
}

/// Whether the held pieces and the new one leave no gap from 0 to the end of the last one.
pub(crate) fn is_whole(held: &[HeldPiece], new: Piece<'_>) -> bool
    ensures { result ≡ is_some (body_of (held.now ++ held_piece new.entry ∷ [])) }
{
    let mut at = 0;
    for _piece in 0..held.len() + 1 {
        match piece_at(held, new, at) {
            Some(piece) => {
                if piece.last {
                    return true;
                }
                at = piece.end();
            }
            None => return false,
        }
    }
    false
}

/// The body that the held pieces and the new one make, where they leave no gap.
pub(crate) fn body(alloc: Global, held: &[HeldPiece], new: Piece<'_>) -> Result<List<u8>, NoMemory>
    ensures { IfOk result (λ body. (bytes : Items ℕ) →
        body_of (held.now ++ held_piece new.entry ∷ []) ≡ Some bytes → body ≡ bytes) }
{
    let mut body = List::new(alloc);
    let mut at = 0;
    for _piece in 0..held.len() + 1 {
        match piece_at(held, new, at) {
            Some(piece) => {
                body.extend_from_slice(piece.bytes)?;
                if piece.last {
                    return Ok(body);
                }
                at = piece.end();
            }
            None => return Ok(body),
        }
    }
    Ok(body)
}

/// The header of the piece at offset 0, and no bytes where there is none.
pub(crate) fn head(alloc: Global, held: &[HeldPiece], new: Piece<'_>) -> Result<List<u8>, NoMemory>
    ensures { IfOk result (λ head. head ≡ head_of (held.now ++ held_piece new.entry ∷ [])) }
{
    match piece_at(held, new, 0) {
        Some(first) => bytes_of(alloc, first.head),
        None => Ok(List::new(alloc)),
    }
}

// the first piece whose bytes begin at the offset
fn piece_at<'a>(held: &'a [HeldPiece], new: Piece<'a>, at: u64) -> Option<Piece<'a>>
    ensures { option_map held_piece result ≡ piece_at at (held.now ++ held_piece new.entry ∷ []) }
{
    match held_at(held, at) {
        Some(kept) => Some(kept.as_piece()),
        None => (u64::from(new.offset) == at).then_some(new),
    }
}

fn held_at(held: &[HeldPiece], at: u64) -> Option<&HeldPiece>
    ensures { option_copied result ≡ piece_at at held.now }
{
    held.iter().find(|kept| u64::from(kept.offset) == at)
}
