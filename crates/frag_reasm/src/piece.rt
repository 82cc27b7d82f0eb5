//! Pieces, as they are offered and as they are held.
ghost use Rattle.std.specs.Prelude.{◌≡◌, IfOk};
ghost use Rattle.frag_reasm.specs.Whole.{held, end_of, is_bad, same_piece, shares_a_byte, is_past, contradicts};

use aftr_base::{List, NoMemory};
use std::alloc::Global;

/// A fragment of a datagram, as it came.
#[derive(Clone, Copy, Debug)]
pub struct Piece<'a> {
    /// The header that it came with: the IPv4 header, or the one byte of the Fragment header's next header. That of the
    /// piece at offset 0 is the datagram's.
    pub head: &'a [u8],
    /// Where its bytes stand in the datagram's body, in bytes from 0.
    pub offset: u32,
    /// Whether no piece follows it: the flag M (RFC 8200) or MF (RFC 791) isn't set.
    pub last: bool,
    /// Its part of the body.
    pub bytes: &'a [u8],
}

/// A piece that is held until its datagram is whole.
#[derive(Debug, Drop)]
pub struct HeldPiece {
    pub head: List<u8>,
    pub offset: u32,
    pub last: bool,
    pub bytes: List<u8>,
}

impl HeldPiece {
    /// The piece as it was offered.
    pub(crate) fn as_piece(&self) -> Piece<'_>
        ensures { held result ≡ self.now }
    {
        Piece {
            head: self.head.as_slice(),
            offset: self.offset,
            last: self.last,
            bytes: self.bytes.as_slice(),
        }
    }
}

impl Piece<'_> {
    /// Where its bytes end in the datagram's body.
    pub(crate) fn end(&self) -> u64
        ensures { result ≡ end_of (held self.now) }
    {
        u64::from(self.offset) + self.bytes.len() as u64
    }

    /// Whether it has no bytes, or isn't the last and has a length that isn't a multiple of 8.
    pub(crate) fn is_bad(&self) -> bool
        ensures { result ≡ is_bad (held self.now) }
    {
        self.bytes.is_empty() || (!self.last && self.bytes.len() % 8 != 0)
    }

    /// Whether the other has the same bytes at the same place, and is the last or not as this one.
    pub(crate) fn is_same(&self, other: &Piece<'_>) -> bool
        ensures { result ≡ same_piece (held self.now) (held other.now) }
    {
        self.offset == other.offset && self.last == other.last && self.bytes == other.bytes
    }

    /// Whether both can't belong to one datagram: they share a byte (RFC 5722 section 4), or one ends behind the other,
    /// which is the last.
    pub(crate) fn contradicts(&self, other: &Piece<'_>) -> bool
        ensures { result ≡ contradicts (held self.now) (held other.now) }
    {
        self.shares_a_byte(other) || self.is_past(other) || other.is_past(self)
    }

    fn shares_a_byte(&self, other: &Piece<'_>) -> bool
        ensures { result ≡ shares_a_byte (held self.now) (held other.now) }
    {
        u64::from(self.offset) < other.end() && u64::from(other.offset) < self.end()
    }

    // whether it ends behind the other, which is the last
    fn is_past(&self, other: &Piece<'_>) -> bool
        ensures { result ≡ is_past (held self.now) (held other.now) }
    {
        other.last && other.end() < self.end()
    }

    /// A copy that is held.
    pub(crate) fn copied(&self, alloc: Global) -> Result<HeldPiece, NoMemory>
        ensures { IfOk result (λ copy. copy ≡ held self.now) }
    {
        Ok(HeldPiece {
            head: bytes_of(alloc, self.head)?,
            offset: self.offset,
            last: self.last,
            bytes: bytes_of(alloc, self.bytes)?,
        })
    }
}

/// A copy of the bytes.
pub(crate) fn bytes_of(alloc: Global, bytes: &[u8]) -> Result<List<u8>, NoMemory>
    ensures { IfOk result (λ copy. copy ≡ bytes.now) }
{
    let mut copy = List::new(alloc);
    copy.extend_from_slice(bytes)?;
    Ok(copy)
}
