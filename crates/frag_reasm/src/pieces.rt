//! The datagrams of which pieces are held.
ghost use Rattle.std.specs.Prelude.{◌≡◌, ◌<◌, IfSome, ◌++◌, [], ◌∷◌, ℕ, List as Items, Some, option_copied, find, not, length, filter};
ghost use Rattle.std.specs.Prelude.{OnOk, OnErr, IfOk};
ghost use Rattle.std.specs.List.{list_any, position};
ghost use Rattle.frag_reasm.specs.Whole.{held as held_piece, body_of, head_of, AreApart, Cuts, IsIncomplete};
ghost use Rattle.frag_reasm.specs.Keys.{same_holder};
ghost use Rattle.frag_reasm.specs.Offers.{is_of, held_of, without, kept_with, is_atomic, is_full, joined, offered, pieces_with};
ghost use Rattle.frag_reasm.specs.Offers.{new_datagram, gathered, live, Does, IfWhole, IsWaiting};
ghost use Rattle.frag_reasm.specs.Orders.{AnyOrder};
ghost use Rattle.frag_reasm.specs.declared.pieces.PartialDatagram.{PartialDatagram as Kept};

use crate::gather::{body, head, is_contradicted, is_held, is_whole};
use crate::key::PieceKey;
use crate::piece::{HeldPiece, Piece, bytes_of};
use aftr_base::{List, Moment, NoMemory};
use std::alloc::Global;
use std::marker::Model;

/// How many pieces of one datagram are held.
const PIECE_LIMIT: usize = 128;
/// After how many milliseconds a datagram in pieces is given up (RFC 8200 section 4.5).
const GIVE_UP_MS: u64 = 60_000;

/// A datagram of which pieces are held.
#[derive(Debug, Drop)]
pub struct PartialDatagram {
    pub key: PieceKey,
    /// When its first held piece came.
    pub since: Moment,
    /// In order of arrival.
    pub pieces: List<HeldPiece>,
}

/// What became of an offered piece. `TooMany`, `TooLong`, `Bad` and `NoMemory` change nothing.
#[derive(Debug, Drop)]
pub enum Offer {
    /// It made its datagram whole: the header of the piece at offset 0, and the body. No piece of it is held any more.
    Whole { head: List<u8>, bytes: List<u8> },
    /// It is held, or the same piece is held already.
    Held,
    /// It shares a byte with a held piece of its datagram, or ends behind the last one, or is the last and ends before
    /// another's end. The datagram is given up (RFC 5722 section 4).
    Overlap,
    /// Its datagram has 128 pieces, or it is of a new datagram where its subscriber has 8 and the public side 1,024.
    TooMany,
    /// It ends past byte 65,535 of an IPv6 datagram's body, or byte 65,515 of an IPv4 one's.
    TooLong,
    /// It has no bytes, or isn't the last and has a length that isn't a multiple of 8.
    Bad,
    /// Memory ran out.
    NoMemory,
}

/// The datagrams of which pieces are held, in the order in which their first pieces came. A datagram takes at most 128
/// pieces, their bytes and their headers. Each search is a plain scan.
#[derive(Drop)]
pub struct Pieces {
    datagrams: Vec<PartialDatagram>,
    alloc: Global,
}

impl Model for Pieces {
    ghost use Rattle.std.specs.Prelude.{List};
    ghost use Rattle.frag_reasm.specs.declared.pieces.PartialDatagram.{PartialDatagram};

    ghost Value = { List PartialDatagram };

    ghost use Rattle.frag_reasm.specs.Offers.{IsSound};

    ghost view = { λ p. p.datagrams.items };

    ghost invariant = { λ p. IsSound p.datagrams.items };
}

impl Pieces {
    /// No pieces, which takes no memory.
    pub fn new(alloc: Global) -> Self
        ensures { result ≡ [] }
    {
        Pieces {
            datagrams: Vec::new(alloc),
            alloc,
        }
    }

    /// Takes a piece of a datagram at the moment `now`, in milliseconds.
    pub fn offer(&mut self, key: PieceKey, piece: Piece<'_>, now: Moment) -> Offer
        // The first case that applies, as the definition lists them.
        ensures does { let did = offered key (held_piece piece.entry) now self.old in
            Does result self.old self.new did }

        // What is whole is a datagram cut into the pieces, in whatever order they came; what isn't is none yet.
        ensures whole { IfWhole result (Cuts (gathered key (held_piece piece.entry) self.old)) }
        ensures held { result ≡ Offer.Held → let new = held_piece piece.entry in
            IsWaiting new (held_of key self.old) (gathered key new self.old) }
        ensures any_order { AnyOrder }
    {
        if piece.is_bad() {
            return Offer::Bad;
        }
        if is_atomic(&key, &piece) {
            return alone(self.alloc, piece).unwrap_or(Offer::NoMemory);
        }
        if is_held(self.held(&key), piece) {
            return Offer::Held;
        }
        if self.is_full(&key) {
            return Offer::TooMany;
        }
        if key.end_limit() < piece.end() {
            return Offer::TooLong;
        }
        if is_contradicted(self.held(&key), piece) {
            self.end(&key);
            return Offer::Overlap;
        }
        self.join(key, piece, now).unwrap_or(Offer::NoMemory)
    }

    /// Gives up each datagram whose first held piece came 60,000 milliseconds before `now` or earlier.
    pub fn expire(&mut self, now: Moment)
        ensures { self.new ≡ live now.0 self.old }
    {
        self.datagrams
            .retain(|d| now.0.saturating_sub(d.since.0) < GIVE_UP_MS);
    }

    /// Gives up all datagrams.
    pub fn clear(&mut self)
        ensures { self.new ≡ [] }
    {
        self.datagrams.clear();
    }

    // the held pieces of a datagram, in order of arrival
    fn held(&self, key: &PieceKey) -> &[HeldPiece]
        ensures value { result.now ≡ held_of key.now self.now }
        ensures apart { AreApart result.now }
    {
        match self.datagram(key) {
            Some(datagram) => datagram.pieces.as_slice(),
            None => &[],
        }
    }

    fn datagram(&self, key: &PieceKey) -> Option<&PartialDatagram>
        ensures value { option_copied result ≡ find (is_of key.now) self.now }
        ensures apart { IfSome result (λ datagram. AreApart datagram.now.pieces) }
    {
        self.datagrams.iter().find(|d| key.is(&d.key))
    }

    // whether a piece of the datagram is held
    fn has(&self, key: &PieceKey) -> bool
        ensures { result ≡ list_any (is_of key.now) self.now }
    {
        self.datagrams.iter().any(|d| key.is(&d.key))
    }

    // at which place the datagram stands
    fn place_of(&self, key: &PieceKey) -> Option<usize>
        ensures { result ≡ position (is_of key.now) self.now }
    {
        self.datagrams.iter().position(|d| key.is(&d.key))
    }

    // whether a further piece of the datagram is one too many
    fn is_full(&self, key: &PieceKey) -> bool
        ensures { result ≡ is_full key.now self.now }
    {
        PIECE_LIMIT <= self.held(key).len() || (!self.has(key) && key.limit() <= self.count(key))
    }

    // how many datagrams its subscriber or the public side has
    fn count(&self, key: &PieceKey) -> usize
        ensures { result ≡ length (filter (λ (d : Kept). same_holder key.now d.key) self.now) }
    {
        self.datagrams
            .iter()
            .filter(|d| key.has_same_holder(&d.key))
            .count()
    }

    // gives a datagram up
    fn end(&mut self, key: &PieceKey)
        ensures { self.new ≡ without key.now self.old }
    {
        self.datagrams.retain(|d| !key.is(&d.key));
    }

    // makes the datagram whole, or else keeps the piece
    fn join(&mut self, key: PieceKey, piece: Piece<'_>, now: Moment) -> Result<Offer, NoMemory>
        requires apart { AreApart (pieces_with key (held_piece piece) self.old) }
        ensures ok { IfOk result (λ answer.
            record { answer = answer; kept = self.new } ≡ joined key (held_piece piece.entry) now self.old) }
        ensures whole { IfOk result (λ answer.
            IfWhole answer (Cuts (pieces_with key (held_piece piece.entry) self.old))) }
        ensures held { IfOk result (λ answer. answer ≡ Offer.Held
            → IsIncomplete (pieces_with key (held_piece piece.entry) self.old)) }
        ensures err { OnErr result (self.new ≡ self.old) }
    {
        if is_whole(self.held(&key), piece) {
            let answer = self.whole(&key, piece)?;
            self.end(&key);
            return Ok(answer);
        }
        self.keep(key, piece.copied(self.alloc)?, now)?;
        Ok(Offer::Held)
    }

    // what the held pieces of the datagram and this one make, where they leave no gap
    fn whole(&self, key: &PieceKey, piece: Piece<'_>) -> Result<Offer, NoMemory>
        ensures { let all = pieces_with key.now (held_piece piece.entry) self.now in
            IfOk result (λ answer. (bytes : Items ℕ) →
            body_of all ≡ Some bytes → answer ≡ Offer.Whole (head_of all) bytes) }
    {
        let held = self.held(key);
        Ok(Offer::Whole {
            head: head(self.alloc, held, piece)?,
            bytes: body(self.alloc, held, piece)?,
        })
    }

    // puts the piece behind those of its datagram, or a new datagram behind the others
    fn keep(&mut self, key: PieceKey, piece: HeldPiece, now: Moment) -> Result<(), NoMemory>
        requires apart { AreApart (pieces_with key piece self.old) }
        ensures ok { OnOk result (self.new ≡ kept_with key piece now self.old) }
        ensures err { OnErr result (self.new ≡ self.old) }
    {
        match self.place_of(&key) {
            Some(at) => {
                let datagram = &mut self.datagrams[at];
                datagram.pieces.push(piece)
            }
            None => self.begin(key, piece, now),
        }
    }

    // puts a new datagram behind the others
    fn begin(&mut self, key: PieceKey, piece: HeldPiece, now: Moment) -> Result<(), NoMemory>
        requires bytes { 0 < length piece.bytes }
        ensures ok { OnOk result (self.new ≡ self.old ++ new_datagram key piece now ∷ []) }
        ensures err { OnErr result (self.new ≡ self.old) }
    {
        let mut pieces = List::new(self.alloc);
        pieces.push(piece)?;
        self.datagrams.push(PartialDatagram {
            key,
            since: now,
            pieces,
        })?;
        Ok(())
    }
}

// whether the piece is an IPv6 datagram that isn't cut
fn is_atomic(key: &PieceKey, piece: &Piece<'_>) -> bool
    ensures { result ≡ is_atomic key.now (held_piece piece.now) }
{
    key.is_six() && piece.offset == 0 && piece.last
}

// what a piece is that is whole by itself
fn alone(alloc: Global, piece: Piece<'_>) -> Result<Offer, NoMemory>
    ensures { let it = held_piece piece.entry in
        IfOk result (λ answer. answer ≡ Offer.Whole it.head it.bytes) }
{
    Ok(Offer::Whole {
        head: bytes_of(alloc, piece.head)?,
        bytes: bytes_of(alloc, piece.bytes)?,
    })
}
