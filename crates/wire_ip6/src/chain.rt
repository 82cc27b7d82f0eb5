//! The chain of extension headers before a tunnelled packet (RFC 8200 4; RFC 2473 3.3).
ghost use Rattle.std.specs.Prelude.{◌≡◌, ◌≤◌, length};
ghost use Rattle.aftr_base.specs.Bytes.{u8_at, u16_at, u32_at};
ghost use Rattle.wire_ip6.specs.Grammar.{frag_of};
ghost use Rattle.wire_ip6.specs.Chain.{chain_in, chain_of, end_of, is_passed, TellsInner, TellsPieces, TellsOthers, TellsShort};

use crate::fields::FragHead;
use aftr_base::{u16_in, u32_in};

/// The Hop-by-Hop Options header's number.
const HOP_BY_HOP: u8 = 0;
/// The number of an IPv4 packet.
const IPV4: u8 = 4;
/// The Fragment header's number.
const FRAGMENT: u8 = 44;
/// The Destination Options header's number.
const DESTINATION: u8 = 60;

/// What a chain of extension headers ends in.
#[derive(Clone, Copy, Debug)]
pub enum Chain<'a> {
    /// A tunnelled IPv4 packet: these bytes.
    Inner(&'a [u8]),
    /// A Fragment header, and the piece behind it.
    Piece(FragHead, &'a [u8]),
    /// A header that is neither passed over nor begins a tunnelled packet.
    NotTunnel,
    /// A header that is longer than the bytes that are there.
    Broken,
}

/// Follows the chain that begins with the header numbered `next` at the front of the bytes: it passes
/// over Hop-by-Hop (0) and Destination Options (60) headers. In the payload of a `whole` packet, one
/// that was put together from its pieces, a Fragment header is a header like any other.
pub fn walk(next: u8, bytes: &[u8], whole: bool) -> Chain<'_>
    ensures value { chain_in result ≡ chain_of next bytes.now whole }
    ensures inner { TellsInner next bytes.now (chain_in result) }
    ensures pieces { TellsPieces next bytes.now whole (chain_in result) }
    ensures others { TellsOthers next bytes.now whole (chain_in result) }
    ensures short { TellsShort next bytes.now whole (chain_in result) }
{
    follow(next, bytes, whole)
}

// The same, header by header.
fn follow(next: u8, bytes: &[u8], whole: bool) -> Chain<'_>
    ensures { chain_in result ≡ chain_of next bytes.now whole }
{
    let mut last = next;
    let mut rest = bytes;
    'headers: while passes_over(last) {
        if rest.len() < 8 {
            return Chain::Broken;
        }
        let len = 8 + 8 * usize::from(rest[1]);
        if rest.len() < len {
            return Chain::Broken;
        }
        last = rest[0];
        rest = &rest[len..];
    }
    end(last, rest, whole)
}

// Whether a header of this number is passed over.
fn passes_over(next: u8) -> bool
    ensures { result ≡ is_passed next }
{
    next == HOP_BY_HOP || next == DESTINATION
}

// What the chain ends in behind the headers that are passed over.
fn end(last: u8, rest: &[u8], whole: bool) -> Chain<'_>
    ensures { chain_in result ≡ end_of last rest.now whole }
{
    if last == IPV4 {
        return Chain::Inner(rest);
    }
    if last != FRAGMENT || whole {
        return Chain::NotTunnel;
    }
    if rest.len() < 8 {
        return Chain::Broken;
    }
    Chain::Piece(read_frag_header(rest), &rest[8..])
}

// The Fragment header at the front of these bytes.
fn read_frag_header(bytes: &[u8]) -> FragHead
    requires { 8 ≤ length bytes.now }
    ensures { result ≡ frag_of bytes.now }
{
    let cut = u16_in(bytes, 2);
    FragHead {
        next: bytes[0],
        offset: cut / 8,
        more: cut % 2 == 1,
        id: u32_in(bytes, 4),
    }
}
