//! The state of a TCP connection as a translator between its two ends follows it, by the control
//! bits of the segments (RFC 5382 section 5, RFC 7857 section 2). It decides how long an unused
//! mapping lasts.
#![tactic(auto)]

ghost use Rattle.std.specs.Prelude.{◌≡◌};
ghost use Rattle.tcp_track.specs.States.{first, in_column, is_set, line_of, next, out_column, short_idle, signal_of};

#[cfg(test)]
mod tests;

// the control bits of a segment (RFC 9293 section 3.1)
const FIN: u8 = 1;

const SYN: u8 = 2;

const RST: u8 = 4;

const ACK: u8 = 16;

/// How far a TCP connection is. Outbound is from the mapping's owner to the remote endpoint.
#[derive(Clone, Copy, Debug, PartialEq, Eq)]
pub enum TcpState {
    /// No segment came from the remote endpoint yet.
    Opening,
    /// Segments went both ways.
    Open,
    /// A FIN went out, and none came in.
    HalfOut,
    /// A FIN came in, and none went out.
    HalfIn,
    /// FINs went both ways, or an RST went one way.
    Ending,
}

// what the control bits of a segment say
#[derive(Clone, Copy)]
enum Signal {
    Rst,
    Fin,
    // a SYN without ACK
    Syn,
    Other,
}

/// The state after a segment with these control bits, outbound or inbound. An RST goes before a FIN,
/// and a FIN before a SYN without ACK; all else is one. Where both ends open at once, the inbound SYN
/// opens the connection (RFC 5382 section 4, REQ-2), and an outbound SYN opens an ended one anew.
pub fn next(state: TcpState, flags: u8, outbound: bool) -> TcpState
    ensures { result ≡ next state flags outbound }
{
    let signal = signal_in(flags);
    if outbound {
        after_outbound(state, signal)
    } else {
        after_inbound(state, signal)
    }
}

/// The state after a connection's first segment, which is outbound, with these control bits:
/// `Ending` with an RST, else `Opening`.
pub fn first(flags: u8) -> TcpState
    ensures { result ≡ first flags }
{
    if has(flags, RST) {
        TcpState::Ending
    } else {
        TcpState::Opening
    }
}

/// Whether the shorter of the two idle times holds: that of a connection which is opening or
/// ending (RFC 5382 section 5, REQ-5).
pub fn short_idle(state: TcpState) -> bool
    ensures { result ≡ short_idle state }
{
    match state {
        TcpState::Opening | TcpState::Ending => true,
        TcpState::Open | TcpState::HalfOut | TcpState::HalfIn => false,
    }
}

fn after_outbound(state: TcpState, signal: Signal) -> TcpState
    ensures { result ≡ out_column signal (line_of state) }
{
    match (signal, state) {
        (Signal::Rst, _) => TcpState::Ending,
        (Signal::Fin, TcpState::Open) => TcpState::HalfOut,
        (Signal::Fin, TcpState::HalfIn) => TcpState::Ending,
        (Signal::Syn, TcpState::Ending) => TcpState::Opening,
        _ => state,
    }
}

fn after_inbound(state: TcpState, signal: Signal) -> TcpState
    ensures { result ≡ in_column signal (line_of state) }
{
    match (signal, state) {
        (Signal::Rst, _) => TcpState::Ending,
        (Signal::Fin, TcpState::Opening | TcpState::Open) => TcpState::HalfIn,
        (Signal::Fin, TcpState::HalfOut) => TcpState::Ending,
        (Signal::Syn | Signal::Other, TcpState::Opening) => TcpState::Open,
        _ => state,
    }
}

fn signal_in(flags: u8) -> Signal
    ensures { result ≡ signal_of flags }
{
    if has(flags, RST) {
        Signal::Rst
    } else if has(flags, FIN) {
        Signal::Fin
    } else if has(flags, SYN) && !has(flags, ACK) {
        Signal::Syn
    } else {
        Signal::Other
    }
}

fn has(flags: u8, bit: u8) -> bool
    ensures { result ≡ is_set bit flags }
{
    flags & bit != 0
}
