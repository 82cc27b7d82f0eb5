//! What every packet is asked, whichever way it goes, and how it goes on (RFC 3022 4, RFC 4787 4).
ghost use Rattle.std.specs.Prelude.{◌≡◌, ◌≤◌, ◌+◌, ◌++◌, ℕ, [], ◌==◌, drop, length, take, true, false, Err, IfErr, IfOk, Ok};
ghost use Rattle.aftr_base.specs.Attempt.{refused_as, require};
ghost use Rattle.aftr_base.specs.Plan.{tunnel_prefix};
ghost use Rattle.aftr_base.specs.Value.{is_under4};
ghost use Rattle.aftr_base.specs.declared.event.DropCause.TheVariants.{BadPacket, NoProtocol};
ghost use Rattle.aftr_base.specs.declared.value.Proto.TheVariants.{Icmp, Tcp, Udp};
ghost use Rattle.wire_icmp.specs.Grammar.{kind_of, message_of};
ghost use Rattle.wire_icmp.specs.Quoted.{is_echo};
ghost use Rattle.wire_l4.specs.Grammar.{Echo, Transport, header_len, transport_bytes, transport_in, transport_of};
ghost use Rattle.wire_l4.specs.Places.{port_at, proto_of, replaced};
ghost use Rattle.xlate_core.specs.Arrivals.{arrival_of};
ghost use Rattle.xlate_core.specs.Datagram.{datagram_bytes, flags_of, hairpinned, is_answer, place_on, translated};
ghost use Rattle.xlate_core.specs.Content.{content_of, datagram_content, error_content, is_report};
ghost use Rattle.xlate_core.specs.Packet.{ends_of, has_route, is_routable, proto_from, query_from, transport_behind, transport_from};

use crate::arrival::Arrival;
use aftr_base::{DropCause, Ext, Ip4, NoMemory, Prefix4, Proto, u16_in};
use arrayvec::ArrayVec;
use icmp_xlate::IcmpError;
use std::alloc::Global;
use std::marker::Model;
use wire_icmp::{IcmpKind, IcmpView};
use wire_ip4::{Ip4Fields, Ip4View};
use wire_l4::{TcpView, UdpView, set_place};

/// Goes on where the test is true.
pub(crate) fn require(test: bool, cause: DropCause) -> Result<(), DropCause>
    ensures { result ≡ require test cause }
{
    if test { Ok(()) } else { Err(cause) }
}

/// Whether an address is neither of this network, nor loopback, nor multicast or reserved (RFC 1122 3.2.1.3).
pub(crate) fn is_routable(a: Ip4) -> bool
    ensures { result ≡ is_routable a }
{
    let first = a.0 / 0x100_0000;
    1 <= first && first <= 223 && first != 127
}

// whether an address is one of the softwire's own, 192.0.0.0/29 (RFC 6333 5.7)
fn is_tunnel_end(a: Ip4) -> bool
    ensures { result ≡ is_under4 tunnel_prefix a }
{
    let prefix = Prefix4 {
        bits: Ip4(0xc000_0000),
        len: 29,
    };
    prefix.covers(a)
}

/// Whether a packet is from and to addresses that are routed, and not to the softwire's own.
pub(crate) fn has_route(packet: &Ip4View<'_>) -> bool
    ensures { result ≡ has_route packet.now.0 }
{
    let fields = packet.fields();
    is_routable(fields.src) && is_routable(fields.dst) && !is_tunnel_end(fields.dst)
}

/// The ports of a transport, the control bits that only TCP has, and whether it is an answer to an echo request.
#[derive(Clone, Copy, Debug)]
pub(crate) struct Ends {
    pub(crate) src: u16,
    pub(crate) dst: u16,
    pub(crate) flags: u8,
    pub(crate) answers: bool,
}

/// A UDP datagram, TCP segment or echo message that may be forwarded once more, read in place. Contracts see its header and its transport.
#[derive(Debug, Drop)]
pub(crate) struct Datagram<'a> {
    packet: Ip4View<'a>,
    proto: Proto,
    ends: Ends,
}

impl<'a> Model for Datagram<'a> {
    ghost use Rattle.wire_l4.specs.Grammar.{transport_in};
    ghost use Rattle.xlate_core.specs.Datagram.{Datagram as SpecDatagram};
    ghost use Rattle.xlate_core.specs.Packet.{IsReady};

    ghost Value = { SpecDatagram };

    ghost view = { λ d. record { header = d.packet.0; body = transport_in d.proto d.packet.1 } };

    ghost invariant = { λ d. IsReady d.packet.0 d.packet.1 d.proto d.ends };
}

/// What a packet brings: a datagram, or an ICMP error about one.
#[derive(Debug, Drop)]
pub(crate) enum Content<'a> {
    Carries(Datagram<'a>),
    Reports(IcmpError<'a>),
}

/// What a plain packet brings. The cause is `NoProtocol` for another protocol than UDP, TCP and ICMP, `TtlSpent` where it may
/// take no further hop, `BadPacket` where its lengths don't fit, an ICMP message doesn't bear its checksum or what an error
/// quotes can't be translated, and `NoProtocol` where an ICMP message is neither of echo nor an error.
pub(crate) fn content_of(packet: Ip4View<'_>) -> Result<Content<'_>, DropCause>
    requires plain { packet.0.options ≡ [] }
    requires total { packet.0.fields.total ≡ 20 + length packet.1 }
    ensures { result ≡ content_of packet.entry }
{
    let fields = packet.fields();
    let proto = proto_from(fields.proto)?;
    require(2 <= fields.ttl, DropCause::TtlSpent)?;
    if is_report(proto, packet.payload()) {
        error_content(packet)
    } else {
        datagram_content(proto, packet)
    }
}

// whether it is an ICMP error
fn is_report(proto: Proto, payload: &[u8]) -> bool
    ensures value { result ≡ is_report proto payload.now }
    ensures message { result ≡ true → (m : Echo) × (message_of payload.now ≡ Ok m) }
{
    match proto {
        Proto::Icmp => is_fault(payload),
        Proto::Udp | Proto::Tcp => false,
    }
}

fn is_fault(payload: &[u8]) -> bool
    ensures value { result ≡ is_report Icmp payload.now }
    ensures message { result ≡ true → (m : Echo) × (message_of payload.now ≡ Ok m) }
{
    match IcmpView::read(payload) {
        Ok(message) => message.kind() == IcmpKind::Fault,
        Err(_) => false,
    }
}

fn error_content(packet: Ip4View<'_>) -> Result<Content<'_>, DropCause>
    requires plain { packet.0.options ≡ [] }
    requires total { packet.0.fields.total ≡ 20 + length packet.1 }
    requires alive { 2 ≤ packet.0.fields.ttl }
    requires message { (m : Echo) × (message_of packet.1 ≡ Ok m) }
    ensures { result ≡ error_content packet.entry }
{
    match IcmpError::read(packet) {
        Some(error) => Ok(Content::Reports(error)),
        None => Err(DropCause::BadPacket),
    }
}

fn datagram_content(proto: Proto, packet: Ip4View<'_>) -> Result<Content<'_>, DropCause>
    requires plain { packet.0.options ≡ [] }
    requires total { packet.0.fields.total ≡ 20 + length packet.1 }
    requires short { packet.0.fields.total ≤ 65535 }
    requires alive { 2 ≤ packet.0.fields.ttl }
    ensures { result ≡ datagram_content proto packet.entry }
{
    let datagram = datagram_in(proto, packet)?;
    Ok(Content::Carries(datagram))
}

fn datagram_in(proto: Proto, packet: Ip4View<'_>) -> Result<Datagram<'_>, DropCause>
    requires plain { packet.0.options ≡ [] }
    requires total { packet.0.fields.total ≡ 20 + length packet.1 }
    requires short { packet.0.fields.total ≤ 65535 }
    requires alive { 2 ≤ packet.0.fields.ttl }
    ensures header { IfOk result (λ d. d.header ≡ packet.entry.0) }
    ensures body { IfOk result (λ d. transport_from proto packet.entry.1 ≡ Ok d.body) }
    ensures refusal { IfErr result (λ cause. transport_from proto packet.entry.1 ≡ Err cause) }
{
    let ends = ends_in(proto, packet.payload())?;
    Ok(Datagram {
        packet,
        proto,
        ends,
    })
}

// the protocols that are translated
fn proto_from(number: u8) -> Result<Proto, DropCause>
    ensures { result ≡ proto_from number }
{
    if number == 17 {
        Ok(Proto::Udp)
    } else if number == 6 {
        Ok(Proto::Tcp)
    } else if number == 1 {
        Ok(Proto::Icmp)
    } else {
        Err(DropCause::NoProtocol)
    }
}

// the ports and control bits of the transport in these bytes
fn ends_in(proto: Proto, payload: &[u8]) -> Result<Ends, DropCause>
    ensures ends { IfOk result (λ e. e ≡ ends_of (transport_in proto payload.now)) }
    ensures whole { IfOk result (λ e. header_len proto ≤ length payload.now) }
    ensures sound { IfOk result
        (λ e. transport_of proto payload.now ≡ Ok (transport_in proto payload.now)) }
    ensures read { IfOk result
        (λ e. transport_from proto payload.now ≡ Ok (transport_in proto payload.now)) }
    ensures refusal { IfErr result (λ cause. transport_from proto payload.now ≡ Err cause) }
{
    match proto {
        Proto::Udp => udp_ends(payload),
        Proto::Tcp => tcp_ends(payload),
        Proto::Icmp => query_ends(payload),
    }
}

fn udp_ends(payload: &[u8]) -> Result<Ends, DropCause>
    ensures ends { IfOk result (λ e. e ≡ ends_of (transport_in Udp payload.now)) }
    ensures whole { IfOk result (λ e. header_len Udp ≤ length payload.now) }
    ensures read { IfOk result
        (λ e. transport_of Udp payload.now ≡ Ok (transport_in Udp payload.now)) }
    ensures refusal { IfErr result
        (λ cause. refused_as (transport_of Udp payload.now) BadPacket ≡ Err cause) }
{
    match UdpView::read(payload) {
        Ok(udp) => {
            let (src, dst) = udp.ports();
            Ok(Ends {
                src,
                dst,
                flags: 0,
                answers: false,
            })
        }
        Err(_) => Err(DropCause::BadPacket),
    }
}

fn tcp_ends(payload: &[u8]) -> Result<Ends, DropCause>
    ensures ends { IfOk result (λ e. e ≡ ends_of (transport_in Tcp payload.now)) }
    ensures whole { IfOk result (λ e. header_len Tcp ≤ length payload.now) }
    ensures read { IfOk result
        (λ e. transport_of Tcp payload.now ≡ Ok (transport_in Tcp payload.now)) }
    ensures refusal { IfErr result
        (λ cause. refused_as (transport_of Tcp payload.now) BadPacket ≡ Err cause) }
{
    match TcpView::read(payload) {
        Ok(tcp) => {
            let (src, dst) = tcp.ports();
            Ok(Ends {
                src,
                dst,
                flags: tcp.flags(),
                answers: false,
            })
        }
        Err(_) => Err(DropCause::BadPacket),
    }
}

// an echo message has its identifier on both sides (RFC 5508 section 3.1)
fn query_ends(payload: &[u8]) -> Result<Ends, DropCause>
    ensures ends { IfOk result (λ e. e ≡ ends_of (transport_in Icmp payload.now)) }
    ensures whole { IfOk result (λ e. header_len Icmp ≤ length payload.now) }
    ensures sound { IfOk result
        (λ e. transport_of Icmp payload.now ≡ Ok (transport_in Icmp payload.now)) }
    ensures read { IfOk result
        (λ e. query_from payload.now ≡ Ok (transport_in Icmp payload.now)) }
    ensures refusal { IfErr result (λ cause. query_from payload.now ≡ Err cause) }
{
    let Ok(message) = IcmpView::read(payload) else {
        return Err(DropCause::BadPacket);
    };
    let answers = answers(message.kind())?;
    let id = message.id();
    Ok(Ends {
        src: id,
        dst: id,
        flags: 0,
        answers,
    })
}

// whether a message of echo is an answer
fn answers(kind: IcmpKind) -> Result<bool, DropCause>
    ensures answer { IfOk result (λ answers. (n : ℕ) → kind ≡ kind_of n
        → (is_echo n ≡ true) × (answers ≡ (n == 0))) }
    ensures refusal { IfErr result (λ cause. (n : ℕ) → kind ≡ kind_of n
        → (is_echo n ≡ false) × (cause ≡ NoProtocol)) }
{
    match kind {
        IcmpKind::EchoRequest => Ok(false),
        IcmpKind::EchoReply => Ok(true),
        IcmpKind::Fault | IcmpKind::Other => Err(DropCause::NoProtocol),
    }
}

impl<'a> Datagram<'a> {
    /// The fields of its header, which has no options, and whose TTL is at least 2.
    pub(crate) fn fields(&self) -> Ip4Fields
        ensures value { result ≡ self.now.header.fields }
        ensures bare { self.now.header.options ≡ [] }
        ensures alive { 2 ≤ self.now.header.fields.ttl }
    {
        self.packet.fields()
    }

    /// The protocol of its transport.
    pub(crate) fn proto(&self) -> Proto
        ensures { result ≡ proto_of self.now.body }
    {
        self.proto
    }

    /// The control bits of its transport, which only TCP has.
    pub(crate) fn flags(&self) -> u8
        ensures { result ≡ flags_of self.now.body }
    {
        self.ends.flags
    }

    /// Whether it is an answer to an echo request.
    pub(crate) fn answers(&self) -> bool
        ensures { result ≡ is_answer self.now.body }
    {
        self.ends.answers
    }

    /// Its source, or else its destination.
    pub(crate) fn place(&self, source: bool) -> Ext
        ensures { result ≡ place_on source self.now }
    {
        let fields = self.packet.fields();
        Ext {
            addr: if source { fields.src } else { fields.dst },
            port: if source { self.ends.src } else { self.ends.dst },
        }
    }

    /// What it says of itself where it comes in.
    pub(crate) fn arrival(&self) -> Arrival
        ensures { result ≡ arrival_of self.now }
    {
        Arrival {
            proto: self.proto,
            from: self.place(true),
            to: self.place(false),
            flags: self.ends.flags,
        }
    }

    /// What it says of itself where it comes in after it went out from this place. An ICMP query has the place's identifier
    /// on both sides then (RFC 5508 section 3.1).
    pub(crate) fn arrival_from(&self, src: Ext) -> Arrival
        ensures { result ≡ arrival_of (translated true src self.now) }
    {
        let mut arrival = self.arrival();
        arrival.from = src;
        arrival.to.port = match self.proto {
            Proto::Icmp => src.port,
            Proto::Udp | Proto::Tcp => arrival.to.port,
        };
        arrival
    }

    /// The datagram as it goes on, with the place on one side replaced: outbound its source, inbound its destination. Its
    /// TTL is lower by one, and its checksums are updated and not computed anew.
    pub(crate) fn translated(
        &self,
        alloc: Global,
        source: bool,
        new: Ext,
    ) -> Result<Vec<u8>, NoMemory>
        ensures bytes { IfOk result
            (λ v. v.items ≡ datagram_bytes (translated source new self.now)) }
        ensures total { IfOk result (λ v. length v.items ≡ self.now.header.fields.total) }
        ensures short { IfOk result (λ v. length v.items ≤ 65535) }
    {
        let mut header = ArrayVec::new();
        self.packet.write_forwarded(source, new.addr, &mut header);
        let mut bytes = joined(alloc, header.as_slice(), self.packet.payload())?;
        set_behind(self.proto, &mut bytes, source, self.place(source), new);
        Ok(bytes)
    }

    /// The datagram as it turns back to a subscriber (hairpinning, RFC 4787 section 6): it goes out from `src` and then comes in
    /// to `dst`. Its TTL is lower by one in all, and its checksums are updated and not computed anew.
    pub(crate) fn hairpinned(&self, alloc: Global, src: Ext, dst: Ext) -> Result<Vec<u8>, NoMemory>
        ensures bytes { IfOk result
            (λ v. v.items ≡ datagram_bytes (hairpinned src dst self.now)) }
        ensures total { IfOk result (λ v. length v.items ≡ self.now.header.fields.total) }
        ensures short { IfOk result (λ v. length v.items ≤ 65535) }
    {
        let mut header = ArrayVec::new();
        self.packet
            .write_hairpinned(src.addr, dst.addr, &mut header);
        let mut bytes = joined(alloc, header.as_slice(), self.packet.payload())?;
        set_both_behind(&mut bytes, self.place(true), &self.arrival_from(src), dst);
        Ok(bytes)
    }
}

// a packet of these parts
fn joined(alloc: Global, header: &[u8], payload: &[u8]) -> Result<Vec<u8>, NoMemory>
    ensures { IfOk result (λ v. v.items ≡ header.now ++ payload.now) }
{
    let mut bytes = Vec::with_capacity(alloc, header.len() + payload.len())?;
    bytes.extend_from_slice(header)?;
    bytes.extend_from_slice(payload)?;
    Ok(bytes)
}

// puts the place `new` where `old` stands, in a transport behind the 20 bytes of a header
fn set_behind(proto: Proto, bytes: &mut [u8], source: bool, old: Ext, new: Ext)
    requires whole { 20 + header_len proto ≤ length bytes.old }
    requires there { port_at source (transport_behind proto bytes.old) ≡ old.port }
    ensures value { bytes.new ≡ take 20 bytes.old
        ++ transport_bytes (replaced source old new (transport_behind proto bytes.old)) }
    ensures reads_back { (t : Transport) → transport_of proto (drop 20 bytes.old) ≡ Ok t
        → transport_of proto (drop 20 bytes.new) ≡ Ok (replaced source old new t) }
{
    set_place(proto, &mut bytes[20..], source, old, new);
}

// Puts the place where a datagram arrives from where `old` stands, and then `dst` where it arrives, in a transport behind the
// 20 bytes of a header.
fn set_both_behind(bytes: &mut [u8], old: Ext, arrival: &Arrival, dst: Ext)
    requires whole { 20 + header_len arrival.now.proto ≤ length bytes.old }
    requires read { let a = arrival.now in
        transport_of a.proto (drop 20 bytes.old) ≡ Ok (transport_behind a.proto bytes.old) }
    requires source { port_at true (transport_behind arrival.now.proto bytes.old) ≡ old.port }
    requires destination { let a = arrival.now in
        port_at false (replaced true old a.from (transport_behind a.proto bytes.old)) ≡ a.to.port }
    ensures { let a = arrival.now in bytes.new ≡ take 20 bytes.old
        ++ transport_bytes (replaced false a.to dst (replaced true old a.from (transport_behind a.proto bytes.old))) }
{
    set_behind(arrival.proto, bytes, true, old, arrival.from);
    set_behind(arrival.proto, bytes, false, arrival.to, dst);
}
