//! What the definitions of arrivals promise alone.
ghost use Rattle.ingress.specs.Laws.{PublicBringsUncut, PublicBringsWhole, SoftwireBringsUncut, SoftwireBringsWhole};

/// What a record brings is no piece, has no options and is of the subscriber that its softwire is of. Where the records are
/// bytes it stands in some bytes as such a packet, also where it was put together from its pieces.
pub fn arrivals_are_whole()
    ensures softwire_uncut { SoftwireBringsUncut }
    ensures softwire { SoftwireBringsWhole }
    ensures public_uncut { PublicBringsUncut }
    ensures public { PublicBringsWhole }
{}
