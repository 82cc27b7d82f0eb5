use super::*;
use crate::TcpState::{Ending, HalfIn, HalfOut, Open, Opening};
use std::test::Fail;

// outbound with RST, FIN, SYN and another, then inbound with RST, FIN, SYN and another
fn line(state: TcpState) -> [TcpState; 8] {
    [
        next(state, RST | FIN | SYN, true),
        next(state, FIN | SYN | ACK, true),
        next(state, SYN, true),
        next(state, SYN | ACK, true),
        next(state, RST | ACK, false),
        next(state, FIN | ACK, false),
        next(state, SYN, false),
        next(state, ACK, false),
    ]
}

#[test]
fn the_table(rt: HostRuntime) {
    assert_eq!(rt;
        line(Opening),
        [
            Ending, Opening, Opening, Opening, Ending, HalfIn, Open, Open
        ]
    );
    assert_eq!(rt;
        line(Open),
        [Ending, HalfOut, Open, Open, Ending, HalfIn, Open, Open]
    );
    assert_eq!(rt;
        line(HalfOut),
        [
            Ending, HalfOut, HalfOut, HalfOut, Ending, Ending, HalfOut, HalfOut
        ]
    );
    assert_eq!(rt;
        line(HalfIn),
        [
            Ending, Ending, HalfIn, HalfIn, Ending, HalfIn, HalfIn, HalfIn
        ]
    );
    assert_eq!(rt;
        line(Ending),
        [
            Ending, Ending, Opening, Ending, Ending, Ending, Ending, Ending
        ]
    );
    assert_eq!(rt;
        [first(RST), first(FIN), first(SYN), first(ACK)],
        [Ending, Opening, Opening, Opening]
    );
}

// the state after segments, each with whether it is outbound
fn after(segments: &[(u8, bool)]) -> TcpState {
    segments.iter().fold(
        Opening,
        |state, &(flags, outbound)| next(state, flags, outbound),
    )
}

#[test]
fn connections(rt: HostRuntime) -> Result<(), Fail> {
    // both ends open at once
    assert_eq!(rt; after(&[(SYN, true), (SYN, false)]), Open);
    // both ends close, the inner one first and the outer one first
    assert_eq!(rt;
        after(&[(SYN, true), (SYN | ACK, false), (FIN, true), (FIN, false)]),
        Ending
    );
    assert_eq!(rt;
        after(&[(SYN, true), (SYN | ACK, false), (FIN, false), (FIN, true)]),
        Ending
    );
    // an ended connection is opened anew
    assert_eq!(rt;
        after(&[(SYN, true), (RST, false), (ACK, false), (SYN, true)]),
        Opening
    );
    let short = [Opening, Open, HalfOut, HalfIn, Ending].map(short_idle);
    assert_eq!(rt; short, [true, false, false, false, true]);
    Ok(())
}
