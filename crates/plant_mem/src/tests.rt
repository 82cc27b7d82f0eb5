use crate::{MemPlant, MemSink, MemSource, NoFaultSource, Pick, PlantCall, StopPlant};
use aftr_base::List;
use plant_io::{Failed, Plant, Sink, Source};
use std::test::Fail;

fn read_from<S: Source>(source: &mut S, buf: &mut [u8]) -> Result<usize, Failed> {
    source.read(buf)
}

fn write_to<S: Sink>(sink: &mut S, bytes: &[u8]) -> Result<(), Failed> {
    sink.write(bytes)
}

// Makes a call of each kind, and answers which of them passed.
fn call_each<P: Plant>(plant: &mut P) -> [bool; 5] {
    let mut buf = [0; 2];
    [
        plant.size().is_ok(),
        plant.read_at(0, &mut buf).is_ok(),
        plant.write_at(0, &[7, 8, 9]).is_ok(),
        plant.sync().is_ok(),
        plant.emit(&[5, 6]).is_ok(),
    ]
}

#[test]
fn a_source_gives_pieces_and_fails_as_planned(rt: HostRuntime) -> Result<(), Fail> {
    let alloc = rt.alloc();
    let bytes = List::from_vec([1, 2, 3, 4, 5].to_vec(alloc)?);
    let mut source = MemSource::new(bytes, 2, List::from_vec([1, 3].to_vec(alloc)?));
    let rows = [
        (Ok(2), [1, 2, 0]),
        (Err(Failed), [1, 2, 0]),
        (Ok(2), [3, 4, 0]),
        (Err(Failed), [3, 4, 0]),
        (Ok(1), [5, 4, 0]),
        (Ok(0), [5, 4, 0]),
    ];
    let mut buf = [0; 3];
    for (answer, after) in rows {
        assert_eq!(rt; read_from(&mut source, &mut buf), answer);
        assert_eq!(rt; buf, after);
    }
    Ok(())
}

#[test]
fn a_piece_of_0_counts_as_1(rt: HostRuntime) -> Result<(), Fail> {
    let alloc = rt.alloc();
    let bytes = List::from_vec([1, 2].to_vec(alloc)?);
    let mut source = MemSource::new(bytes, 0, List::new(alloc));
    let mut buf = [0; 2];
    assert_eq!(rt; source.read(&mut buf), Ok(1));
    assert_eq!(rt; buf, [1, 0]);
    Ok(())
}

#[test]
fn a_source_without_faults_fills_the_buffer(rt: HostRuntime) -> Result<(), Fail> {
    let mut source = NoFaultSource::new(List::from_vec([1, 2, 3].to_vec(rt.alloc())?));
    let mut buf = [0; 2];
    assert_eq!(rt; read_from(&mut source, &mut buf), Ok(2));
    assert_eq!(rt; buf, [1, 2]);
    assert_eq!(rt; read_from(&mut source, &mut buf), Ok(1));
    assert_eq!(rt; buf, [3, 2]);
    assert_eq!(rt; read_from(&mut source, &mut buf), Ok(0));
    Ok(())
}

#[test]
fn a_sink_keeps_all_but_the_planned_writes(rt: HostRuntime) -> Result<(), Fail> {
    let alloc = rt.alloc();
    let mut sink = MemSink::new(alloc, List::from_vec([1].to_vec(alloc)?));
    assert_eq!(rt; write_to(&mut sink, &[1, 2]), Ok(()));
    assert_eq!(rt; write_to(&mut sink, &[3]), Err(Failed));
    assert_eq!(rt; write_to(&mut sink, &[4]), Ok(()));
    assert_eq!(rt; sink.written(), [1, 2, 4].as_slice());
    Ok(())
}

#[test]
fn a_plant_answers_from_its_content(rt: HostRuntime) -> Result<(), Fail> {
    let alloc = rt.alloc();
    let image = List::from_vec([1, 2, 3].to_vec(alloc)?);
    let mut plant = MemPlant::new(alloc, image, List::new(alloc));
    assert_eq!(rt; plant.size(), Ok(3));
    let mut buf = [0; 3];
    assert_eq!(rt; plant.read_at(1, &mut buf), Ok(2));
    assert_eq!(rt; buf, [2, 3, 0]);
    assert_eq!(rt; plant.read_at(3, &mut buf), Ok(0));
    assert!(rt; plant.content().len() == 3);
    assert_eq!(rt; plant.write_at(2, &[4, 5]), Ok(()));
    assert_eq!(rt; plant.sync(), Ok(()));
    assert_eq!(rt; plant.emit(&[9, 8]), Ok(()));
    assert_eq!(rt; plant.emit(&[7]), Ok(()));
    assert_eq!(rt; plant.content(), [1, 2, 4, 5].as_slice());
    assert_eq!(rt; plant.sent(), [9, 8, 7].as_slice());
    let made = [
        PlantCall::Size,
        PlantCall::ReadAt,
        PlantCall::ReadAt,
        PlantCall::WriteAt,
        PlantCall::Sync,
        PlantCall::Emit,
        PlantCall::Emit,
    ];
    assert_eq!(rt; plant.calls(), made.as_slice());
    Ok(())
}

#[test]
fn a_plant_fails_the_planned_calls(rt: HostRuntime) -> Result<(), Fail> {
    let alloc = rt.alloc();
    for number in 0..5 {
        let image = List::from_vec([1, 2, 3].to_vec(alloc)?);
        let fail_at = List::from_vec([number, 9].to_vec(alloc)?);
        let mut plant = MemPlant::new(alloc, image, fail_at);
        let mut first = [true; 5];
        first[number as usize] = false;
        assert_eq!(rt; call_each(&mut plant), first, "call {number}");
        // A failed write stores the first half of its bytes, rounded down.
        let file = if number == 2 { [7, 2, 3] } else { [7, 8, 9] };
        assert_eq!(rt; plant.content(), file.as_slice(), "call {number}");
        assert_eq!(rt;
            plant.sent().len(),
            if number == 4 { 0 } else { 2 },
            "call {number}"
        );
        // Calls that failed are numbered too.
        assert_eq!(rt;
            call_each(&mut plant),
            [true, true, true, true, false],
            "call {number}"
        );
        assert_eq!(rt; plant.calls().len(), 10, "call {number}");
    }
    Ok(())
}

// A stop after some calls, and what is seen of the plant then.
struct Stop {
    after: u64,
    content: [u8; 3],
    dropped: [u8; 3],
    zeros: [u8; 3],
    sent: usize,
}

// The calls are a size, a read, a write of 7, 8 and 9, a sync, and an emission of two bytes.
const STOPS: [Stop; 6] = [
    Stop {
        after: 0,
        content: [1, 2, 3],
        dropped: [1, 2, 3],
        zeros: [1, 2, 3],
        sent: 0,
    },
    Stop {
        after: 1,
        content: [1, 2, 3],
        dropped: [1, 2, 3],
        zeros: [1, 2, 3],
        sent: 0,
    },
    Stop {
        after: 2,
        content: [1, 2, 3],
        dropped: [1, 2, 3],
        zeros: [1, 2, 3],
        sent: 0,
    },
    Stop {
        after: 3,
        content: [7, 8, 9],
        dropped: [1, 2, 3],
        zeros: [0, 0, 0],
        sent: 0,
    },
    Stop {
        after: 4,
        content: [7, 8, 9],
        dropped: [7, 8, 9],
        zeros: [7, 8, 9],
        sent: 0,
    },
    Stop {
        after: 5,
        content: [7, 8, 9],
        dropped: [7, 8, 9],
        zeros: [7, 8, 9],
        sent: 2,
    },
];

#[test]
fn a_plant_stops_after_its_calls(rt: HostRuntime) -> Result<(), Fail> {
    let alloc = rt.alloc();
    let made = [
        PlantCall::Size,
        PlantCall::ReadAt,
        PlantCall::WriteAt,
        PlantCall::Sync,
        PlantCall::Emit,
    ];
    for stop in &STOPS {
        let after = stop.after;
        let image = List::from_vec([1, 2, 3].to_vec(alloc)?);
        let mut plant = StopPlant::new(alloc, image, after);
        let passed = [after > 0, after > 1, after > 2, after > 3, after > 4];
        assert_eq!(rt; call_each(&mut plant), passed, "after {after}");
        // None passes once the plant has stopped.
        assert_eq!(rt; call_each(&mut plant), [false; 5], "after {after}");
        assert_eq!(rt; plant.calls(), &made[..after as usize], "after {after}");
        assert_eq!(rt; plant.content(), stop.content.as_slice(), "after {after}");
        assert_eq!(rt; plant.sent().len(), stop.sent, "after {after}");
        let dropped = plant.left(Pick::Dropped)?;
        assert_eq!(rt;
            dropped.as_slice(),
            stop.dropped.as_slice(),
            "after {after}"
        );
        let zeros = plant.left(Pick::Zeros)?;
        assert_eq!(rt; zeros.as_slice(), stop.zeros.as_slice(), "after {after}");
    }
    Ok(())
}

#[test]
fn a_stop_leaves_what_is_picked(rt: HostRuntime) -> Result<(), Fail> {
    let alloc = rt.alloc();
    let image = List::from_vec([1, 2, 3, 4].to_vec(alloc)?);
    let mut plant = StopPlant::new(alloc, image, 5);
    assert_eq!(rt; plant.write_at(1, &[20, 30]), Ok(()));
    assert_eq!(rt; plant.sync(), Ok(()));
    assert_eq!(rt; plant.write_at(2, &[31, 41, 51]), Ok(()));
    assert_eq!(rt; plant.emit(&[9]), Ok(()));
    assert_eq!(rt; plant.write_at(0, &[10]), Ok(()));
    // The plant has stopped, and the second byte isn't pending.
    assert_eq!(rt; plant.write_at(1, &[21]), Err(Failed));
    let kept = plant.left(Pick::Kept)?;
    assert_eq!(rt; kept.as_slice(), [10, 20, 31, 41, 51].as_slice());
    let dropped = plant.left(Pick::Dropped)?;
    assert_eq!(rt; dropped.as_slice(), [1, 20, 30, 4].as_slice());
    let zeros = plant.left(Pick::Zeros)?;
    assert_eq!(rt; zeros.as_slice(), [0, 20, 0, 0, 0].as_slice());
    let ones = plant.left(Pick::Ones)?;
    assert_eq!(rt; ones.as_slice(), [0xFF, 20, 0xFF, 0xFF, 0xFF].as_slice());
    Ok(())
}
