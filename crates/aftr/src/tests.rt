//! What no clause says of the objects: which bytes reach the files, and which come back.

use crate::file_plant::{FilePlant, PlantPaths};
use crate::file_source::FileSource;
use crate::std_sink::StdSink;
use aftr_engine::LogUse;
use plant_io::{Failed, Plant, Sink, Source};
use std::fs::File;
use std::test::Fail;
use std::{env, fs, process};

// A path of this run's own, in the system's folder for temporary files. What a test makes there it removes as soon as it
// is open, so that nothing is left where an assertion fails.
fn temporary(rt: &HostRuntime, name: &str) -> Result<String, Fail> {
    let folder = env::temp_dir(rt)?;
    let id = process::id(rt.process());
    Ok(format!(in rt.alloc(); "{}/aftr-{id}-{name}", folder.as_str())?)
}

// A plant of a command that writes its log, which reads no other file.
fn writing(rt: &HostRuntime, log: Option<&str>, outlet: Option<&str>) -> Result<FilePlant, Fail> {
    opened(rt, LogUse::Writes, log, outlet)
}

fn opened(
    rt: &HostRuntime,
    log_use: LogUse,
    log: Option<&str>,
    outlet: Option<&str>,
) -> Result<FilePlant, Fail> {
    let paths = PlantPaths {
        log,
        log_use,
        outlet,
    };
    let mut others = Vec::new(rt.alloc());
    Ok(FilePlant::open(rt, &paths, &mut others)?)
}

#[test]
fn a_source_gives_its_file_in_order(rt: HostRuntime) -> Result<(), Fail> {
    let path = temporary(&rt, "source")?;
    fs::write(&rt, path.as_str(), b"abcde".as_slice())?;
    let mut source = FileSource::open(&rt, Some(path.as_str()));
    fs::remove_file(&rt, path.as_str())?;
    let mut buf = [0u8; 3];
    assert_eq!(rt; source.read(&mut buf), Ok(3));
    assert_eq!(rt; &buf, b"abc");
    assert_eq!(rt; source.read(&mut buf), Ok(2));
    assert_eq!(rt; &buf, b"dec");
    assert_eq!(rt; source.read(&mut buf), Ok(0));
    Ok(())
}

#[test]
fn a_source_without_a_file_fails(rt: HostRuntime) -> Result<(), Fail> {
    let path = temporary(&rt, "missing")?;
    let mut missing = FileSource::open(&rt, Some(path.as_str()));
    let mut unnamed = FileSource::open(&rt, None);
    let mut buf = [0u8; 3];
    for _ in 0..2 {
        assert_eq!(rt; missing.read(&mut buf), Err(Failed));
        assert_eq!(rt; unnamed.read(&mut buf), Err(Failed));
    }
    assert!(rt; !fs::exists(&rt, path.as_str())?);
    Ok(())
}

#[test]
fn a_sink_writes_all_before_it_answers(rt: HostRuntime) -> Result<(), Fail> {
    let path = temporary(&rt, "sink")?;
    let mut sink = StdSink::new(File::create(&rt, path.as_str())?);
    let mut closed = StdSink::new(File::open(&rt, path.as_str())?);
    let mut written = FileSource::open(&rt, Some(path.as_str()));
    fs::remove_file(&rt, path.as_str())?;
    assert_eq!(rt; sink.write(b"one\n"), Ok(()));
    assert_eq!(rt; sink.write(b""), Ok(()));
    assert_eq!(rt; sink.write(b"two\n"), Ok(()));
    let mut bytes = [0u8; 9];
    assert_eq!(rt; written.read(&mut bytes), Ok(8));
    assert_eq!(rt; &bytes, b"one\ntwo\n\0");
    assert_eq!(rt; closed.write(b"three\n"), Err(Failed));
    Ok(())
}

#[test]
fn a_plant_reads_what_it_wrote(rt: HostRuntime) -> Result<(), Fail> {
    let log = temporary(&rt, "log")?;
    let outlet = temporary(&rt, "outlet")?;
    let mut plant = writing(&rt, Some(log.as_str()), Some(outlet.as_str()))?;
    let mut sent = FileSource::open(&rt, Some(outlet.as_str()));
    fs::remove_file(&rt, log.as_str())?;
    fs::remove_file(&rt, outlet.as_str())?;
    assert_eq!(rt; plant.size(), Ok(0));
    assert_eq!(rt; plant.write_at(0, b"record"), Ok(()));
    assert_eq!(rt; plant.write_at(3, b"all over"), Ok(()));
    assert_eq!(rt; plant.sync(), Ok(()));
    assert_eq!(rt; plant.emit(b"first "), Ok(()));
    assert_eq!(rt; plant.emit(b"second"), Ok(()));
    assert_eq!(rt; plant.size(), Ok(11));
    let mut buf = [0u8; 4];
    assert_eq!(rt; plant.read_at(1, &mut buf), Ok(4));
    assert_eq!(rt; &buf, b"ecal");
    assert_eq!(rt; plant.read_at(9, &mut buf), Ok(2));
    assert_eq!(rt; &buf, b"eral");
    assert_eq!(rt; plant.read_at(12, &mut buf), Ok(0));
    assert_eq!(rt; plant.read_at(0, &mut []), Ok(0));
    let mut bytes = [0u8; 13];
    assert_eq!(rt; sent.read(&mut bytes), Ok(12));
    assert_eq!(rt; &bytes, b"first second\0");
    Ok(())
}

#[test]
fn a_plant_keeps_its_log_and_empties_its_outlet(rt: HostRuntime) -> Result<(), Fail> {
    let log = temporary(&rt, "kept")?;
    let outlet = temporary(&rt, "emptied")?;
    fs::write(&rt, log.as_str(), b"record".as_slice())?;
    fs::write(&rt, outlet.as_str(), b"sent".as_slice())?;
    let mut plant = writing(&rt, Some(log.as_str()), Some(outlet.as_str()))?;
    let mut sent = FileSource::open(&rt, Some(outlet.as_str()));
    fs::remove_file(&rt, log.as_str())?;
    fs::remove_file(&rt, outlet.as_str())?;
    let mut buf = [0u8; 7];
    assert_eq!(rt; plant.size(), Ok(6));
    assert_eq!(rt; plant.read_at(0, &mut buf), Ok(6));
    assert_eq!(rt; &buf, b"record\0");
    assert_eq!(rt; sent.read(&mut buf), Ok(0));
    Ok(())
}

#[test]
fn a_plant_without_files_fails(rt: HostRuntime) -> Result<(), Fail> {
    let folder = temporary(&rt, "no-folder")?;
    let inside = format!(in rt.alloc(); "{folder}/file")?;
    let mut missing = writing(&rt, Some(inside.as_str()), Some(inside.as_str()))?;
    let mut unnamed = writing(&rt, None, None)?;
    assert_eq!(rt; answers(&mut missing), [Err(Failed); 5]);
    assert_eq!(rt; answers(&mut unnamed), [Err(Failed); 5]);
    Ok(())
}

#[test]
fn an_outlet_that_is_the_log_or_an_input_is_not_emptied(rt: HostRuntime) -> Result<(), Fail> {
    let log = temporary(&rt, "shared-log")?;
    let input = temporary(&rt, "shared-input")?;
    fs::write(&rt, log.as_str(), b"record".as_slice())?;
    fs::write(&rt, input.as_str(), b"frames".as_slice())?;
    let mut as_log = writing(&rt, Some(log.as_str()), Some(log.as_str()))?;
    let mut source = FileSource::open(&rt, Some(input.as_str()));
    let mut others = Vec::new(rt.alloc());
    if let Some(id) = source.id()? {
        others.push(id)?;
    }
    let paths = PlantPaths {
        log: Some(log.as_str()),
        log_use: LogUse::Writes,
        outlet: Some(input.as_str()),
    };
    let mut as_input = FilePlant::open(&rt, &paths, &mut others)?;
    let mut kept = FileSource::open(&rt, Some(log.as_str()));
    fs::remove_file(&rt, log.as_str())?;
    fs::remove_file(&rt, input.as_str())?;
    assert_eq!(rt; answers(&mut as_log), [Err(Failed); 5]);
    assert_eq!(rt; answers(&mut as_input), [Err(Failed); 5]);
    let mut buf = [0u8; 7];
    assert_eq!(rt; kept.read(&mut buf), Ok(6));
    assert_eq!(rt; &buf, b"record\0");
    assert_eq!(rt; source.read(&mut buf), Ok(6));
    assert_eq!(rt; &buf, b"frames\0");
    Ok(())
}

#[test]
fn a_log_has_one_writer_and_any_readers(rt: HostRuntime) -> Result<(), Fail> {
    let log = temporary(&rt, "locked")?;
    let mut first = writing(&rt, Some(log.as_str()), None)?;
    let mut second = writing(&rt, Some(log.as_str()), None)?;
    let mut reader = opened(&rt, LogUse::Reads, Some(log.as_str()), None)?;
    fs::remove_file(&rt, log.as_str())?;
    assert_eq!(rt; first.write_at(0, b"record"), Ok(()));
    assert_eq!(rt; second.size(), Err(Failed));
    assert_eq!(rt; reader.size(), Ok(6));
    assert_eq!(rt; reader.write_at(0, b"x"), Err(Failed));
    Ok(())
}

#[test]
fn a_log_that_is_only_read_is_not_made(rt: HostRuntime) -> Result<(), Fail> {
    let log = temporary(&rt, "unmade")?;
    let mut reader = opened(&rt, LogUse::Reads, Some(log.as_str()), None)?;
    assert_eq!(rt; reader.size(), Err(Failed));
    assert!(rt; !fs::exists(&rt, log.as_str())?);
    Ok(())
}

// What each of the five calls answers.
fn answers(plant: &mut FilePlant) -> [Result<(), Failed>; 5] {
    [
        plant.size().map(|_| ()),
        plant.read_at(0, &mut [0u8; 4]).map(|_| ()),
        plant.write_at(0, b"x"),
        plant.sync(),
        plant.emit(b"x"),
    ]
}
