// Lines as a person writes them, and as they should be refused.
use records::location::{Location, NodeOrigin};
use records::record::{Event, Place, Record, ScalarStyle};
use records::tags::SfTag;
use std::process::Abort;
use std::test::Fail;
use tape_file::fault::LineFault;
use tape_file::line::{Line, write_record};
use tape_file::read::read_record;
use tape_file::round_trip::reads_back;

fn reads_as(rt: &impl Abort, line: &str, record: Record) -> Result<(), Fail> {
    assert!(rt; read_record(line)? == record);
    assert!(rt; line.parse::<Line<Record>>()?.0 == record);
    Ok(())
}

fn at(line: u32, column: u32) -> Location {
    Location {
        line,
        column,
        source_id: 0,
    }
}

#[test]
fn map_start(rt: HostRuntime) -> Result<(), Fail> {
    let event = Event::MapStart {
        anchor: 0,
        tag: SfTag::None,
        raw_tag: None,
    };
    reads_as(
        &rt,
        "1 1 0 direct map 0 none -",
        Record {
            location: at(1, 1),
            origin: NodeOrigin::Direct,
            event,
        },
    )
}

#[test]
fn aliased_scalar(rt: HostRuntime) -> Result<(), Fail> {
    let line = "2 3 0 alias 9 7 0 scalar 4 other raw 10 5 plain 16 3";
    let event = Event::Scalar {
        anchor: 4,
        tag: SfTag::Other,
        raw_tag: Some(Place { start: 10, len: 5 }),
        style: ScalarStyle::Plain,
        value: Place { start: 16, len: 3 },
    };
    let record = Record {
        location: at(2, 3),
        origin: NodeOrigin::Alias(at(9, 7)),
        event,
    };
    reads_as(&rt, line, record)?;
    assert!(rt; write_record(rt.alloc(), record)?.as_str() == line);
    assert!(rt; reads_back(rt.alloc(), record)?? == record);
    Ok(())
}

#[test]
fn every_tag_word(rt: HostRuntime) -> Result<(), Fail> {
    let tags =
        "none int float bool null seq map timestamp binary string merge value nonspecific include degrees radians other";
    for tag in tags.split(' ') {
        let line = format!(in rt.alloc(); "1 2 3 merge 4 5 6 seq 7 {tag} -")?;
        let record = read_record(line.as_str())?;
        assert!(rt;
            write_record(rt.alloc(), record)?.as_str() == line.as_str(),
            "{}",
            tag
        );
    }
    Ok(())
}

#[test]
fn refused_lines(rt: HostRuntime) -> Result<(), Fail> {
    let lines = [
        ("01 1 0 direct endmap", LineFault::NoNumber),
        ("+1 1 0 direct endmap", LineFault::NoNumber),
        ("1 4294967296 0 direct endmap", LineFault::NoNumber),
        ("1  1 0 direct endmap", LineFault::NoNumber),
        ("1 1 0 direct endmap ", LineFault::WordsLeftOver),
        ("1 1 0 direct endmap endmap", LineFault::WordsLeftOver),
        ("1 1 0 direct", LineFault::MissingWord),
        ("1 1 0 indirect endmap", LineFault::NoOrigin),
        ("1 1 0 direct end", LineFault::NoEvent),
        ("1 1 0 direct map 0 text -", LineFault::NoTag),
        ("1 1 0 direct map 0 none +", LineFault::NoRawTag),
        ("1 1 0 direct scalar 0 none - bold 0 1", LineFault::NoStyle),
    ];
    for (line, fault) in lines {
        assert_eq!(rt; read_record(line).err(), Some(fault), "{}", line);
    }
    Ok(())
}
