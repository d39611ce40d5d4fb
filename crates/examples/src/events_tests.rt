// A tape read to its close, with and without deferral.
use events::ev::Ev;
use events::resolving::null_of;
use events::source::Events;
use events::tape::TapeReader;
use records::location::{Location, NodeOrigin};
use records::record::{Event, Place, Record, ScalarStyle};
use records::refusal::{Reason, Refusal};
use records::tags::SfTag;
use std::test::Fail;

fn at(line: u32) -> Location {
    Location {
        line,
        column: 1,
        source_id: 0,
    }
}

fn record(line: u32, event: Event) -> Record {
    Record {
        location: at(line),
        origin: NodeOrigin::Direct,
        event,
    }
}

fn scalar(line: u32, start: u32, len: u32) -> Record {
    record(
        line,
        Event::Scalar {
            anchor: 0,
            tag: SfTag::None,
            raw_tag: None,
            style: ScalarStyle::Plain,
            value: Place { start, len },
        },
    )
}

fn alias(line: u32, anchor: u32) -> Record {
    Record {
        location: at(line),
        origin: NodeOrigin::Alias(at(90)),
        event: Event::RecursiveAlias { anchor },
    }
}

// The answers of `next`, one after another, are these.
fn gives(reader: &mut TapeReader, answers: &[Result<Option<Record>, Refusal>]) -> bool {
    answers.iter().all(|answer| reader.next() == *answer)
}

fn outside(offset: usize) -> Refusal {
    Refusal {
        reason: Reason::PlaceOutsideText,
        location: Location::UNKNOWN,
        offset,
    }
}

#[test]
fn a_tape_is_read_to_its_end(rt: HostRuntime) -> Result<(), Fail> {
    let tape = [scalar(1, 0, 2), scalar(2, 2, 1)];
    let mut reader = TapeReader::new(b"abc", &tape, &[])?;
    assert!(rt; reader.peek() == Ok(Some(tape[0])));
    assert!(rt;
        gives(
            &mut reader,
            &[Ok(Some(tape[0])), Ok(Some(tape[1])), Ok(None), Ok(None)],
        )
    );
    Ok(())
}

#[test]
fn a_place_past_the_text_closes_the_tape(rt: HostRuntime) -> Result<(), Fail> {
    let tape = [scalar(1, 0, 3), scalar(2, 2, 2), scalar(3, 0, 1)];
    let mut reader = TapeReader::new(b"abc", &tape, &[])?;
    assert!(rt;
        gives(
            &mut reader,
            &[Ok(Some(tape[0])), Err(outside(1)), Err(outside(1))],
        )
    );
    assert!(rt; reader.peek() == Err(outside(1)));
    Ok(())
}

#[test]
fn the_last_location_is_that_of_the_event_last_taken(rt: HostRuntime) -> Result<(), Fail> {
    let tape = [scalar(1, 0, 3), scalar(2, 0, 0), scalar(3, 4, 0)];
    let mut reader = TapeReader::new(b"abc", &tape, &[])?;
    assert!(rt; reader.last_location() == at(1));
    assert!(rt; gives(&mut reader, &[Ok(Some(tape[0]))]));
    assert!(rt; reader.last_location() == at(1) && reader.reference_location() == at(2));
    assert!(rt; gives(&mut reader, &[Ok(Some(tape[1])), Err(outside(2))]));
    assert!(rt; reader.last_location() == at(2) && reader.reference_location() == at(2));
    Ok(())
}

#[test]
fn a_faulty_first_record_has_no_location(rt: HostRuntime) -> Result<(), Fail> {
    let tape = [scalar(1, 4, 0)];
    let reader = TapeReader::new(b"abc", &tape, &[])?;
    assert!(rt; reader.last_location() == Location::UNKNOWN);
    Ok(())
}

#[test]
fn a_known_alias_is_read_as_null_and_stays_so(rt: HostRuntime) -> Result<(), Fail> {
    let tape = [alias(1, 7), alias(2, 7)];
    let mut reader = TapeReader::new(b"", &tape, &[5, 7])?;
    let null = null_of(tape[0], 7);
    assert!(rt; reader.peek() == Ok(Some(null)) && reader.reference_location() == at(90));
    assert!(rt; !reader.defer_recursive_aliases(true));
    assert!(rt; gives(&mut reader, &[Ok(Some(null)), Ok(Some(tape[1])), Ok(None)]));
    Ok(())
}

#[test]
fn an_unknown_alias_is_refused_and_stays(rt: HostRuntime) -> Result<(), Fail> {
    let tape = [scalar(1, 0, 0), alias(2, 8)];
    let mut reader = TapeReader::new(b"", &tape, &[5, 7])?;
    let fault = Reason::UnknownAlias.at(at(2));
    assert!(rt; gives(&mut reader, &[Ok(Some(tape[0])), Err(fault), Err(fault)]));
    assert!(rt; !reader.defer_recursive_aliases(true) && reader.last_location() == at(1));
    assert!(rt; gives(&mut reader, &[Ok(Some(tape[1])), Ok(None)]));
    Ok(())
}

#[test]
fn a_long_tape_is_refused_before_a_long_text(rt: HostRuntime) -> Result<(), Fail> {
    let long = vec![in rt.alloc(); scalar(1, 0, 0); 65_537]?;
    let text = vec![in rt.alloc(); 0u8; 65_537]?;
    let refused = TapeReader::new(text.as_slice(), long.as_slice(), &[]);
    assert!(rt; refused.is_err_and(|why| why.reason == Reason::TapeTooLong));
    let refused = TapeReader::new(text.as_slice(), &[], &[]);
    assert!(rt; refused.is_err_and(|why| why.reason == Reason::TextTooLong));
    Ok(())
}

#[test]
fn an_event_shows_its_bytes(rt: HostRuntime) -> Result<(), Fail> {
    match Ev::of(scalar(1, 1, 2), b"abcd") {
        Some(Ev::Scalar { value, .. }) => assert!(rt; value == b"bc".as_slice()),
        _ => return Err(Fail::new("no scalar")),
    }
    assert!(rt; Ev::of(scalar(1, 3, 2), b"abcd").is_none());
    Ok(())
}
