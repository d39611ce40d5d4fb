// What a tape holds, in lines for a person.
use crate::file::read_tape;
use crate::kind::Kind;
use crate::walk::walk_to_close;
use records::record::Record;
use std::io;

const KINDS: [Kind; 8] = [
    Kind::MapStart,
    Kind::MapEnd,
    Kind::SeqStart,
    Kind::SeqEnd,
    Kind::RecursiveAlias,
    Kind::Scalar,
    Kind::Integer,
    Kind::Null,
];

/// Walks the tape for each kind of event, and says how many there are and how the tape closes.
fn report_events(rt: &HostRuntime, text: &[u8], tape: &[Record]) -> io::Result<()> {
    let mut fault = None;
    for kind in KINDS {
        match walk_to_close(text, tape, kind) {
            Ok(walk) => {
                let count = walk.count;
                println!(rt; "  {kind:<18}{count:>4}")?;
                fault = walk.fault;
            }
            Err(refusal) => return println!(rt; "  not read: {refusal}"),
        }
    }
    match fault {
        None => println!(rt; "  closes plainly"),
        Some(fault) => println!(rt; "  closes with {fault}"),
    }
}

/// Reads a tape file and reports on it.
pub fn report_tape(rt: &HostRuntime, name: &str, text: &[u8], contents: &str) -> io::Result<()> {
    match read_tape(rt.alloc(), contents) {
        Ok(tape) => {
            let count = tape.len();
            println!(rt; "{name}: {count} records")?;
            report_events(rt, text, tape.as_slice())
        }
        Err(fault) => println!(rt; "{name}: {fault}"),
    }
}
