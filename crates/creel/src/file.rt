// The tape file, line by line.
ghost use Rattle.std.specs.Prelude.{Decides, Some};
ghost use Rattle.creel.specs.Files.{Says, Silent};
ghost use Rattle.creel.specs.Words.{file_words};

use records::record::Record;
use std::alloc::{AllocError, AllocFailed, Global};
use std::error::Error;
use std::fmt;
use tape_file::fault::LineFault;
use tape_file::read::read_record;

/// Why no tape is read from a file: a line, counted from 1, is not the line of a record, or memory is lacking.
#[derive(Clone, Copy, PartialEq, Eq, Debug)]
pub enum FileFault {
    Line { number: usize, fault: LineFault },
    Memory,
}

impl fmt::Display for FileFault {
    ghost output = { λ x. Some (file_words x) };

    fn fmt<W: fmt::Write>(&self, f: &mut fmt::Formatter<W>) -> fmt::Result {
        match self {
            FileFault::Line { number, fault } => write!(f, "line {number}: {fault}"),
            FileFault::Memory => f.write_str("not enough memory"),
        }
    }
}

impl Error for FileFault {}

impl From<AllocError> for FileFault {
    fn from(_: AllocError) -> FileFault {
        FileFault::Memory
    }
}

impl<T: Drop> From<AllocFailed<T>> for FileFault {
    fn from(_: AllocFailed<T>) -> FileFault {
        FileFault::Memory
    }
}

fn is_silent(line: &str) -> bool
    ensures { Decides result (Silent line.now) }
{
    matches!(line.as_bytes(), [] | [b'#', ..])
}

/// The record that a line says, nothing where the line is empty or begins with `#`, or else why it says none.
pub fn read_line(line: &str) -> Result<Option<Record>, LineFault>
    ensures { Says line.now result }
{
    if is_silent(line) {
        return Ok(None);
    }
    Ok(Some(read_record(line)?))
}

/// The records that the lines of a file say, in order.
pub fn read_tape(heap: Global, contents: &str) -> Result<Vec<Record>, FileFault> {
    let mut tape = Vec::new(heap);
    for (i, line) in contents.lines().enumerate() {
        let number = i.saturating_add(1);
        let said = read_line(line).map_err(|fault| FileFault::Line { number, fault })?;
        if let Some(record) = said {
            tape.push(record)?;
        }
    }
    Ok(tape)
}
