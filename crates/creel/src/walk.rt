// A tape walked to its close.
ghost use Rattle.creel.specs.Walks.{Walked};

use crate::kind::{Kind, is_of_kind};
use events::source::Events;
use events::tape::TapeReader;
use records::record::Record;
use records::refusal::Refusal;

/// How many events of a kind a tape gives, and the fault that it closes with, if there is one.
#[derive(Clone, Copy, PartialEq, Eq, Debug)]
pub struct Walk {
    pub count: usize,
    pub fault: Option<Refusal>,
}

/// Takes the events of a tape one after another, recursive aliases as they are, and counts those of a kind. A tape or a
/// text that is too long is refused.
// Text and tape, and no struct of both: they come from two files, and the reader takes them as they are lent.
pub fn walk_to_close<'a>(text: &'a [u8], tape: &'a [Record], kind: Kind) -> Result<Walk, Refusal>
    ensures { Walked kind text.now tape.now result }
{
    let mut reader = TapeReader::new(text, tape, &[])?;
    reader.defer_recursive_aliases(true);
    let mut count = 0;
    let fault = 'events: loop {
        match reader.next() {
            Ok(Some(record)) => {
                if is_of_kind(record, text, kind) {
                    count += 1;
                }
            }
            Ok(None) => break 'events None,
            Err(fault) => break 'events Some(fault),
        }
    };
    Ok(Walk { count, fault })
}
