// Which records are merge keys.
ghost use Rattle.std.specs.Prelude.{◌≡◌};
ghost use Rattle.events.specs.View.{seen};
ghost use Rattle.searching.specs.Slots.{merge_seen};

use events::ev::Ev;
use fingerprints::merge::is_merge_key_event;
use records::record::Record;

/// Whether a record is a merge key, seen beside its text; one with a place outside the text is none.
pub fn is_merge_key_at(text: &[u8], record: Record) -> bool
    ensures { result ≡ merge_seen (seen text.now «record») }
{
    Ev::of(record, text).is_some_and(is_merge_key_event)
}
