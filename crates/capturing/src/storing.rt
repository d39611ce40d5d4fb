// One event, from a source into the slots.
ghost use Rattle.std.specs.Prelude.{◌≡◌};
ghost use Rattle.capturing.specs.Filling.{GoesOn};
ghost use Rattle.capturing.specs.Storing.{One};

use crate::deferring::Deferring;
use crate::filling::FillGuard;
use crate::path::Spot;
use crate::question::{is_misplaced, question};
use events::source::Events;
use records::record::Event;
use records::refusal::{Reason, Refusal};

/// Stores and takes the next event, which comes at `spot`, where a container may be opened or not.
pub(crate) fn store_event<S: Events>(
    source: &mut Deferring<'_, S>,
    filling: &mut FillGuard<'_>,
    spot: Spot,
    low: bool,
) -> Result<Event, Refusal>
    ensures one { One spot low (S.meaning source.old.source.now) filling.old result (S.meaning source.new.source.now) filling.new }
    ensures goes_on { GoesOn filling.old filling.new }
    ensures same_reference { source.new.source.ghost_name ≡ source.old.source.ghost_name }
{
    let record = source.front()?;
    if is_misplaced(spot, record.event) {
        source.take_off();
        return Err(Reason::UnexpectedContainerEnd.at(record.location));
    }
    question(record, filling.has_room(), filling.text_len, low)?;
    filling.store(record);
    source.take_off();
    Ok(record.event)
}
