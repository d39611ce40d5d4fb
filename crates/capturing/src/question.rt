// What is asked of an event before it is stored.
ghost use Rattle.std.specs.Prelude.{◌≡◌, true, cond};
ghost use Rattle.std.specs.Result.{result_err};
ghost use Rattle.std.specs.Option.{option_map};
ghost use Rattle.records.specs.Places.{placed};
ghost use Rattle.records.specs.Refusals.{refused_at};
ghost use Rattle.nodes.specs.Reading.{is_start};
ghost use Rattle.capturing.specs.Paths.{misplaced, first_no};

use crate::path::Spot;
use records::record::{Event, Record};
use records::refusal::{Reason, Refusal};

/// Whether an event is an end that cannot stand at a spot.
pub(crate) fn is_misplaced(spot: Spot, event: Event) -> bool
    ensures { result ≡ misplaced spot event }
{
    match event {
        Event::SeqEnd => spot != Spot::Element,
        Event::MapEnd => spot != Spot::Key,
        _ => false,
    }
}

/// Whether an event opens a container.
fn is_start(event: Event) -> bool
    ensures { result ≡ is_start event }
{
    matches!(event, Event::SeqStart { .. } | Event::MapStart { .. })
}

/// Asks of an event whether a slot is free for it, whether its places lie in the text, and, if it opens a container,
/// whether it may. The error is the first question that is answered with no.
fn first_no(free: bool, text_len: usize, low: bool, event: Event) -> Result<(), Reason>
    ensures { result_err result ≡ first_no free (placed text_len event) (cond (is_start event) low true) }
{
    if !free {
        return Err(Reason::RackFull);
    }
    if !event.lies_within(text_len) {
        return Err(Reason::PlaceOutsideRackText);
    }
    if is_start(event) && !low {
        return Err(Reason::TooDeep);
    }
    Ok(())
}

/// Asks the questions of the next event: a refusal is at its location.
pub(crate) fn question(next: Record, free: bool, text_len: usize, low: bool) -> Result<(), Refusal>
    ensures { result_err result ≡ option_map (λ why. refused_at why next.location) (first_no free (placed text_len next.event) (cond (is_start next.event) low true)) }
{
    first_no(free, text_len, low, next.event).map_err(|reason| reason.at(next.location))
}
