// Recorded events, played back as a source of events.
ghost use Rattle.std.specs.Prelude.{◌≡◌, true, false, [], map};
ghost use Rattle.records.specs.declared.location.NodeOrigin.TheVariants.{Direct, Merge};
ghost use Rattle.events.specs.Fronts.{at_front};
ghost use Rattle.nodes.specs.Tree.{flat};
ghost use Rattle.nodes.specs.Fields.{resolved as read};
ghost use Rattle.nodes.specs.Looking.{shown_with, played_with};
ghost use Rattle.playing.specs.Replay.{between, played_as, played, past_with, recorded, recorded_end, recorded_past, replay_meaning, play_from, PlaysNode};

use events::reader::Reader;
use events::reel::Reel;
use records::location::{Location, NodeOrigin};
use records::record::Record;
use records::refusal::Refusal;
use std::ops::Range;

/// Records of some slots that are still to be played, as they were recorded or as merged at a reference.
#[derive(Drop)]
pub struct Replay<'a> {
    records: &'a [Record],
    reference: Option<Location>,
}

/// Plays recorded events as a source.
pub type ReplayEvents<'a> = Reader<'a, Replay<'a>>;

/// The slots of a span, as far as there are slots.
#[tactic(auto, using(std::proofs::lemmas::List::take_min, std::proofs::lemmas::List::drop_min))]
fn slots_of(slots: &[Record], span: Range<usize>) -> &[Record]
    ensures { result.now ≡ between span.start span.end slots.now }
{
    let before = &slots[..span.end.min(slots.len())];
    &before[span.start.min(before.len())..]
}

/// The origin shown with a reference: an alias stays, all else is merged there.
fn shown_with(reference: Location, origin: NodeOrigin) -> NodeOrigin
    ensures { result ≡ shown_with reference origin }
{
    match origin {
        NodeOrigin::Alias(_) => origin,
        NodeOrigin::Direct | NodeOrigin::Merge(_) => NodeOrigin::Merge(reference),
    }
}

/// A record as it is played.
fn played_as(slot: Record, reference: Option<Location>) -> Record
    ensures { result ≡ played_as reference slot }
{
    match reference {
        None => slot,
        Some(location) => Record {
            origin: shown_with(location, slot.origin),
            ..slot
        },
    }
}

/// The origin shown past the end.
fn past_with(reference: Option<Location>) -> NodeOrigin
    ensures { result ≡ past_with reference }
{
    reference.map_or(NodeOrigin::Direct, NodeOrigin::Merge)
}

impl Reel for Replay<'_> {
    ghost coming = { recorded };

    ghost ending = { recorded_end };

    ghost beyond = { recorded_past };

    fn first(&self) -> Result<Option<Record>, Refusal> {
        // No `map`: of its result nothing is known that the closure answers, so that proof did not close.
        match self.records {
            [first, ..] => Ok(Some(played_as(*first, self.reference))),
            [] => Ok(None),
        }
    }

    fn take(&mut self) -> Option<Record> {
        let [first, rest @ ..] = self.records else {
            return None;
        };
        self.records = rest;
        Some(played_as(*first, self.reference))
    }

    fn origin_past_end(&self) -> NodeOrigin {
        past_with(self.reference)
    }
}

// Three functions over one `start`: each has a law of its own, of all slots and a span, and a struct of what they take
// would be made for one call.
impl<'a> Replay<'a> {
    /// A playback of the slots of a span, the first of them marked or not.
    fn start(
        slots: &'a [Record],
        span: Range<usize>,
        anchors: &'a [u32],
        reference: Option<Location>,
        marked: bool,
    ) -> ReplayEvents<'a>
        ensures { replay_meaning result ≡ play_from (past_with reference) (at_front marked (played reference (between span.start span.end slots.now))) anchors.now }
    {
        let records = slots_of(slots, span);
        Reader::start(Replay { records, reference }, anchors, marked)
    }

    /// Plays the slots of a span, as far as there are slots, as they were recorded.
    pub fn plain(slots: &'a [Record], span: Range<usize>, anchors: &'a [u32]) -> ReplayEvents<'a>
        ensures means { replay_meaning result ≡ play_from Direct (between span.start span.end slots.now) anchors.now }
        ensures node { PlaysNode (λ t. flat t []) span.start span.end slots.now (replay_meaning result) }
    {
        Replay::start(slots, span, anchors, None, false)
    }

    /// Plays them as merged at a reference.
    pub fn with_reference(
        slots: &'a [Record],
        span: Range<usize>,
        anchors: &'a [u32],
        reference: Location,
    ) -> ReplayEvents<'a>
        ensures means { replay_meaning result ≡ play_from (Merge reference) (map (played_with reference) (between span.start span.end slots.now)) anchors.now }
        ensures node { PlaysNode (λ t. map (played_with reference) (flat t [])) span.start span.end slots.now (replay_meaning result) }
    {
        Replay::start(slots, span, anchors, Some(reference), false)
    }

    /// Plays them with a recursive alias that comes first as the null that it is read as, whatever the deferral.
    pub fn of_marked_key(
        slots: &'a [Record],
        span: Range<usize>,
        anchors: &'a [u32],
        reference: Option<Location>,
    ) -> ReplayEvents<'a>
        ensures means { replay_meaning result ≡ play_from (past_with reference) (at_front true (played reference (between span.start span.end slots.now))) anchors.now }
        ensures node { PlaysNode (λ t. played reference (flat (read false t) [])) span.start span.end slots.now (replay_meaning result) }
    {
        Replay::start(slots, span, anchors, reference, true)
    }
}
