// A reel, read as a source of events.
ghost use Rattle.std.specs.Prelude.{◌≡◌, true, false, not, ◌||◌};
ghost use Rattle.records.specs.Blank.{unknown};
ghost use Rattle.events.specs.Meaning.{peeked, settled, deferred, own_at};
ghost use Rattle.events.specs.Reels.{reading, reader_meaning};

use crate::reel::Reel;
use crate::resolving::{reference_of, resolve_recursive_alias, shown_as};
use crate::source::Events;
use records::location::{Location, NodeOrigin};
use records::record::Record;
use records::refusal::Refusal;

/// Reads any reel. It keeps whether the front was looked at, whether aliases are deferred, and the last location.
#[derive(Drop)]
pub struct Reader<'a, R> {
    reel: R,
    anchors: &'a [u32],
    resolved: bool,
    deferring: bool,
    last: Location,
}

impl<'a, R: Reel> Reader<'a, R> {
    /// A reader that has taken nothing, not deferring, its front marked as looked at or not.
    pub fn start(reel: R, anchors: &'a [u32], resolved: bool) -> Reader<'a, R>
        ensures { reader_meaning R.coming R.ending R.beyond result ≡ reading (R.coming reel) (R.ending reel) (R.beyond reel) resolved false (own_at unknown (R.coming reel)) anchors.now }
    {
        let last = match reel.first() {
            Ok(Some(record)) => record.location,
            _ => Location::UNKNOWN,
        };
        Reader {
            reel,
            anchors,
            resolved,
            deferring: false,
            last,
        }
    }

    /// The front with no alias resolved by this call.
    // Inlined, as `peek` is: else a record is copied at each call.
    #[inline(always)]
    fn front(&self) -> Result<Option<Record>, Refusal>
        ensures { result ≡ peeked (deferred true (reader_meaning R.coming R.ending R.beyond self.now)) }
    {
        // No `map`: of its result nothing is known that the closure answers, so that proof did not close.
        let Some(record) = self.reel.first()? else {
            return Ok(None);
        };
        Ok(Some(shown_as(record, self.resolved)))
    }

    /// Keeps the front as it was answered.
    fn settle(&mut self)
        ensures { reader_meaning R.coming R.ending R.beyond self.new ≡ reading (R.coming self.old.reel) (R.ending self.old.reel) (R.beyond self.old.reel) (self.old.resolved || not self.old.deferring) self.old.deferring self.old.last self.old.anchors.now }
    {
        self.resolved |= !self.deferring;
    }
}

impl<'a, R: Reel> Events for Reader<'a, R> {
    ghost meaning = { reader_meaning R.coming R.ending R.beyond };

    #[inline(always)]
    fn peek(&mut self) -> Result<Option<Record>, Refusal> {
        let Some(record) = self.front()? else {
            return Ok(None);
        };
        let record = resolve_recursive_alias(record, self.deferring, self.anchors)?;
        self.settle();
        Ok(Some(record))
    }

    fn next(&mut self) -> Result<Option<Record>, Refusal> {
        if self.deferring || self.resolved {
            // Nothing is resolved now: the front is looked at once, as it is taken.
            let Some(record) = self.reel.take() else {
                return self.front();
            };
            let front = shown_as(record, self.resolved);
            self.resolved = false;
            self.last = record.location;
            return Ok(Some(front));
        }
        let got = self.peek()?;
        if let Some(Record { location, .. }) = self.reel.take() {
            self.resolved = false;
            self.last = location;
        }
        Ok(got)
    }

    fn defer_recursive_aliases(&mut self, defer: bool) -> bool {
        std::mem::replace(&mut self.deferring, defer)
    }

    fn known_anchors(&self) -> &[u32] {
        self.anchors
    }

    fn node_origin(&self) -> NodeOrigin {
        match self.front() {
            Ok(Some(record)) => record.origin,
            _ => self.reel.origin_past_end(),
        }
    }

    fn reference_location(&self) -> Location {
        let own = match self.front() {
            Ok(Some(record)) => record.location,
            _ => self.last,
        };
        reference_of(self.node_origin(), own)
    }

    fn last_location(&self) -> Location {
        self.last
    }
}
