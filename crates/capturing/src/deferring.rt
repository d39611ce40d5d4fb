// A source that defers its recursive aliases.
ghost use Rattle.std.specs.Prelude.{◌≡◌, true};
ghost use Rattle.events.specs.Meaning.{deferred};
ghost use Rattle.nodes.specs.Taking.{past};
ghost use Rattle.capturing.specs.Paths.{first_record};

use events::source::Events;
use records::record::Record;
use records::refusal::{Reason, Refusal};

/// Switches deferral on, and puts it back as it was when it is let go.
// That deferral is on is a fact of `Deferring`: a ghost field has to hold when a drop returns, and here it would not.
pub(crate) struct DeferralGuard<'s, S: Events> {
    pub(crate) source: &'s mut S,
    before: bool,
}

impl<S: Events> Drop for DeferralGuard<'_, S> {
    fn drop(self)
        ensures { S.meaning self.exit.0.now ≡ deferred self.entry.before (S.meaning self.entry.source.now) }
    {
        let DeferralGuard { source, before } = self;
        source.defer_recursive_aliases(before);
    }
}

impl<'s, S: Events> DeferralGuard<'s, S> {
    /// Switches deferral on.
    pub(crate) fn over(source: &'s mut S) -> DeferralGuard<'s, S>
        ensures same_reference { result.source.ghost_name ≡ source.entry.ghost_name }
        ensures means { S.meaning result.source.now ≡ deferred true (S.meaning source.old) }
        ensures was { result.before ≡ (S.meaning source.old).deferring }
    {
        let before = source.defer_recursive_aliases(true);
        DeferralGuard { source, before }
    }
}

/// A source that defers its recursive aliases.
// That it stays the same reference is said of each call: it compares before and after, and a ghost field has one value.
#[derive(Drop)]
pub(crate) struct Deferring<'s, S: Events> {
    pub(crate) source: &'s mut S,
    ghost defers: { (S.meaning source.now).deferring ≡ true },
}

impl<S: Events> Deferring<'_, S> {
    /// Shows the next event, which has to come.
    pub(crate) fn front(&mut self) -> Result<Record, Refusal>
        ensures answer { result ≡ first_record (S.meaning self.old.source.now) }
        ensures after { S.meaning self.new.source.now ≡ S.meaning self.old.source.now }
        ensures same_reference { self.new.source.ghost_name ≡ self.old.source.ghost_name }
    {
        let Some(record) = self.source.peek()? else {
            return Err(Reason::Eof.at(self.source.last_location()));
        };
        Ok(record)
    }

    /// Takes the next event off, if there is one.
    pub(crate) fn take_off(&mut self)
        ensures after { S.meaning self.new.source.now ≡ past 1 (S.meaning self.old.source.now) }
        ensures same_reference { self.new.source.ghost_name ≡ self.old.source.ghost_name }
    {
        let _ = self.source.next();
    }
}
