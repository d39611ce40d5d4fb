// A source of events, by its meaning.
ghost use Rattle.std.specs.Prelude.{◌≡◌};
ghost use Rattle.events.specs.Meaning.{Meaning, known, peeked, settled, taken, deferred, origin_of, reference_of};

use crate::resolving::is_listed;
use records::location::{Location, NodeOrigin};
use records::record::Record;
use records::refusal::Refusal;

/// Events one after another, with a look ahead at the next one, the front.
pub trait Events {
    ghost meaning: { Self → Meaning };

    /// The front, nothing at a plain close, or the closing fault. With deferral off a recursive alias at the front is
    /// resolved, and stays so; one that is not known is refused.
    fn peek(&mut self) -> Result<Option<Record>, Refusal>
        ensures answer { result ≡ peeked (meaning self.old) }
        ensures after { meaning self.new ≡ settled result (meaning self.old) };

    /// Answers as `peek`, and takes the front off, if there is one.
    fn next(&mut self) -> Result<Option<Record>, Refusal>
        ensures answer { result ≡ peeked (meaning self.old) }
        ensures after { meaning self.new ≡ taken result (meaning self.old) };

    /// Switches deferral of recursive aliases on or off, and answers how it was.
    fn defer_recursive_aliases(&mut self, defer: bool) -> bool
        ensures answer { result ≡ (meaning self.old).deferring }
        ensures after { meaning self.new ≡ deferred defer (meaning self.old) };

    /// The known anchors.
    fn known_anchors(&self) -> &[u32]
        ensures { result.now ≡ (meaning self.now).anchors };

    fn is_known(&self, anchor: u32) -> bool
        ensures { result ≡ known anchor (meaning self.now).anchors }
    {
        is_listed(self.known_anchors(), anchor)
    }

    /// The origin of the front, or the one that is shown past the end.
    fn node_origin(&self) -> NodeOrigin
        ensures { result ≡ origin_of (meaning self.now) };

    /// Where the origin of the front points; for a direct one the front's own location, or the last location where
    /// there is no front.
    fn reference_location(&self) -> Location
        ensures { result ≡ reference_of (meaning self.now) };

    /// The location of the event last taken off; before that of the first event, and UNKNOWN where there was none.
    fn last_location(&self) -> Location
        ensures { result ≡ (meaning self.now).last };
}
