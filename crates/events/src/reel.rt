// A reel, that is a run of records to be read one after another.
ghost use Rattle.std.specs.Prelude.{◌≡◌, List};
ghost use Rattle.records.specs.declared.location.NodeOrigin.{NodeOrigin as Origin};
ghost use Rattle.records.specs.declared.record.Record.{Record as Recorded};
ghost use Rattle.events.specs.Meaning.{Close, tail};
ghost use Rattle.events.specs.Reels.{first_record, foremost};

use records::location::NodeOrigin;
use records::record::Record;
use records::refusal::Refusal;

/// Records that come one after another, how they end, and the origin shown past the end.
pub trait Reel {
    ghost coming: { Self → List Recorded };

    ghost ending: { Self → Close };

    ghost beyond: { Self → Origin };

    /// The record that comes first, nothing at a plain end, or the fault at which the reel ends.
    fn first(&self) -> Result<Option<Record>, Refusal>
        ensures { result ≡ foremost (ending self.now) (coming self.now) };

    /// Takes the first record off, if one comes.
    fn take(&mut self) -> Option<Record>
        ensures answer { result ≡ first_record (coming self.old) }
        ensures rest { coming self.new ≡ tail (coming self.old) }
        ensures end { ending self.new ≡ ending self.old }
        ensures past { beyond self.new ≡ beyond self.old };

    /// The origin shown past the end.
    fn origin_past_end(&self) -> NodeOrigin
        ensures { result ≡ beyond self.now };
}
