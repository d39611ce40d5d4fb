// The way of a path through the events of a node.
ghost use Rattle.std.specs.Prelude.{◌≡◌, ◌<◌, true, [], ◌∷◌};
ghost use Rattle.arrayvec.specs.ArrayVec.{array_vec_len};
ghost use Rattle.capturing.specs.declared.path.Spot.TheVariants.{Start};
ghost use Rattle.nodes.specs.Reading.{is_start, is_end};
ghost use Rattle.capturing.specs.Paths.{spots_of, beyond, is_done, onward, follow, outward};

use crate::path::{Path, Spot};
use arrayvec::ArrayVec;
use records::record::Event;

impl Spot {
    /// The spot behind a whole node at this one.
    fn beyond(self) -> Spot
        ensures { result ≡ beyond self }
    {
        match self {
            Spot::Start | Spot::Done => Spot::Done,
            Spot::Element => Spot::Element,
            Spot::Key => Spot::Value,
            Spot::Value => Spot::Key,
        }
    }

    /// Whether the node is read.
    fn is_done(self) -> bool
        ensures { result ≡ is_done self }
    {
        self == Spot::Done
    }
}

impl Path {
    /// The path to the node itself.
    pub(crate) fn new() -> Path
        ensures { spots_of result ≡ Start ∷ [] }
    {
        Path {
            spot: Spot::Start,
            around: ArrayVec::new(),
        }
    }

    /// Goes into a container, behind which the next event stands behind a whole node.
    fn enter(&mut self, inner: Spot)
        requires { array_vec_len self.old.around < 64 }
        ensures { spots_of self.new ≡ inner ∷ onward (spots_of self.old) }
    {
        self.around.push(self.spot.beyond());
        self.spot = inner;
    }

    /// Goes out of the innermost container.
    fn leave(&mut self)
        requires { 0 < array_vec_len self.old.around }
        ensures { spots_of self.new ≡ outward (spots_of self.old) }
    {
        self.spot = self.around.pop().unwrap();
    }

    /// Goes past an event, and says whether the node ends with it.
    pub(crate) fn step(&mut self, event: Event) -> bool
        requires room { is_start event ≡ true → array_vec_len self.old.around < 64 }
        requires inner { is_end event ≡ true → 0 < array_vec_len self.old.around }
        ensures last { result ≡ is_done self.new.spot }
        ensures on { spots_of self.new ≡ follow (spots_of self.old) event }
    {
        match event {
            Event::SeqStart { .. } => self.enter(Spot::Element),
            Event::MapStart { .. } => self.enter(Spot::Key),
            Event::SeqEnd | Event::MapEnd => self.leave(),
            Event::Scalar { .. } | Event::RecursiveAlias { .. } => self.spot = self.spot.beyond(),
        }
        self.spot.is_done()
    }
}
