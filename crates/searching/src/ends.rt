// Where a node ends.
ghost use Rattle.std.specs.Prelude.{◌≡◌, ◌+◌, ◌<◌, ◌≤◌, true, List, drop};
ghost use Rattle.nodes.specs.Tree.{Node, flat, size, whole};
ghost use Rattle.nodes.specs.Reading.{opens};
ghost use Rattle.searching.specs.Slots.{Onward};

use crate::slots::slots_from;
use records::record::{Event, Record};

// How many containers are open behind the event, of `depth` before it.
fn depth_after(event: Event, depth: usize) -> usize
    requires { depth < usize.MAX }
    ensures opened { result ≡ opens depth event }
    ensures at_most_one_more { result ≤ depth + 1 }
{
    match event {
        Event::SeqStart { .. } | Event::MapStart { .. } => depth + 1,
        Event::SeqEnd | Event::MapEnd => depth.saturating_sub(1),
        Event::Scalar { .. } | Event::RecursiveAlias { .. } => depth,
    }
}

/// The slot behind the node that begins at `at`; some slot behind `at`, or the end, where no whole node does.
// A slot and no `Option`, as `visit_node`; and a held node is named by its first slot, by a rule of the project.
pub fn node_end(slots: &[Record], at: usize) -> usize
    ensures onward { Onward slots.now at result }
    ensures node { (t : Node) (rest : List Record) → whole t ≡ true → drop at slots.now ≡ flat t rest → result ≡ at + size t }
{
    let held = slots_from(slots, at);
    let mut depth: usize = 0;
    for (i, record) in held.iter().enumerate() {
        depth = depth_after(record.event, depth);
        if depth == 0 {
            return at + i + 1;
        }
    }
    slots.len()
}
