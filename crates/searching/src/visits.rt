// The search for merge keys inside a node.
ghost use Rattle.std.specs.Prelude.{◌≤◌, ◌-◌, length, IfOk};
ghost use Rattle.searching.specs.Slots.{Onward, Visited, PastNode, PastElements, PastPairs};

use crate::merges::is_merge_key_at;
use crate::slots::slots_from;
use records::location::Location;
use records::record::{Event, Record};

// By a rule of the project the search recurses over held events, and fewer slots are left for each call inward.
// The text stays while the slots that are left change at each step: a struct of both would be made anew each time.

// What is left behind the elements and the end of their sequence, or where the first merge key inside them is.
#[cycle(past_node)]
fn past_elements<'s>(text: &[u8], slots: &'s [Record]) -> Result<&'s [Record], Location>
    ensures fewer { IfOk result (λ left. length left.now ≤ length slots.now - 1) }
    ensures found { PastElements text.now slots.now result }
{
    let mut left = slots;
    while let Some((first, rest)) = left.split_first() {
        if let Event::SeqEnd = first.event {
            return Ok(rest);
        }
        left = past_node(text, left)?;
    }
    Ok(left)
}

// Not one function with the elements: a key is tested, and two nodes are passed at each turn.
// What is left behind the pairs and the end of their mapping, or where the first merge key of them or inside them is.
#[cycle(past_node)]
fn past_pairs<'s>(text: &[u8], slots: &'s [Record]) -> Result<&'s [Record], Location>
    ensures fewer { IfOk result (λ left. length left.now ≤ length slots.now - 1) }
    ensures found { PastPairs text.now slots.now result }
{
    let mut left = slots;
    while let Some((first, rest)) = left.split_first() {
        if let Event::MapEnd = first.event {
            return Ok(rest);
        }
        if is_merge_key_at(text, *first) {
            return Err(first.location);
        }
        let value = past_node(text, left)?;
        left = past_node(text, value)?;
    }
    Ok(left)
}

// What is left behind the node that begins with the first slot, or where the first merge key inside it stands; nothing,
// where no node begins.
#[cycle(past_node)]
fn past_node<'s>(text: &[u8], slots: &'s [Record]) -> Result<&'s [Record], Location>
    ensures fewer { IfOk result (λ left. length left.now ≤ length slots.now - 1) }
    ensures found { PastNode text.now slots.now result }
{
    let Some((first, rest)) = slots.split_first() else {
        return Ok(slots);
    };
    match first.event {
        Event::Scalar { .. } | Event::RecursiveAlias { .. } => Ok(rest),
        Event::SeqStart { .. } => past_elements(text, rest),
        Event::MapStart { .. } => past_pairs(text, rest),
        Event::SeqEnd | Event::MapEnd => Ok(&[]),
    }
}

/// The slot behind the node that begins at `at`, or where the first merge key inside it stands; the end, where no node
/// begins.
// A slot and no `Option`: it promises one in each case, and a walk that goes on there ends.
pub fn visit_node(text: &[u8], slots: &[Record], at: usize) -> Result<usize, Location>
    ensures onward { IfOk result (λ n. Onward slots.now at n) }
    ensures found { Visited text.now slots.now at result }
{
    let left = past_node(text, slots_from(slots, at))?;
    Ok(slots.len() - left.len())
}
