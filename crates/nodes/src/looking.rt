// What a look at a source shows of the node that comes next.
ghost use Rattle.nodes.specs.Looking.{LookingResolves, ReferenceIsTheSources};

/// A look at a source refuses an unknown alias, or else shows the node with its alias resolved, and leaves it so.
#[tactic(auto, using(crate::proofs::Looks::looking_resolves))]
pub fn looking_resolves_aliases()
    ensures { LookingResolves }
{}

/// The reference of a node is the reference location of the source in which it comes next.
pub fn references_are_the_sources()
    ensures { ReferenceIsTheSources }
{}
