//! What is proved of plans over worlds: each function's contract is a law, and its body does nothing.

ghost use Rattle.world_facts.specs.Rises.{RisesAreAcyclic};

/// Law: in a well-formed world the plans of a query that asks ancestors along what is Traversable alone ask them along
/// what has no cycle, as runs ask.
pub fn rises_are_acyclic()
    ensures { RisesAreAcyclic }
{}
