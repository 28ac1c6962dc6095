//! What is proved of chains, lines and least sets: each function's contract is a law, and its body does nothing.

ghost use Rattle.ecs_model.specs.ReachLaws.{ChainsAreShort, DepthsAreOfLongestChains, LinesUnfold, ReachComposes};
ghost use Rattle.ecs_model.specs.ReachLaws.{ReachIsComputed, RoundsAreEnough};
ghost use Rattle.ecs_model.specs.ReachLaws.{StepsCloseChains};

/// Law: as many rounds as there are things to be reached, less one, give the least set that is closed under what
/// follows.
pub fn rounds_are_enough()
    ensures { RoundsAreEnough }
{}

/// Law: no longer chain reaches more.
pub fn chains_are_short()
    ensures { ChainsAreShort }
{}

/// Law: along what is transitive, what is reached from what is reached is reached.
pub fn reach_composes()
    ensures { ReachComposes }
{}

/// Law: where there is no cycle, one more step makes one exactly where its end leads back to its start, whether or not
/// other steps go.
pub fn steps_close_chains()
    ensures { StepsCloseChains }
{}

/// Law: the test of reach passes exactly where the relationship leads there.
pub fn reach_is_computed()
    ensures { ReachIsComputed }
{}

/// Law: where there is no cycle, a line is made of the targets, each followed by its own line.
pub fn lines_unfold()
    ensures { LinesUnfold }
{}

/// Law: where there is no cycle, the depth of an entity is the length of the longest chain from it.
pub fn depths_are_of_longest_chains()
    ensures { DepthsAreOfLongestChains }
{}
