//! What is proved of lines of scripts: each function's contract is a law, and its body does nothing.

ghost use Rattle.ecs_model.specs.LineLaws.{RefusedLinesChangeNothing};

/// Law: a refused line of a script changes nothing.
pub fn a_refused_line_changes_nothing()
    ensures { RefusedLinesChangeNothing }
{}
