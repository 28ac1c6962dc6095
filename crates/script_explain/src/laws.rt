//! What is proved of the table of sentences: the function's contract is the law, and its body does nothing.
ghost use Rattle.script_explain.specs.Kinds.{EachKindIsExplained};

/// Law: each refusal that a script's output reports has its sentence, but for `BadLine`, which has one for each word
/// that doesn't fit.
pub fn each_kind_is_explained()
    ensures { EachKindIsExplained }
{}
