//! What is proved of the tokens, the syntax and the faults of query text: each function's contract is a law, and its
//! body does nothing.

ghost use Rattle.query_model.specs.FirstOccurrence.{FirstSuffices, FirstSufficesInTexts, VariablesAscend};
ghost use Rattle.query_model.specs.Laws.{OneSpelling, OneSyntax, PartsAreGrammatical, TokensAreSpelled};
ghost use Rattle.query_model.specs.Scopes.{OwnVariablesAreNew, QueriesAreScoped, QueriesOfTextsAreScoped};
ghost use Rattle.query_model.specs.Sound.{TermsAreSound};

/// Law: a text spells at most one list of tokens.
pub fn a_text_spells_at_most_one_token_list()
    ensures { OneSpelling }
{}

/// Law: the tokens read from a text are those that it spells, and the fault is its lex fault.
pub fn tokens_are_as_spelled()
    ensures { TokensAreSpelled }
{}

/// Law: a list of tokens has at most one syntax.
pub fn tokens_have_at_most_one_syntax()
    ensures { OneSyntax }
{}

/// Law: the parts read from tokens are those that the grammar relates to them, and the fault is their syntax fault.
pub fn parts_are_as_the_grammar_says()
    ensures { PartsAreGrammatical }
{}

/// Law: the variables of a query stand in the order of its text.
pub fn the_variables_of_a_text_ascend()
    ensures { VariablesAscend }
{}

/// Law: it is enough to report a variable that isn't bound at its first occurrence, since the least fault is the same:
/// for each text, and for any parts whose variables stand in the order of the text.
pub fn a_variable_is_told_at_its_first_occurrence()
    ensures of_texts { FirstSufficesInTexts }
    ensures of_parts { FirstSuffices }
{}

/// Law: in a checked query no source and no side of an equality is a wildcard, and a term that follows its relationship
/// as transitive or reflexive follows a name, to an entity or a variable, and asks no ancestors.
pub fn terms_of_a_checked_query_are_sound()
    ensures { TermsAreSound }
{}

/// Law: each item of a checked query uses only variables that are in scope where it stands, visible ones and those of
/// the groups around it: for each syntax of tokens, and for each query that a text asks.
pub fn a_checked_query_uses_variables_in_scope()
    ensures of_syntaxes { QueriesAreScoped }
    ensures of_texts { QueriesOfTextsAreScoped }
{}

/// Law: in a checked query the variables of a group's own are in no scope around it.
pub fn variables_of_a_groups_own_are_new()
    ensures { OwnVariablesAreNew }
{}
