//! What is wrong with a line, by the kind of its refusal.
ghost use Rattle.std.specs.Prelude.{◌≡◌, is_some};
ghost use Rattle.script_explain.specs.Kinds.{is_among, is_explained, line_kinds, query_kinds, world_kinds};

/// A sentence on what is wrong with a line that was refused as this kind. (`BadLine` has none: what is wrong depends on
/// the line.)
pub(crate) fn sentence_of(kind: &str) -> Option<&'static str>
    ensures { is_some result ≡ is_explained kind.now }
{
    if let Some(sentence) = world_sentence(kind) {
        return Some(sentence);
    }
    if let Some(sentence) = line_sentence(kind) {
        return Some(sentence);
    }
    query_sentence(kind)
}

/// The same for a command on the world.
fn world_sentence(kind: &str) -> Option<&'static str>
    ensures { is_some result ≡ is_among world_kinds kind.now }
{
    let sentence = match kind {
        "Dead" => "A handle here is that of no live entity: it was deleted, or never made.",
        "UnknownName" => "No entity has the name that stands here.",
        "BadName" => {
            "The new name is no name: 1 to 64 ASCII letters, digits, `_` or `.`, the first a letter, and none of `self`, `up`, `cascade`, `desc`."
        }
        "NameTaken" => "An entity has the new name already.",
        "BuiltIn" =>
            "A built-in entity can't be changed or deleted, and only `component` gives the plain id `Component`.",
        "NoData" => "The id has no values: neither it nor a part of the pair is a component.",
        "Count" => "The number of values differs from the number of the component's fields.",
        "Range" => "A value is outside the range of its field's kind.",
        "TraitFixed" => {
            "A trait can't come to an entity that is used as component or relationship, or that a stored query mentions, and never goes."
        }
        "InUse" =>
            "A stored query mentions an entity that would be deleted: `drop` the query first.",
        "Cycle" => "An acyclic relationship would lead from an entity back to itself.",
        "TooManyIds" => "An entity would hold more than 64 ids.",
        "Panic" =>
            "An entity that stays uses one that would be deleted, and a trait says `Panic`: remove what uses it first.",
        "Full" =>
            "No index is left for a new entity, or the world has accepted 18,446,744,073,709,551,615 commands.",
        _ => return None,
    };
    Some(sentence)
}

/// The same for a line, its fields, or a stored query.
fn line_sentence(kind: &str) -> Option<&'static str>
    ensures { is_some result ≡ is_among line_kinds kind.now }
{
    let sentence = match kind {
        "LineTooLong" => "The line has more than 4,096 bytes.",
        "TooManyFields" => "A component has at most eight fields.",
        "NoFields" => "A component has at least one field, as `x:i32`; `entity` makes a tag.",
        "BadField" => "The name of a field is no name, or is given twice.",
        "EventsPending" => "Events of an earlier command wait.",
        "UnknownQuery" =>
            "No kept query has the name of `rows`, or no stored query that of `drop`.",
        "QueryTaken" => "A stored query has the new one's name already: `drop` it first.",
        "TooManyStored" => "There are 1,024 stored queries already: `drop` one first.",
        _ => return None,
    };
    Some(sentence)
}

/// The same for the text of a query.
fn query_sentence(kind: &str) -> Option<&'static str>
    ensures { is_some result ≡ is_among query_kinds kind.now }
{
    let sentence = match kind {
        "Lex" => "Nothing in a query begins with this character.",
        "Syntax" =>
            "No query goes on like this here: terms stand with `,` or `||` between, as `Position, (ChildOf,$p), !Planet`.",
        "NotTraversable" =>
            "Only along a relationship with the trait `Traversable` can a query go `up`.",
        "UnboundVariable" =>
            "No term without `?` binds this variable where it is used: `!T`, `?T` and `!=` alone can't.",
        "WildcardSource" =>
            "`*` and `_` can't be the source of a term: take a variable, as `Position($x)`.",
        "WildcardEquality" =>
            "Beside `==` and `!=` stand a variable and a name or variable, and no `*` or `_`.",
        "TooManyTerms" => "A query has at most 64 terms; alternatives and equalities count.",
        "TooManyVariables" => "A query has at most 32 variables besides `$this`.",
        "TooDeep" => "Groups `!{ .. }` stand at most four deep.",
        "NoThis" => "A monitor or an observer needs a query that asks something of `$this`.",
        "NotOneTerm" =>
            "An observer takes one plain term on `$this`, without `!`, `?`, `||` and `up`.",
        "CascadePlace" =>
            "`cascade` stands once in a query, outside all groups and without `!`, in a term on `$this`.",
        _ => return None,
    };
    Some(sentence)
}
