//! The machine that reads query text: one step for each token.

ghost use Rattle.std.specs.Prelude.{◌≡◌, ℕ, None, option_map, drop};
ghost use Rattle.query_model.specs.Text.{is_reserved};
ghost use Rattle.query_model.specs.Grammar.{is_access};
ghost use Rattle.query_model.specs.Machine as machine;
ghost use Rattle.query_model.specs.Syntax as syntax;
ghost use Rattle.query_parser.specs.Token.{seen};
ghost use Rattle.query_model.specs.Seen.{seen_reference, seen_rise_word, seen_term};
ghost use Rattle.query_parser.specs.declared.machine.Draft as item;
ghost use Rattle.query_parser.specs.Steps.{seen_state, seen_step, plain_up_step, put_first, rise_step};

use crate::{Token, TokenKind};
use query_model::syntax::{Flags, Reference, Rise, RiseWord, Role, Spoken, TermSyntax};
use query_model::{Mark, Span};

/// What was read of the present item. The state says which of it is read.
#[derive(Clone, Copy)]
pub struct Draft<'a> {
    pub role: Role,
    /// The term, or an equality's left side as its first reference; its span begins where the item does.
    pub term: TermSyntax<'a>,
    /// A variable with which the item begins, with its `$`.
    pub name: &'a str,
    /// The source that was read last, or the right side of an equality.
    pub last: Reference<'a>,
    /// The word of the rise that was read last.
    pub word: RiseWord,
}

/// What is to come, or what was read last.
#[derive(Clone, Copy)]
pub enum State {
    /// A term is to come; in the role And an item, since nothing stands before it.
    TermNext(Role),
    AccessNext(Role),
    /// With whether values are shown.
    BehindAccessWord(Role, bool),
    BodyNext(Role, bool),
    PairNext(Role, bool),
    BehindPairFirst,
    TargetNext,
    BehindTarget,
    BehindFlags,
    BehindAlong,
    BehindFirst,
    SourceNext,
    BehindSource,
    FlagsNext,
    BehindSelf,
    RiseNext,
    /// After `up` or `cascade`, and whether `self` stands before it.
    BehindUp(bool),
    AlongNext(bool),
    BehindVariable,
    /// With whether the sign is `==`.
    OtherSide(bool),
    /// After an item, and whether an alternative to it may follow.
    BehindItem(bool),
    Finished,
}

/// How a step changes the groups that are open.
#[derive(Clone, Copy)]
pub enum Nesting {
    Same,
    Opens,
    Closes,
}

/// The part that a step completes.
#[derive(Clone, Copy)]
pub enum Completed {
    Nothing,
    /// The term that was read.
    Term,
    /// The equality that was read, and whether its sign is `==`.
    Equality(bool),
    /// The `{` of a group, whose span the term has.
    Opening,
}

/// A step: the state after it, the part that was completed, and whether a group was opened or closed.
#[derive(Clone, Copy)]
pub struct Move {
    pub state: State,
    pub part: Completed,
    pub nesting: Nesting,
}

/// Nothing of an item.
pub fn blank<'a>() -> Draft<'a> {
    let span = Span { start: 0, end: 0 };
    let none = Reference {
        spoken: Spoken::Any,
        span,
    };
    Draft {
        role: Role::And,
        term: TermSyntax {
            shows_value: false,
            component: none,
            target: None,
            source: None,
            flags: None,
            span,
        },
        name: "",
        last: none,
        word: RiseWord::Up,
    }
}

/// The step at a token, if some query goes on with it. What it reads of an item it puts into the draft.
pub fn step<'a>(
    depth: usize,
    state: State,
    draft: &mut Draft<'a>,
    token: &Token<'a>,
) -> Option<Move>
    ensures { option_map (seen_step depth draft.new) result ≡ machine.step depth (seen_state draft.old state)
        (seen token.now) }
{
    match state {
        State::TermNext(role) => term_step(role, draft, token),
        State::AccessNext(role) => access_step(role, token),
        State::BehindAccessWord(role, shows_value) => bracket_step(role, shows_value, token),
        State::BodyNext(role, shows_value) => body_step(role, shows_value, draft, token),
        State::PairNext(role, shows_value) => pair_step(role, shows_value, draft, token),
        State::BehindPairFirst => comma_step(token),
        State::TargetNext => target_step(draft, token),
        State::BehindTarget => close_step(draft, token),
        State::BehindFlags => args_step(draft, token),
        State::BehindAlong => behind_along_step(token),
        State::BehindFirst => first_step(depth, draft, token),
        State::SourceNext => source_step(draft, token),
        State::BehindSource => behind_source_step(draft, token),
        State::FlagsNext => flags_step(draft, token),
        State::BehindSelf => self_step(draft, token),
        State::RiseNext => rise_step(true, draft, token),
        State::BehindUp(own) => up_step(own, draft, token),
        State::AlongNext(own) => along_step(own, draft, token),
        State::BehindVariable => variable_step(depth, draft, token),
        State::OtherSide(same) => other_step(same, draft, token),
        State::BehindItem(may_join) => item_step(depth, may_join, Completed::Nothing, token),
        State::Finished => None,
    }
}

/// A step to a state that completes no part.
fn go_to(state: State) -> Move
    ensures { result ≡ record { state = state; part = Completed.Nothing; nesting = Nesting.Same } }
{
    Move {
        state,
        part: Completed::Nothing,
        nesting: Nesting::Same,
    }
}

/// Begins a term. Its span and what else was written of it stay.
fn begin<'a>(draft: &mut Draft<'a>, role: Role, shows_value: bool, component: Reference<'a>)
    ensures { draft.new ≡ record draft.old {
      role = role;
      term = record (draft.old).term {
        shows_value = shows_value;
        component = component.entry;
      };
    } }
{
    draft.role = role;
    draft.term.shows_value = shows_value;
    draft.term.component = component;
}

/// Gives a term flags, and neither a target nor more than its first reference's span.
fn apply<'a>(term: &mut TermSyntax<'a>, flags: Option<Flags<'a>>)
    ensures { term.new ≡ record term.old { target = None; flags = flags.entry; span = ((term.old).component).span } }
{
    term.target = None;
    term.flags = flags;
    term.span = term.component.span;
}

/// Whether alternatives may follow a term in a role.
fn joins(role: Role) -> bool
    ensures { result ≡ machine.joins role }
{
    matches!(role, Role::And | Role::Or)
}

/// A reference: a word, a variable, `*` or `_`.
fn reference<'a>(token: &Token<'a>) -> Option<Reference<'a>>
    ensures { option_map seen_reference result ≡ machine.reference_of (seen token.now) }
{
    let spoken = match token.kind {
        TokenKind::Name => return word(token),
        TokenKind::Variable => Spoken::Variable(token.text),
        TokenKind::Mark(Mark::Star) => Spoken::Any,
        TokenKind::Mark(Mark::Underscore) => Spoken::AnyOnce,
        _ => return None,
    };
    Some(Reference {
        spoken,
        span: token.span,
    })
}

/// A word that can name an entity.
fn word<'a>(token: &Token<'a>) -> Option<Reference<'a>>
    ensures { option_map seen_reference result ≡ machine.word_of (seen token.now) }
{
    match token.kind {
        TokenKind::Name if !is_reserved(token.text) => Some(Reference {
            spoken: Spoken::Word(token.text),
            span: token.span,
        }),
        _ => None,
    }
}

/// Whether a word names nothing, since it is one of the query language.
fn is_reserved(word: &str) -> bool
    ensures { result ≡ is_reserved word.now }
{
    // (most words are longer or shorter than all of them)
    match word.len() {
        2 | 4 | 7 => query_model::is_reserved(word.as_bytes()),
        _ => false,
    }
}

/// After an item, of which a part may be completed by what follows it.
fn item_step(depth: usize, may_join: bool, part: Completed, token: &Token<'_>) -> Option<Move>
    ensures { (draft : item.Draft) → option_map (seen_step depth draft) result
        ≡ put_first draft part (machine.item_step depth may_join (seen token.now)) }
{
    match token.kind {
        TokenKind::Mark(Mark::OrOr) if may_join => Some(Move {
            part,
            ..go_to(State::TermNext(Role::Or))
        }),
        TokenKind::Mark(Mark::Comma) => Some(Move {
            part,
            ..go_to(State::TermNext(Role::And))
        }),
        TokenKind::Mark(Mark::CloseBrace) if depth > 0 => Some(Move {
            state: State::BehindItem(false),
            part,
            nesting: Nesting::Closes,
        }),
        TokenKind::End if depth == 0 => Some(Move {
            part,
            ..go_to(State::Finished)
        }),
        _ => None,
    }
}

/// After a target: the bracket that ends the term.
fn close_step<'a>(draft: &mut Draft<'a>, token: &Token<'a>) -> Option<Move>
    ensures { (depth : ℕ) → option_map (seen_step depth draft.new) result
        ≡ machine.close_step depth (draft.old).role (seen_term (draft.old).term) (seen token.now) }
{
    match token.kind {
        TokenKind::Mark(Mark::CloseParen) => {
            draft.term.span.end = token.span.end;
            Some(Move {
                part: Completed::Term,
                ..go_to(State::BehindItem(joins(draft.role)))
            })
        }
        _ => None,
    }
}

/// The target of a term.
fn target_step<'a>(draft: &mut Draft<'a>, token: &Token<'a>) -> Option<Move>
    ensures { (depth : ℕ) → option_map (seen_step depth draft.new) result
        ≡ machine.target_step depth (draft.old).role (seen_term (draft.old).term) (seen token.now) }
{
    let target = reference(token)?;
    draft.term.target = Some(target);
    Some(go_to(State::BehindTarget))
}

/// After the first side of a pair: its comma.
fn comma_step(token: &Token<'_>) -> Option<Move>
    ensures { (depth : ℕ) (draft : item.Draft) → option_map (seen_step depth draft) result
        ≡ machine.comma_step depth draft.role (seen_term draft.term) (seen token.now) }
{
    match token.kind {
        TokenKind::Mark(Mark::Comma) => Some(go_to(State::TargetNext)),
        _ => None,
    }
}

/// After a source or flags: a target, or the end of the term.
fn args_step<'a>(draft: &mut Draft<'a>, token: &Token<'a>) -> Option<Move>
    ensures { (depth : ℕ) → option_map (seen_step depth draft.new) result
        ≡ machine.args_step depth (draft.old).role (seen_term (draft.old).term) (seen token.now) }
{
    match token.kind {
        TokenKind::Mark(Mark::Comma) => Some(go_to(State::TargetNext)),
        _ => close_step(draft, token),
    }
}

/// After the relationship of `up(R)` or `cascade(R)`: its bracket.
fn behind_along_step(token: &Token<'_>) -> Option<Move>
    ensures { (depth : ℕ) (draft : item.Draft) → option_map (seen_step depth draft) result
        ≡ machine.along_step depth draft.role (seen_term draft.term) (seen token.now) }
{
    match token.kind {
        TokenKind::Mark(Mark::CloseParen) => Some(go_to(State::BehindFlags)),
        _ => None,
    }
}

/// After the first reference of a term: its arguments, or what follows the term.
fn first_step<'a>(depth: usize, draft: &mut Draft<'a>, token: &Token<'a>) -> Option<Move>
    ensures { option_map (seen_step depth draft.new) result ≡ machine.first_step depth (draft.old).role
        ((draft.old).term).shows_value
        (seen_reference ((draft.old).term).component) (seen token.now) }
{
    match token.kind {
        TokenKind::Mark(Mark::OpenParen) => Some(go_to(State::SourceNext)),
        _ => {
            draft.term.source = None;
            apply(&mut draft.term, None);
            item_step(depth, joins(draft.role), Completed::Term, token)
        }
    }
}

/// Flags, perhaps after a source: `self`, `up` or `cascade`.
fn flags_step<'a>(draft: &mut Draft<'a>, token: &Token<'a>) -> Option<Move>
    ensures { (depth : ℕ) → option_map (seen_step depth draft.new) result
        ≡ machine.flags_step depth (draft.old).role ((draft.old).term).shows_value
        (seen_reference ((draft.old).term).component)
        (option_map seen_reference ((draft.old).term).source) (seen token.now) }
{
    match token.kind {
        TokenKind::Name if token.text == "self" => Some(go_to(State::BehindSelf)),
        _ => rise_step(false, draft, token),
    }
}

/// `up` or `cascade`, perhaps after a source and `self`.
fn rise_step<'a>(own: bool, draft: &mut Draft<'a>, token: &Token<'a>) -> Option<Move>
    ensures { (depth : ℕ) → option_map (seen_step depth draft.new) result
        ≡ rise_step depth (draft.old).role ((draft.old).term).shows_value (seen_reference ((draft.old).term).component)
        (option_map seen_reference ((draft.old).term).source) own (seen token.now) }
{
    match token.kind {
        TokenKind::Name if token.text == "up" => {
            draft.word = RiseWord::Up;
            Some(go_to(State::BehindUp(own)))
        }
        TokenKind::Name if token.text == "cascade" => {
            draft.word = RiseWord::Cascade(token.span);
            Some(go_to(State::BehindUp(own)))
        }
        _ => None,
    }
}

/// After `self`: `|` and `up`, or what follows flags.
fn self_step<'a>(draft: &mut Draft<'a>, token: &Token<'a>) -> Option<Move>
    ensures { (depth : ℕ) → option_map (seen_step depth draft.new) result
        ≡ machine.self_step depth (draft.old).role ((draft.old).term).shows_value
        (seen_reference ((draft.old).term).component)
        (option_map seen_reference ((draft.old).term).source) (seen token.now) }
{
    match token.kind {
        TokenKind::Mark(Mark::Bar) => Some(go_to(State::RiseNext)),
        _ => {
            let flags = Flags {
                on_source: true,
                rise: Rise::No,
            };
            apply(&mut draft.term, Some(flags));
            args_step(draft, token)
        }
    }
}

/// Gives a term `up` or `cascade` and a relationship, if one is written.
fn raise<'a>(term: &mut TermSyntax<'a>, own: bool, word: RiseWord, along: Option<Reference<'a>>)
    ensures { term.new ≡ record term.old {
      target = None;
      flags = Some (record { on_source = own; rise = Rise.Up word along.entry });
      span = ((term.old).component).span;
    } }
{
    let flags = Flags {
        on_source: own,
        rise: Rise::Up(word, along),
    };
    apply(term, Some(flags));
}

/// After `up` or `cascade`: its relationship, or what follows flags.
fn up_step<'a>(own: bool, draft: &mut Draft<'a>, token: &Token<'a>) -> Option<Move>
    ensures { (depth : ℕ) → option_map (seen_step depth draft.new) result
        ≡ machine.up_step depth (draft.old).role ((draft.old).term).shows_value
        (seen_reference ((draft.old).term).component)
        (option_map seen_reference ((draft.old).term).source) own (seen_rise_word (draft.old).word) (seen token.now) }
{
    match token.kind {
        TokenKind::Mark(Mark::OpenParen) => Some(go_to(State::AlongNext(own))),
        _ => plain_up_step(own, draft, token),
    }
}

/// After `up` or `cascade`: a relationship without brackets, or what follows flags.
fn plain_up_step<'a>(own: bool, draft: &mut Draft<'a>, token: &Token<'a>) -> Option<Move>
    ensures { (depth : ℕ) → option_map (seen_step depth draft.new) result
        ≡ plain_up_step depth (draft.old).role ((draft.old).term).shows_value
        (seen_reference ((draft.old).term).component)
        (option_map seen_reference ((draft.old).term).source) own (seen_rise_word (draft.old).word) (seen token.now) }
{
    match word(token) {
        Some(along) => {
            raise(&mut draft.term, own, draft.word, Some(along));
            Some(go_to(State::BehindFlags))
        }
        None => {
            raise(&mut draft.term, own, draft.word, None);
            args_step(draft, token)
        }
    }
}

/// The relationship of `up(R)` or `cascade(R)`.
fn along_step<'a>(own: bool, draft: &mut Draft<'a>, token: &Token<'a>) -> Option<Move>
    ensures { (depth : ℕ) → option_map (seen_step depth draft.new) result
        ≡ machine.along_next_step depth (draft.old).role ((draft.old).term).shows_value
        (seen_reference ((draft.old).term).component)
        (option_map seen_reference ((draft.old).term).source) own (seen_rise_word (draft.old).word) (seen token.now) }
{
    let along = word(token)?;
    raise(&mut draft.term, own, draft.word, Some(along));
    Some(go_to(State::BehindAlong))
}

/// After a source: `|` and flags, or what follows a source.
fn behind_source_step<'a>(draft: &mut Draft<'a>, token: &Token<'a>) -> Option<Move>
    ensures { (depth : ℕ) → option_map (seen_step depth draft.new) result
        ≡ machine.behind_source_step depth (draft.old).role ((draft.old).term).shows_value
        (seen_reference ((draft.old).term).component)
        (seen_reference (draft.old).last) (seen token.now) }
{
    draft.term.source = Some(draft.last);
    match token.kind {
        TokenKind::Mark(Mark::Bar) => Some(go_to(State::FlagsNext)),
        _ => {
            apply(&mut draft.term, None);
            args_step(draft, token)
        }
    }
}

/// The arguments of a term: a source or flags.
fn source_step<'a>(draft: &mut Draft<'a>, token: &Token<'a>) -> Option<Move>
    ensures { (depth : ℕ) → option_map (seen_step depth draft.new) result
        ≡ machine.source_step depth (draft.old).role ((draft.old).term).shows_value
        (seen_reference ((draft.old).term).component) (seen token.now) }
{
    match reference(token) {
        Some(source) => {
            draft.last = source;
            Some(go_to(State::BehindSource))
        }
        None => {
            draft.term.source = None;
            flags_step(draft, token)
        }
    }
}

/// The first side of a pair.
fn pair_step<'a>(
    role: Role,
    shows_value: bool,
    draft: &mut Draft<'a>,
    token: &Token<'a>,
) -> Option<Move>
    ensures { (depth : ℕ) → option_map (seen_step depth draft.new) result
        ≡ machine.pair_step depth role shows_value ((draft.old).term).span (seen token.now) }
{
    let component = reference(token)?;
    begin(draft, role, shows_value, component);
    draft.term.target = None;
    draft.term.source = None;
    draft.term.flags = None;
    Some(go_to(State::BehindPairFirst))
}

/// The first token of a body.
fn start_step<'a>(
    role: Role,
    shows_value: bool,
    draft: &mut Draft<'a>,
    token: &Token<'a>,
) -> Option<Move>
    ensures { (depth : ℕ) → option_map (seen_step depth draft.new) result
        ≡ machine.start_step depth role shows_value (seen token.now) }
{
    if let TokenKind::Mark(Mark::OpenParen) = token.kind {
        draft.term.span = token.span;
        return Some(go_to(State::PairNext(role, shows_value)));
    }
    let component = reference(token)?;
    begin(draft, role, shows_value, component);
    Some(go_to(State::BehindFirst))
}

/// After the word of an access: its bracket.
fn bracket_step(role: Role, shows_value: bool, token: &Token<'_>) -> Option<Move>
    ensures { (depth : ℕ) (draft : item.Draft) → option_map (seen_step depth draft) result
        ≡ machine.bracket_step depth role shows_value (seen token.now) }
{
    match token.kind {
        TokenKind::Mark(Mark::CloseBracket) => Some(go_to(State::BodyNext(role, shows_value))),
        _ => None,
    }
}

/// A body after an access; where nothing stands before that, perhaps an operator.
fn body_step<'a>(
    role: Role,
    shows_value: bool,
    draft: &mut Draft<'a>,
    token: &Token<'a>,
) -> Option<Move>
    ensures { (depth : ℕ) → option_map (seen_step depth draft.new) result
        ≡ machine.body_step depth role shows_value (seen token.now) }
{
    match (role, token.kind) {
        (Role::And, TokenKind::Mark(Mark::Bang)) => Some(go_to(State::BodyNext(
            Role::Not,
            shows_value,
        ))),
        (Role::And, TokenKind::Mark(Mark::Question)) => Some(go_to(State::BodyNext(
            Role::Optional,
            shows_value,
        ))),
        _ => start_step(role, shows_value, draft, token),
    }
}

/// The word of an access.
fn access_step(role: Role, token: &Token<'_>) -> Option<Move>
    ensures { (depth : ℕ) (draft : item.Draft) → option_map (seen_step depth draft) result
        ≡ machine.access_step depth role (seen token.now) }
{
    match token.kind {
        TokenKind::Name if is_access(token.text) => Some(go_to(State::BehindAccessWord(
            role,
            token.text != "none",
        ))),
        _ => None,
    }
}

/// Whether a word is one of an access.
fn is_access(word: &str) -> bool
    ensures { result ≡ is_access word.now }
{
    word == "in" || word == "out" || word == "inout" || word == "none"
}

/// A term; where nothing stands before it, perhaps an operator or an equality; after `!` perhaps a group.
fn term_step<'a>(role: Role, draft: &mut Draft<'a>, token: &Token<'a>) -> Option<Move>
    ensures { (depth : ℕ) → option_map (seen_step depth draft.new) result
        ≡ machine.term_step depth role (seen token.now) }
{
    match role {
        Role::And => match token.kind {
            TokenKind::Variable => {
                draft.name = token.text;
                draft.term.span = token.span;
                Some(go_to(State::BehindVariable))
            }
            TokenKind::Mark(Mark::Bang) => Some(go_to(State::TermNext(Role::Not))),
            TokenKind::Mark(Mark::Question) => Some(go_to(State::TermNext(Role::Optional))),
            _ => plain_term_step(role, draft, token),
        },
        Role::Not => match token.kind {
            TokenKind::Mark(Mark::OpenBrace) => {
                draft.term.span = token.span;
                Some(Move {
                    state: State::TermNext(Role::And),
                    part: Completed::Opening,
                    nesting: Nesting::Opens,
                })
            }
            _ => plain_term_step(role, draft, token),
        },
        Role::Or | Role::Optional => plain_term_step(role, draft, token),
    }
}

/// A term, perhaps with an access.
fn plain_term_step<'a>(role: Role, draft: &mut Draft<'a>, token: &Token<'a>) -> Option<Move>
    ensures { (depth : ℕ) → option_map (seen_step depth draft.new) result
        ≡ machine.plain_term_step depth role (seen token.now) }
{
    match token.kind {
        TokenKind::Mark(Mark::OpenBracket) => Some(go_to(State::AccessNext(role))),
        _ => start_step(role, true, draft, token),
    }
}

/// After a variable with which an item begins: `==`, `!=`, or what follows a term's first reference.
fn variable_step<'a>(depth: usize, draft: &mut Draft<'a>, token: &Token<'a>) -> Option<Move>
    ensures { option_map (seen_step depth draft.new) result ≡ machine.variable_step depth
        (drop 1 ((draft.old).name).now) ((draft.old).term).span
        (seen token.now) }
{
    let variable = Reference {
        spoken: Spoken::Variable(draft.name),
        span: draft.term.span,
    };
    begin(draft, Role::And, true, variable);
    match token.kind {
        TokenKind::Mark(Mark::EqualEqual) => Some(go_to(State::OtherSide(true))),
        TokenKind::Mark(Mark::NotEqual) => Some(go_to(State::OtherSide(false))),
        _ => first_step(depth, draft, token),
    }
}

/// The right side of an equality.
fn other_step<'a>(same: bool, draft: &mut Draft<'a>, token: &Token<'a>) -> Option<Move>
    ensures { (depth : ℕ) → option_map (seen_step depth draft.new) result
        ≡ machine.other_step depth (seen_reference ((draft.old).term).component) same (seen token.now) }
{
    draft.last = reference(token)?;
    Some(Move {
        part: Completed::Equality(same),
        ..go_to(State::BehindItem(false))
    })
}
