//! What to write in place of what Flecs has and scripts don't.

use crate::bytes::{blanks_at_start, len_without_blanks};
use crate::parts::Part;

/// What stands at a fault.
#[derive(Clone, Copy)]
enum At {
    Anything,
    /// A token, and what the next one begins with.
    Token(&'static str, &'static str),
    Digit,
    /// The marked part has this in it.
    Holding(&'static str),
}

/// A form of line that is refused, and a sentence that says what to write.
#[derive(Clone, Copy)]
struct Hint {
    /// What stands before the fault.
    before: &'static str,
    at: At,
    sentence: &'static str,
}

/// For characters with which nothing in a query begins. Of each table the first that fits is given.
static OF_CHARACTERS: [Hint; 11] = [
    Hint {
        before: "(",
        at: At::Token("$", ")"),
        sentence: "A singleton is asked at its own entity, as `Game(Game)`.",
    },
    Hint {
        before: ",",
        at: At::Token("0", ")"),
        sentence: "To ask for those without a pair write `!`, as `!(ChildOf,*)`.",
    },
    Hint {
        before: "",
        at: At::Digit,
        sentence: "A number is no name here: give the entity a name, and write that.",
    },
    Hint {
        before: "",
        at: At::Token("#", ""),
        sentence: "A query has no handles: give the entity a name, and write that.",
    },
    Hint {
        before: "",
        at: At::Token("~", ""),
        sentence: "Names are compared as a whole, as `$this == Sun`.",
    },
    Hint {
        before: "",
        at: At::Token("=", ""),
        sentence: "Entities are compared by `==` and `!=`, as `$this == Sun`.",
    },
    Hint {
        before: "",
        at: At::Token("\"", ""),
        sentence: "Names stand without quotes.",
    },
    Hint {
        before: "",
        at: At::Token(":", ""),
        sentence: "Names have no paths: a child is asked for by a pair, as `(ChildOf,Sun)`.",
    },
    Hint {
        before: "",
        at: At::Token(".", ""),
        sentence: "A dot stands within a name alone: a variable's child is a variable, as `ChildOf($child,$this)`.",
    },
    Hint {
        before: "",
        at: At::Token("&", ""),
        sentence: "Terms that all have to hold stand with `,` between.",
    },
    Hint {
        before: "",
        at: At::Token("/", "/"),
        sentence: "A comment is a line of its own, which begins with `//`.",
    },
];

/// For tokens with which no query goes on.
static OF_TOKENS: [Hint; 17] = [
    Hint {
        before: "",
        at: At::Token("{", ""),
        sentence: "Only a negated group has braces, as `!{ A, B }`: write other items side by side.",
    },
    Hint {
        before: "(",
        at: At::Token(")", ""),
        sentence: "Write `C` to ask `$this`, or name another source, as `C(Sun)`.",
    },
    Hint {
        before: "",
        at: At::Token("|", "self"),
        sentence: "`self` stands first, as `Position(self|up)`.",
    },
    Hint {
        before: "and",
        at: At::Token("|", ""),
        sentence: "There is no `and |`: write the terms out, with `,` between.",
    },
    Hint {
        before: "or",
        at: At::Token("|", ""),
        sentence: "There is no `or |`: write the terms out, with `||` between.",
    },
    Hint {
        before: "not",
        at: At::Token("|", ""),
        sentence: "There is no `not |`: write the terms out, each after `!`.",
    },
    Hint {
        before: "||",
        at: At::Token("!", ""),
        sentence: "Alternatives are terms without `!` and `?`.",
    },
    Hint {
        before: "||",
        at: At::Token("?", ""),
        sentence: "Alternatives are terms without `!` and `?`.",
    },
    Hint {
        before: "",
        at: At::Token("||", ""),
        sentence: "Alternatives are terms without `!` and `?`, and no equalities.",
    },
    Hint {
        before: "",
        at: At::Token("|", ""),
        sentence: "Alternatives stand with `||` between; `|` stands before flags, as `Position(Sun|up)`.",
    },
    Hint {
        before: "",
        at: At::Token("==", ""),
        sentence: "An equality has a variable on its left and nothing before it; its opposite is `!=`.",
    },
    Hint {
        before: "",
        at: At::Token("!=", ""),
        sentence: "An inequality has a variable on its left and nothing before it.",
    },
    Hint {
        before: "",
        at: At::Token("and", ""),
        sentence: "Terms that all have to hold stand with `,` between.",
    },
    Hint {
        before: "",
        at: At::Token("or", ""),
        sentence: "Alternatives stand with `||` between.",
    },
    Hint {
        before: "not",
        at: At::Anything,
        sentence: "What must not hold stands after `!`, as `!Planet`.",
    },
    Hint {
        before: "",
        at: At::Token("desc", ""),
        sentence: "Leave `desc` out: rows stand in ascending order of depth alone.",
    },
    Hint {
        before: "[",
        at: At::Anything,
        sentence: "Before a term stands `[in]`, `[out]`, `[inout]` or `[none]`.",
    },
];

/// For names that no entity has.
static OF_NAMES: [Hint; 4] = [
    Hint {
        before: "",
        at: At::Token("0", ""),
        sentence: "0 is no entity: `remove ENTITY (ChildOf,PARENT)` takes an entity from its parent.",
    },
    Hint {
        before: "",
        at: At::Digit,
        sentence: "A number is no name: write the entity's name, or its handle, as `#64.0`.",
    },
    Hint {
        before: "",
        at: At::Holding("::"),
        sentence: "Names have no paths: the parent of an entity is a pair, as `(ChildOf,Sun)`.",
    },
    Hint {
        before: "",
        at: At::Holding("."),
        sentence: "A dot is a letter of a name, and leads neither to a child nor to a field.",
    },
];

/// The sentence for a part of a line that was refused as a kind, if there is one.
pub(crate) fn hint_of(kind: &str, line: &[u8], part: Part) -> Option<&'static str> {
    match kind {
        "Lex" => sentence_among(&OF_CHARACTERS, line, part),
        "Syntax" => sentence_among(&OF_TOKENS, line, part),
        "UnknownName" => sentence_among(&OF_NAMES, line, part),
        _ => None,
    }
}

/// The sentence of the first of these that fits.
fn sentence_among(hints: &[Hint], line: &[u8], part: Part) -> Option<&'static str> {
    for hint in hints {
        if hint.fits(line, part) {
            return Some(hint.sentence);
        }
    }
    None
}

impl Hint {
    /// Whether a line has this form at a part.
    fn fits(&self, line: &[u8], part: Part) -> bool {
        let Some((before, rest)) = line.split_at_checked(part.start) else {
            return false;
        };
        ends_with(&before[..len_without_blanks(before)], self.before)
            && self.at.fits(rest, part.bytes_in(line))
    }
}

impl At {
    /// Whether the rest of a line from a marked part on is this.
    fn fits(self, rest: &[u8], marked: &[u8]) -> bool {
        match self {
            At::Anything => true,
            At::Token(token, next) => match rest_after(rest, token) {
                Some(after) => rest_after(&after[blanks_at_start(after)..], next).is_some(),
                None => false,
            },
            At::Digit => matches!(marked, [byte, ..] if byte.is_ascii_digit()),
            At::Holding(text) => match std::str::from_utf8(marked) {
                Ok(name) => name.contains(text),
                Err(_) => false,
            },
        }
    }
}

/// What stands after a token at the start of a text. A word is a whole one there, whatever its case.
fn rest_after<'a>(text: &'a [u8], token: &str) -> Option<&'a [u8]> {
    let (start, rest) = text.split_at_checked(token.len())?;
    let is_part = is_word(token) && matches!(rest, [byte, ..] if goes_on(*byte));
    if start.eq_ignore_ascii_case(token.as_bytes()) && !is_part {
        Some(rest)
    } else {
        None
    }
}

/// Whether a text ends with a token. A word is a whole one there, whatever its case.
fn ends_with(text: &[u8], token: &str) -> bool {
    if text.len() < token.len() {
        return false;
    }
    let (rest, end) = text.split_at(text.len() - token.len());
    let is_part = is_word(token) && matches!(rest, [.., byte] if goes_on(*byte));
    end.eq_ignore_ascii_case(token.as_bytes()) && !is_part
}

/// Whether a token is a word: its last byte is a letter.
fn is_word(token: &str) -> bool {
    matches!(token.as_bytes(), [.., last] if last.is_ascii_alphabetic())
}

/// Whether a byte goes on with a name.
fn goes_on(byte: u8) -> bool {
    byte.is_ascii_alphanumeric() || byte == b'_' || byte == b'.'
}
