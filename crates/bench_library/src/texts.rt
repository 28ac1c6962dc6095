//! The texts that are asked.

use std::alloc::{AllocError, Global};

/// How many bytes each text has, but for blanks at its end.
const LENGTH: usize = 4_000;

/// A name: its first letters, and as many others after them as are asked for.
fn add_name(text: &mut String, first: &str, letters: u32) -> Result<(), AllocError> {
    text.push_str(first)?;
    for _ in 0..letters {
        text.push('a')?;
    }
    Ok(())
}

/// A variable: `$` and a word, with a letter that differs from that of others.
fn add_variable(text: &mut String, word: &str, letter: char) -> Result<(), AllocError> {
    text.push('$')?;
    text.push_str(word)?;
    text.push(letter)
}

/// Four terms with four kinds of items, the names of which have about as many letters.
fn add_terms(text: &mut String, letter: char, letters: u32) -> Result<(), AllocError> {
    text.push('(')?;
    add_name(text, "N", letters)?;
    text.push_str(", ")?;
    add_variable(text, "thing_", letter)?;
    text.push_str("), [in] ")?;
    add_name(text, "N1", letters)?;
    text.push_str("($this|self|up(")?;
    add_name(text, "N", letters)?;
    text.push_str(")) || ")?;
    add_name(text, "N22", letters)?;
    text.push_str(", !{ ")?;
    add_name(text, "N333", letters)?;
    text.push('(')?;
    add_variable(text, "other_", letter)?;
    text.push_str(", ")?;
    add_variable(text, "thing_", letter)?;
    text.push_str(") }")
}

/// A text of 32 terms with long names, groups, alternatives and 16 variables.
pub fn terms(alloc: Global) -> Result<String, AllocError> {
    let mut text = String::new(alloc);
    for (i, letter) in "abcdefgh".chars().enumerate() {
        if i > 0 {
            text.push_str(",\n  ")?;
        }
        add_terms(&mut text, letter, if i % 2 == 0 { 56 } else { 60 })?;
    }
    filled(text, " ")
}

/// A text of 32 terms that ask `$this` for one id each.
pub fn plain(alloc: Global) -> Result<String, AllocError> {
    let mut text = String::new(alloc);
    text.push_str("N")?;
    for _ in 1..32 {
        text.push_str(",N")?;
    }
    filled(text, " ")
}

/// A text made longer by a piece, again and again.
fn filled(text: String, piece: &str) -> Result<String, AllocError> {
    let mut text = text;
    for _ in 0..LENGTH {
        if text.len() < LENGTH {
            text.push_str(piece)?;
        }
    }
    Ok(text)
}

/// A text that begins with a piece and repeats another.
pub fn repeated(alloc: Global, first: &str, piece: &str) -> Result<String, AllocError> {
    let mut text = String::new(alloc);
    text.push_str(first)?;
    filled(text, piece)
}

/// A text of variables, of which no two are the same.
pub fn variables(alloc: Global) -> Result<String, AllocError> {
    let mut text = String::new(alloc);
    text.push_str("N")?;
    for first in "abcdefghijklmnopqrstuvwxyz".chars() {
        for second in "abcdefghijklmnopqrstuvwxyz".chars() {
            if text.len() < LENGTH {
                text.push_str(",$")?;
                text.push(first)?;
                text.push(second)?;
            }
        }
    }
    Ok(text)
}
