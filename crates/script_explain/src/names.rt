//! The names that accepted lines of a script made.
ghost use Rattle.std.specs.Prelude.{◌≡◌, ◌≤◌, length};
ghost use Rattle.script_explain.specs.Places.{IsWithin};

use crate::commands::{Command, command_of};
use crate::parts::{Part, word_from};
use std::alloc::Allocator;

/// Of each sort, the first so many names are kept.
const MOST_NAMES: usize = 1_024;

/// What has a name.
#[derive(Clone, Copy, PartialEq, Eq)]
pub(crate) enum Sort {
    Entity,
    Component,
    /// A query whose rows are asked.
    Kept,
    /// A monitor or an observer.
    Reporting,
}

impl Sort {
    /// What a command makes, if it gives a name.
    fn made_by(command: Command) -> Option<Sort> {
        match command {
            Command::Entity => Some(Sort::Entity),
            Command::Component => Some(Sort::Component),
            Command::Keep => Some(Sort::Kept),
            Command::Monitor | Command::On => Some(Sort::Reporting),
            _ => None,
        }
    }
}

/// What an accepted line made: places in the script.
#[derive(Clone, Copy)]
pub(crate) struct Made {
    pub sort: Sort,
    pub name: Part,
    /// The line's end.
    pub end: usize,
}

/// The first names of some sorts.
#[derive(Drop)]
pub(crate) struct Names<A: Allocator> {
    made: Vec<Made, A>,
    /// There was no room for a name.
    is_full: bool,
}

impl<A: Allocator> Names<A> {
    fn new(alloc: A) -> Self {
        Names {
            made: Vec::new(alloc),
            is_full: false,
        }
    }

    fn keep(&mut self, made: Made) {
        if self.made.len() >= MOST_NAMES || self.made.push(made).is_err() {
            self.is_full = true;
        }
    }

    /// What has these names, in the order of the lines.
    pub(crate) fn made(&self) -> &[Made] {
        self.made.as_slice()
    }
}

/// The names that a script has made so far.
#[derive(Drop)]
pub(crate) struct MadeNames<A: Allocator> {
    pub entities: Names<A>,
    pub components: Names<A>,
    pub queries: Names<A>,
}

impl<A: Allocator + Copy> MadeNames<A> {
    /// None so far.
    pub(crate) fn new(alloc: A) -> Self {
        MadeNames {
            entities: Names::new(alloc),
            components: Names::new(alloc),
            queries: Names::new(alloc),
        }
    }
}

impl<A: Allocator> MadeNames<A> {
    /// Keeps the name that an accepted line of a script gives, if it gives one and there is room.
    pub(crate) fn note(&mut self, script: &[u8], line: Part)
        requires { IsWithin script.now line }
    {
        let passed = &script[..line.end];
        let word = word_from(passed, line.start);
        let Some(command) = command_of(word.of(passed)) else {
            return;
        };
        let Some(sort) = Sort::made_by(command) else {
            return;
        };
        let name = name_from(passed, command, word.end);
        let end = line.end;
        let names = match sort {
            Sort::Entity => &mut self.entities,
            Sort::Component => &mut self.components,
            Sort::Kept | Sort::Reporting => &mut self.queries,
        };
        names.keep(Made { sort, name, end });
    }

    /// Whether all names of entities are among these.
    pub(crate) fn are_all_entities(&self) -> bool {
        !self.entities.is_full && !self.components.is_full
    }
}

/// The name that a line gives, whose command ends at a place.
pub(crate) fn name_from(line: &[u8], command: Command, from: usize) -> Part
    requires { from ≤ length line.now }
    ensures { IsWithin line.now result }
{
    let word = word_from(line, from);
    match command {
        Command::On => word_from(line, word.end),
        _ => word,
    }
}
