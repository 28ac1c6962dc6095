//! What runs lines: a session, and the output that isn't sent yet.
ghost use Rattle.std.specs.Prelude.{◌≡◌, [], IfOk};
ghost use Rattle.ecs_model.specs.stored.Session.{first_session};
ghost use Rattle.ecs_observe.specs.Standing.{session_of};

use crate::lines::Summary;
use ecs_observe::Session;
use std::alloc::{AllocError, Allocator};
use std::hash::RandomState;

/// Runs lines in a session, and gathers what they print.
#[derive(Drop)]
pub(crate) struct Interpreter<A: Allocator> {
    pub(crate) session: Session<A>,
    /// What was run so far.
    pub(crate) summary: Summary,
    /// The number of the line that is run.
    pub(crate) number: usize,
    /// The values of that line.
    pub(crate) values: Vec<i128, A>,
    /// What lines have printed that isn't sent yet.
    pub(crate) output: Vec<u8, A>,
}

impl<A: Allocator + Copy> Interpreter<A> {
    /// A new session, in which no line was run.
    pub(crate) fn new(alloc: A, random: RandomState) -> Result<Self, AllocError>
        ensures session { IfOk result (λ i. session_of i.session ≡ first_session) }
        ensures summary { IfOk result (λ i. i.summary ≡ record { lines = 0; refused = 0 }) }
        ensures output { IfOk result (λ i. (i.output).items ≡ []) }
    {
        let session = Session::new(alloc, random)?;
        Ok(Interpreter {
            session,
            summary: Summary {
                lines: 0,
                refused: 0,
            },
            number: 0,
            values: Vec::new(alloc),
            output: Vec::new(alloc),
        })
    }
}
