//! What lines that are refused print, and what commands print.
ghost use Rattle.std.specs.Prelude.{◌≡◌, ◌++◌, Err, OnOk, IfOk, codes, decimal, flat_map};
ghost use Rattle.ecs_model.specs.Print.{fault_text, fault_word};
ghost use Rattle.ecs_model.specs.Refusal.{refusal_text, schema_fault_text};
ghost use Rattle.ecs_model.specs.stored.Refusal.{session_refusal_text};
ghost use Rattle.ecs_model.specs.stored.Session.{after_events, events};
ghost use Rattle.ecs_model.specs.stored.Watches.{event_text};
ghost use Rattle.ecs_observe.specs.Answers.{born};
ghost use Rattle.ecs_observe.specs.Standing.{session_of};
ghost use Rattle.world_script.specs.Told.{TellsAnswer, TellsBorn, TellsError, TellsRefusal};

use crate::interpreters::Interpreter;
use ecs_id::EntityId;
use ecs_model::faults::{Refusal, SchemaFault, SessionRefusal};
use ecs_observe::{Session, SessionError};
use ecs_print::{write_handle_line, write_number};
use query_model::faults::{Fault, FaultKind};
use std::alloc::{AllocError, Allocator};

/// Prints that a line is refused.
#[cold]
#[inline(never)]
pub(crate) fn refuse<A: Allocator>(
    number: usize,
    kind: &str,
    output: &mut Vec<u8, A>,
) -> Result<bool, AllocError>
    ensures { IfOk result (TellsRefusal number kind.now output.old.items output.new.items) }
{
    print_error(number, output)?;
    output.extend_from_slice(kind.as_bytes())?;
    output.extend_from_slice(b"\n")?;
    Ok(true)
}

/// Prints that a command is refused, or a kept query.
fn refuse_command<A: Allocator>(
    number: usize,
    refusal: SessionRefusal,
    output: &mut Vec<u8, A>,
) -> Result<bool, AllocError>
    ensures { IfOk result (TellsRefusal number (session_refusal_text refusal) output.old.items output.new.items) }
{
    match refusal {
        SessionRefusal::OfWorld(refusal) => refuse_in_world(number, refusal, output),
        SessionRefusal::EventsPending => refuse(number, "EventsPending", output),
        SessionRefusal::UnknownQuery => refuse(number, "UnknownQuery", output),
        SessionRefusal::QueryTaken => refuse(number, "QueryTaken", output),
        SessionRefusal::TooManyStored => refuse(number, "TooManyStored", output),
        SessionRefusal::Faulty(fault) => refuse_query(number, fault, output),
    }
}

/// Prints that a line is refused as the world refuses it.
#[cold]
#[inline(never)]
pub(crate) fn refuse_in_world<A: Allocator>(
    number: usize,
    refusal: Refusal,
    output: &mut Vec<u8, A>,
) -> Result<bool, AllocError>
    ensures { IfOk result (TellsRefusal number (refusal_text refusal) output.old.items output.new.items) }
{
    refuse(number, refusal_word(refusal), output)
}

/// Prints that a query is refused.
pub(crate) fn refuse_query<A: Allocator>(
    number: usize,
    fault: Fault,
    output: &mut Vec<u8, A>,
) -> Result<bool, AllocError>
    ensures { IfOk result (TellsRefusal number (fault_text fault) output.old.items output.new.items) }
{
    print_error(number, output)?;
    print_fault(fault, output)?;
    output.extend_from_slice(b"\n")?;
    Ok(true)
}

impl<A: Allocator + Copy> Interpreter<A> {
    /// Prints what the session answered to a command: the events that wait where it was accepted. After that none wait.
    pub(crate) fn tell_answer<T: Copy>(
        &mut self,
        answer: Result<T, SessionError>,
    ) -> Result<bool, AllocError>
        ensures { IfOk result (TellsAnswer answer self.old.number (session_of self.old.session)
            (session_of self.new.session) self.old.output.items self.new.output.items) }
    {
        if let Err(error) = answer {
            return tell_error(self.number, error, &mut self.output);
        }
        tell_events(&mut self.session, &mut self.output)?;
        Ok(false)
    }

    /// Prints what the session answered to `new`: the entity that it made, and then the events that wait. After that
    /// none wait.
    pub(crate) fn tell_born(
        &mut self,
        answer: Result<EntityId, SessionError>,
    ) -> Result<bool, AllocError>
        ensures { IfOk result (TellsBorn (born answer) self.old.number (session_of self.old.session)
            (session_of self.new.session) self.old.output.items self.new.output.items) }
    {
        let entity = match answer {
            Ok(entity) => entity,
            Err(error) => return tell_error(self.number, error, &mut self.output),
        };
        write_handle_line(entity, &mut self.output)?;
        tell_events(&mut self.session, &mut self.output)?;
        Ok(false)
    }
}

/// Prints why a session did not do what it was called for.
#[cold]
#[inline(never)]
pub(crate) fn tell_error<A: Allocator>(
    number: usize,
    error: SessionError,
    output: &mut Vec<u8, A>,
) -> Result<bool, AllocError>
    ensures { IfOk result (TellsError error number output.old.items output.new.items) }
{
    match error {
        SessionError::Refused(refusal) => refuse_command(number, refusal, output),
        SessionError::Memory => Err(AllocError),
    }
}

/// Prints the events that wait, if any do. After that none wait.
pub(crate) fn tell_events<A: Allocator + Copy>(
    session: &mut Session<A>,
    output: &mut Vec<u8, A>,
) -> Result<(), AllocError>
    ensures printed { OnOk result (output.new.items ≡ output.old.items
        ++ flat_map event_text (events (session_of session.old))) }
    ensures after { OnOk result (session_of session.new ≡ after_events (session_of session.old)) }
{
    if !session.has_events() {
        return Ok(());
    }
    session.write_events(output)
}

/// Prints `error LINE `.
fn print_error<A: Allocator>(number: usize, output: &mut Vec<u8, A>) -> Result<(), AllocError>
    ensures { OnOk result (output.new.items ≡ output.old.items ++ codes "error " ++ decimal number ++ codes " ") }
{
    output.extend_from_slice(b"error ")?;
    write_number(number, output)?;
    output.extend_from_slice(b" ")
}

/// Prints `KIND a..b`.
fn print_fault<A: Allocator>(fault: Fault, output: &mut Vec<u8, A>) -> Result<(), AllocError>
    ensures { OnOk result (output.new.items ≡ output.old.items ++ fault_text fault) }
{
    output.extend_from_slice(fault_word(fault.kind).as_bytes())?;
    output.extend_from_slice(b" ")?;
    write_number(fault.span.start, output)?;
    output.extend_from_slice(b"..")?;
    write_number(fault.span.end, output)
}

/// The word of a refusal.
fn refusal_word(refusal: Refusal) -> &'static str
    ensures { result.now ≡ refusal_text refusal }
{
    match refusal {
        Refusal::Dead => "Dead",
        Refusal::UnknownName => "UnknownName",
        Refusal::BadName => "BadName",
        Refusal::NameTaken => "NameTaken",
        Refusal::BuiltIn => "BuiltIn",
        Refusal::NoData => "NoData",
        Refusal::Count => "Count",
        Refusal::Range => "Range",
        Refusal::TraitFixed => "TraitFixed",
        Refusal::InUse => "InUse",
        Refusal::Cycle => "Cycle",
        Refusal::TooManyIds => "TooManyIds",
        Refusal::Panic => "Panic",
        Refusal::Full => "Full",
    }
}

/// The word of a faulty list of fields.
pub(crate) fn schema_fault_word(fault: SchemaFault) -> &'static str
    ensures { result.now ≡ schema_fault_text fault }
{
    match fault {
        SchemaFault::TooManyFields => "TooManyFields",
        SchemaFault::NoFields => "NoFields",
        SchemaFault::BadField => "BadField",
    }
}

/// The word of a kind of fault of a query.
fn fault_word(kind: FaultKind) -> &'static str
    ensures { result.now ≡ fault_word kind }
{
    match kind {
        FaultKind::Lex => "Lex",
        FaultKind::Syntax => "Syntax",
        FaultKind::UnknownName => "UnknownName",
        FaultKind::NotTraversable => "NotTraversable",
        FaultKind::UnboundVariable => "UnboundVariable",
        FaultKind::WildcardSource => "WildcardSource",
        FaultKind::WildcardEquality => "WildcardEquality",
        FaultKind::TooManyTerms => "TooManyTerms",
        FaultKind::TooManyVariables => "TooManyVariables",
        FaultKind::TooDeep => "TooDeep",
        FaultKind::NoThis => "NoThis",
        FaultKind::NotOneTerm => "NotOneTerm",
        FaultKind::CascadePlace => "CascadePlace",
    }
}
