//! Engines into handles and out of them.
ghost use Rattle.std.specs.Prelude.{◌≡◌, None, Some, option_map};
ghost use Rattle.flecsq_c.specs.Calls.{held_by, holding_of};

use crate::engine::Engine;
use crate::handle::Flecsq;
use loose::Loose;
use std::alloc::Global;
use std::mem::replace;

/// Lets a handle hold an engine. One that it held is forgotten, so it is to be taken out first.
pub(crate) fn put(handle: &mut Flecsq, engine: Box<Engine, Global>)
    ensures { held_by handle.new ≡ Some (holding_of engine.value) }
{
    *handle = Flecsq::of(Loose::of(engine));
}

/// Takes out the engine that a handle holds, and leaves it closed.
pub(crate) fn taken(alloc: Global, handle: &mut Flecsq) -> Option<Box<Engine, Global>>
    ensures taken { option_map (λ engine. holding_of engine.value) result ≡ held_by handle.old }
    ensures left { held_by handle.new ≡ None }
{
    let held = replace(handle, Flecsq::none());
    match held.into_loose(alloc) {
        Some(loose) => Some(loose.into_box()),
        None => None,
    }
}
