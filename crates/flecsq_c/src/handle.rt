//! What C holds: a pointer to an engine on the heap, or none; and bytes by their pointer.
//!
//! All raw pointers of the crate stand here and in `lent`.

ghost use Rattle.std.specs.Prelude.{◌≡◌, None, Option, Some, length, option_map};
ghost use denote.RawPtr.{block_ptr};
ghost use Rattle.flecsq_c.specs.declared.engine.Engine.{Engine as EngineValue};
ghost use Rattle.flecsq_c.specs.Held.{holds_if};

use crate::engine::Engine;
use loose::Loose;
use std::alloc::Global;
use std::marker::Model;

/// What C doesn't look into.
#[repr(C)]
#[derive(Drop, Clone, Copy)]
pub struct Opaque {
    byte: u8,
}

/// An engine on the heap, or none.
#[repr(C)]
#[derive(Drop)]
pub struct Flecsq {
    at: *mut Opaque,
    is_open: bool,
    pub ghost engine: { Option EngineValue },
}

impl Model for Flecsq {
    ghost use Rattle.flecsq_c.specs.Held.{held};

    ghost also_owns = { λ h. held h.is_open h.at h.engine };
}

impl Flecsq {
    /// The engine of a box that was taken apart.
    pub fn of(loose: Loose<Engine, Global>) -> Flecsq
        ensures { holds_if result.is_open result.engine ≡ Some loose.value }
    {
        let Loose { at, alloc: _ } = loose;
        Flecsq {
            at: at as *mut Opaque,
            is_open: true,
        }
    }

    /// No engine.
    pub fn none() -> Flecsq
        ensures { holds_if result.is_open result.engine ≡ None }
    {
        Flecsq {
            at: std::ptr::null_mut(),
            is_open: false,
        }
    }

    /// The box, taken apart.
    pub fn into_loose(self, alloc: Global) -> Option<Loose<Engine, Global>>
        ensures { option_map (λ l. l.value) result ≡ holds_if self.is_open self.engine }
    {
        let Flecsq { at, is_open } = self;
        if is_open {
            Some(Loose {
                at: at as *mut Engine,
                alloc,
            })
        } else {
            None
        }
    }
}

/// Bytes by where they are. They are lent until the next call with the handle.
#[repr(C)]
#[derive(Clone, Copy, Drop)]
pub struct Span {
    pub at: *const u8,
    pub len: usize,
}

impl Span {
    /// Where these bytes are.
    pub fn of(bytes: &[u8]) -> Span
        ensures { result.len ≡ length bytes.now }
    {
        Span {
            at: start_of(bytes),
            len: bytes.len(),
        }
    }
}

/// Where the first of these bytes is.
pub(crate) fn start_of(bytes: &[u8]) -> *const u8
    ensures { result ≡ block_ptr bytes.entry.ref_ptr.0 bytes.entry.ref_ptr.1 }
{
    bytes.as_ptr()
}
