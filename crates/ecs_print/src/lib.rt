//! How entities, ids and the values of facts print: as the definitions of `ecs_model::Print` say.
//!
//! Each function appends to what was written, and fails where memory is refused.
#![tactic(auto)]

mod digits;
mod entities;
mod facts;

pub use digits::write_number;
pub use entities::{write_entity, write_handle, write_handle_line, write_id, write_index};
pub use facts::{MOST_TEXT, put_fields, write_fact, write_facts, write_value};
