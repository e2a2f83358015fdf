//! Places in bodies, and what stands round them: the classes of a program, locals, `this` and the instances round it,
//! and the fields that names find (JLS 4.4, 8.2, 8.3, 9.3).
//!
//! `find_field` finds nothing, one field by its class and its place there, or several, which contracts see by
//! `found_seen` of `member_lookup`, as `find_field` of `name_typing` has it. A look-up comes by each type above once a
//! step upwards at most, whatever the number of ways that lead there.
//!
//! Contracts see a `Program` by `program_seen` and a `Place` by `place_seen`, as those of `name_typing`. A step answers
//! `Ok` only where that of `name_typing` gives, with what it gives; `Err` with a fault only where the step is faulty
//! with it; else memory was wanting.
#![tactic(auto)]

mod above;
mod declared;
mod fields;
mod found;
mod instances;
mod kept;
mod place;
mod program;
mod seen;
mod tables;

pub use declared::{field_at, fields_of};
pub use fields::{Selected, field_in, found_field, need_field, uses_for};
pub use found::find_field;
pub use instances::{
    class_outwards, has_instance, instance_node, is_instance, outer_this, this, this_node,
};
pub use kept::captured_of;
pub use member_lookup::Found;
pub use place::{Frame, Initializer, LocalVariable, Place};
pub use program::Program;
pub use seen::type_seen;
pub use tables::{Captured, Constant, constant_of, outer_of};
