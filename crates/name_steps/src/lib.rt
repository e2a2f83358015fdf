//! The steps of typing names in bodies: simple names of variables (locals, fields of the class and of those round it,
//! captured locals), what stands behind a point (fields of values and of classes, the length of an array, fields by
//! `super`), and names before a point.
//!
//! Contracts see a `Qualifier` by `qualifier_seen` (`specs/Qualifiers.antt`) as that of `name_typing`. `Ok` comes only
//! where the step there gives, with that node and type; `Err` with a fault only where the step is faulty with it; else
//! memory was wanting.
#![tactic(auto)]

mod accesses;
mod before;
mod classes;
mod finding;
mod last;
mod qualifier;
mod values;
mod variables;

pub use accesses::super_field;
pub use before::{name_before, select_before};
pub use body_places::{
    Frame, Place, Program, class_outwards, has_instance, instance_node, is_instance, outer_this,
    this_node,
};
pub use classes::class_named;
pub use finding::{Variable, variable_named};
pub use last::{assigned_select, select};
pub use qualifier::Qualifier;
pub use values::constant_or;
pub use variables::{assigned_name, simple_name, typed_local, updated_name};
