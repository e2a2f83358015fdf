//! The steps of typing calls in bodies (JLS 15.12): on a value, of a class, by a simple name, and by `super`; and what
//! calls and creations are made of: the methods and constructors that a type has under a name, the one that arguments
//! choose, the arguments, each converted to the type of its parameter, and the nodes (JLS 4.4, 8.2, 8.4.8, 8.8.9, 10.7,
//! 15.9).
//!
//! A `MethodTable` has the methods of all classes; contracts see what it has of a class by `methods_at`
//! (`specs/TableView.antt`), and what is found in it as the definitions of `call_typing` (`Methods.antt`,
//! `Constructors.antt`). A look-up costs the methods of one class. A `Caller` is what a call in a class is judged by.
//!
//! `Ok` comes only where the step of `call_typing` gives, with that node and type; `Err` with a fault only where the
//! step is faulty with it; else memory was wanting. The table of a `Calls` has the methods of its classes
//! (`HasMethods`).
#![tactic(auto)]

mod arguments;
mod caller;
mod calling;
mod calls;
mod choosing;
mod constructors;
mod makeable;
mod nodes;
mod seeking;
mod simple;
mod sought;
mod table;
mod type_arguments;

pub use caller::Caller;
pub use calling::{Receiver, call_on, receiver_of, super_call};
pub use calls::{Calls, chosen_constructor};
pub use constructors::{default_constructor, default_place};
pub use makeable::{has_constructors, is_abstract, is_variable, made_of};
pub use nodes::{CreationSpans, head_call, new_object, used};
pub use simple::simple_call;
pub use table::MethodTable;
