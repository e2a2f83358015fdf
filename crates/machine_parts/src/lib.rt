//! What the machine's moves stand on: frames and their stack, and what they do with values, fields, classes and the heap.
//!
//! Inside the machine alone: the layers above it use `je_interp`. `specs/Ways.antt` says what each frame stands for,
//! the rest of one case of evaluation; `specs/way/Clauses.antt` has the sentences of which the moves' contracts are made.
#![tactic(auto, unfolding(crate::specs::way::Opened::opened))]

pub mod array;
pub mod class;
pub mod field;
pub mod frame;
pub mod kind;
pub mod make;
pub mod reply;
pub mod stack;
pub mod starts;
pub mod text;
pub mod value;
pub mod variable;

pub use object_parts::shape;
