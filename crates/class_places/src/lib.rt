//! Which locals each class captures from the bodies round it (JLS 8.1.3), and where classes stand: the bodies round
//! each class (JLS 6.3, 14.3, 15.9.5), both by what was met in bodies.
//!
//! What a class captures, those capture too that it stands in, that make objects of it or that it is above, as far as
//! it is from outside them. So each local that a class captures is handed on to those, round by round, until nothing is
//! new.
//!
//! `Stands` has of each class which of all that was met is the first to tell where it stands; contracts say so by
//! `AreFirst`. Looking that up takes constant time, and bodies round a class cost these bodies and the locals in them.
#![tactic(auto)]

mod first;
mod kept;
mod locals;
mod rounds;
mod users;

pub use first::Stands;
pub use locals::captured_locals;
pub use rounds::{placed_by, round_met};
