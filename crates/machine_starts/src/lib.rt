//! The start of classes: which class a node starts, their initializers one after another, and what comes behind them.
//!
//! Inside the machine alone. What its frames stand for is in `machine_parts/specs/Ways.antt` and `Starts.antt`; the
//! functions here go on as `starts_on`, `goes_behind` and `load_from` there say.
#![tactic(auto, unfolding(machine_parts::specs::way::Opened::opened))]

pub mod initialize;
pub mod node;
pub mod starting;
