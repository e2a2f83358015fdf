//! The rules of Joe-E of which an expression is judged by itself, beside its parts.
//!
//! - `may_use`, `may_call`: whether guests may use a member (`specs/Enabled.antt`).
//! - `judge_node` adds the breaks of an expression of a form (`specs/Nodes.antt`): of the rules against comparisons of references
//!   (`specs/Comparisons.antt`), texts of objects by members that aren't enabled (`specs/ObjectTexts.antt`), and uses of such members
//!   (`specs/Uses.antt`).
//! - `judge_constants` adds those of the fields that a constant expression names.
#![tactic(auto)]

mod comparisons;
mod enabled;
mod nodes;
mod texts;
mod uses;

pub use enabled::{may_call, may_use};
pub use nodes::judge_node;
pub use uses::judge_constants;
