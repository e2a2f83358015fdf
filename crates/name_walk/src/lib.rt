//! The classes of all units, found by one walk over their trees: the library's first, and then those of the units in reading
//! order, local and anonymous ones among them. A class's number is its place.
//!
//! `walk` gives a `ClassSite` for each. Contracts see the list of them by `sites_of` (`specs/View.antt`) as the list of sites
//! of `je_scopes`: a site's spot has lists of numbers, of which a `ClassSite` keeps the first alone, since the others are
//! those of that class.
#![tactic(auto)]

mod collector;
mod context;
mod site;
mod trees;
mod walks;

pub use context::{has_private, has_static};
pub use site::{ClassSite, Context, Spot, Written};
pub use walks::walk;
