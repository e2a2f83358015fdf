// Where a class stands in a body.

ghost use Rattle.std.specs.Prelude.{◌≡◌};
ghost use Rattle.captured_reads.specs.View.{standing_view};
ghost use Rattle.assignment_rules.specs.Sites.{begins_list as the_begins_list, is_between as the_is_between, stands_at as the_stands_at};

use captured_reads::Standing;
use je_core::{ClassId, Span};

/// A place in a body where classes stand.
#[derive(Clone, Copy, PartialEq, Eq)]
pub enum Site {
    /// Behind `new`, where an anonymous class is made (JLS 15.9.5).
    Creation {
        class: ClassId,
    },
    /// In a list of statements that begins at a byte, between two of its statements (JLS 14.3): from the first byte of
    /// one on, before that of the other. None is behind the last one.
    Declaration {
        list: u32,
        from: u32,
        to: Option<u32>,
    },
}

/// Whether a class stands at a place.
pub fn stands_at(site: Site, class: &Standing) -> bool
    ensures { result ≡ the_stands_at site (standing_view class.now) }
{
    match site {
        Site::Creation { class: made } => class.home.is_none() && class.class.0 == made.0,
        Site::Declaration { list, from, to } => {
            begins_list(list, class.home) && is_between(from, to, class.span.start)
        }
    }
}

// Whether a list of statements begins at a byte.
fn begins_list(list: u32, home: Option<Span>) -> bool
    ensures { result ≡ the_begins_list list home }
{
    match home {
        None => false,
        Some(home) => home.start == list,
    }
}

// Whether a byte stands behind one and before another one.
fn is_between(from: u32, to: Option<u32>, at: u32) -> bool
    ensures { result ≡ the_is_between from to at }
{
    match to {
        None => at >= from,
        Some(to) => at >= from && at < to,
    }
}
