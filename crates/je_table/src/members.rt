//! The members of the library's classes.
ghost use Rattle.std.specs.Prelude.{◌≡◌, IsTrue};
ghost use Rattle.je_table.specs.Tables.{is_sorted};
ghost use Rattle.je_table.specs.way.Boundary.{IsBoundary};
ghost use Rattle.je_table.specs.Members.{key_cmp, keys, key_of, place_of_key};

use crate::types::RowType;

/// What a call of a member costs beside its node.
#[derive(Clone, Copy, PartialEq, Eq)]
pub enum CostKind {
    /// Nothing.
    Plain,
    /// The units or slots of what it makes or adds.
    Result,
    /// The receiver's length.
    Receiver,
    /// The receiver's length times the argument's, 0 where the argument is null.
    Product,
}

/// A method, constructor or field of a library class.
#[derive(Clone, Copy)]
pub struct MemberRow {
    /// The full name of its class.
    pub class: &'static str,
    /// Its name, and if it is no field the simple names of its parameters' erased types: `substring(int,int)`.
    pub signature: &'static str,
    /// Its name alone; `new` for a constructor.
    pub name: &'static str,
    /// The types of its parameters before erasure; none for a field.
    pub parameters: Option<&'static [RowType]>,
    /// A field's own type; `void` for a constructor.
    pub returns: RowType,
    /// It belongs to the class, and takes no receiver.
    pub is_static: bool,
    /// A taming text may enable it; no accepted program reaches a wild one.
    pub tame: bool,
    /// What a call costs beside its node.
    pub cost: CostKind,
}

/// The place of the first row that has this class and this signature; none exactly where no row has both.
pub fn find_member(rows: &[MemberRow], class: &str, signature: &str) -> Option<usize>
    requires { IsTrue (is_sorted key_cmp (keys rows.now)) }
    ensures { result ≡ place_of_key class.now signature.now (keys rows.now) }
{
    let at = count_before(rows, class, signature);
    if at < rows.len() && (rows[at].class, rows[at].signature) == (class, signature) {
        Some(at)
    } else {
        None
    }
}

/// How many rows are before this class and this signature.
fn count_before(rows: &[MemberRow], class: &str, signature: &str) -> usize
    requires { IsTrue (is_sorted key_cmp (keys rows.now)) }
    ensures { IsBoundary (λ row. key_cmp (key_of row) (class.now, signature.now)) rows.now result }
{
    rows.partition_point(|row| (row.class, row.signature) < (class, signature))
}
