// What members come to.

use je_core::{ClassId, ObjId, Slots, Ty, Units, Value};

/// What a member of a library class comes to.
#[derive(Clone, Copy, PartialEq, Eq, Debug)]
pub enum LibraryOutcome {
    /// A value; null where the member is `void`.
    Value(Value),
    /// A new exception of that class, which is still to be made, is thrown.
    Raises(ClassId),
    /// Its next cost is greater than the units left.
    Spent,
    /// What a program that fits its types never comes to.
    Wrong,
}

/// What is left to do of a member, once all that it looks at is known.
#[derive(Drop)]
pub enum Rest {
    /// Nothing: it comes to a value.
    Gives(Value),
    /// To throw a new exception of that class.
    Raises(ClassId),
    /// Nothing: its next cost is greater than the units left.
    Spent,
    /// What a program that fits its types never comes to.
    Wrong,
    /// To make a string of these units, which are paid for.
    NewText(Units),
    /// To make a builder of these units, which are paid for.
    NewBuilder(Units),
    /// To make an array with elements of that type, which are paid for.
    NewArray(Ty, Slots),
    /// To make a row of that class with these values, which are paid for.
    NewRow(ClassId, Slots),
    /// To put units behind those of a builder, which are paid for, and to give the builder.
    Append(ObjId, Units),
    /// To put units into a builder in place of its own, and to give a value.
    Rewrite(ObjId, Units, Value),
    /// To put a value into a slot, and to give it.
    Store(ObjId, u64, Value),
}
