// What members cost by their rows; what they make or add is paid for where that is done.

ghost use Rattle.std.specs.Prelude.{◌≡◌, ◌≤◌, ◌*◌, []};
ghost use Rattle.je_java.specs.LibraryMembers.{pay as the_pay};
ghost use Rattle.je_java.specs.Steps.{charge};
ghost use Rattle.je_java.specs.World.{World};
ghost use Rattle.je_table.specs.declared.members.CostKind.TheVariants.{Product, Receiver};
ghost use Rattle.tamed_lib.specs.Paying.{Pays, times_part};

use crate::arguments::with_text;
use crate::raised::null_pointer_class;
use je_core::{ClassId, Slots, Value};
use je_heap::Heap;
use je_table::CostKind;

/// What the payment for a member comes to.
#[derive(Clone, Copy, PartialEq, Eq)]
pub enum Paid {
    /// Its cost is taken from the units left.
    Done,
    /// Its receiver is null: a new exception of that class, which is still to be made, is thrown.
    Raises(ClassId),
    /// Its cost is greater than the units left.
    Spent,
    /// What a program that fits its types never comes to.
    Wrong,
}

// Takes so many units of those left.
fn take(left: &mut u64, cost: u128) -> Paid
    ensures goes { (world : World) → Pays world left.old left.new (λ p. charge cost) result }
    ensures units { left.new ≤ left.old }
{
    if cost > *left as u128 {
        return Paid::Spent;
    }
    *left -= cost as u64;
    Paid::Done
}

// A length times another.
fn product(count: usize, part: usize) -> u128
    ensures { result ≡ count * part }
{
    count as u128 * part as u128
}

// The receiver's length.
fn pay_receiver(heap: &Heap, left: &mut u64, this: Value) -> Paid
    ensures goes { Pays heap.now.world left.old left.new (λ p. the_pay Receiver p this []) result }
    ensures units { left.new ≤ left.old }
{
    match this {
        Value::Ref(object) => match heap.units(object) {
            Some(units) => take(left, units.len() as u128),
            None => Paid::Wrong,
        },
        Value::Null => Paid::Raises(null_pointer_class()),
        _ => Paid::Wrong,
    }
}

// A length times that of the String argument, which counts as 0 where it is null.
fn pay_times_part(heap: &Heap, left: &mut u64, count: usize, given: &Slots) -> Paid
    ensures goes { Pays heap.now.world left.old left.new (λ p. times_part count given.now) result }
    ensures units { left.new ≤ left.old }
{
    with_text!(heap, given, 0,
        part => take(left, product(count, part.len())),
        null => take(left, 0),
        else => Paid::Wrong)
}

// The receiver's length times the argument's.
fn pay_product(heap: &Heap, left: &mut u64, this: Value, given: &Slots) -> Paid
    ensures goes { Pays heap.now.world left.old left.new
        (λ p. the_pay Product p this given.now) result }
    ensures units { left.new ≤ left.old }
{
    match this {
        Value::Ref(object) => match heap.units(object) {
            Some(units) => pay_times_part(heap, left, units.len(), given),
            None => Paid::Wrong,
        },
        Value::Null => Paid::Raises(null_pointer_class()),
        _ => Paid::Wrong,
    }
}

/// Takes what a member costs by its row, but for what it makes or adds.
pub fn pay(heap: &Heap, left: &mut u64, cost: CostKind, this: Value, given: &Slots) -> Paid
    ensures goes { Pays heap.now.world left.old left.new
        (λ p. the_pay cost p this given.now) result }
    ensures units { left.new ≤ left.old }
{
    match cost {
        CostKind::Plain | CostKind::Result => Paid::Done,
        CostKind::Receiver => pay_receiver(heap, left, this),
        CostKind::Product => pay_product(heap, left, this, given),
    }
}
