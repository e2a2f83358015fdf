// The default values of variables, and rows of values.
use je_core::{Base, ClassId, Memory, Slots, Ty, Value};

fn begins_as(base: Base, dims: u8, value: Value) -> bool {
    Ty { base, dims }.default_value() == value
}

#[test]
fn variables_begin_with_defaults(rt: HostRuntime) {
    let holds = begins_as(Base::Bool, 0, Value::Bool(false))
        && begins_as(Base::Byte, 0, Value::Byte(0))
        && begins_as(Base::Short, 0, Value::Short(0))
        && begins_as(Base::Char, 0, Value::Char(0))
        && begins_as(Base::Int, 0, Value::Int(0))
        && begins_as(Base::Long, 0, Value::Long(0))
        && begins_as(Base::Class(ClassId(0)), 0, Value::Null)
        && begins_as(Base::Int, 1, Value::Null);
    assert!(rt; holds);
}

fn grows(slots: &mut Slots) -> Result<bool, Memory> {
    slots.push(Value::Int(5))?;
    slots.push(Value::Null)?;
    let count = slots.len();
    if count == 2 {
        slots.set(1, Value::Long(6));
    }
    Ok(count == 2 && slots.get(1) == Some(Value::Long(6)) && slots.get(2).is_none())
}

#[test]
fn slots_grow_at_their_end(rt: HostRuntime) -> Result<(), Memory> {
    let mut slots = Slots::new(rt.alloc());
    assert!(rt; grows(&mut slots)?);
    Ok(())
}
