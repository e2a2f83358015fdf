// Each call once, with ample memory.
use je_base::{Memory, NameId, Names, Units};

// Whether a text gets that number.
fn is_numbered(names: &mut Names, text: &str, number: u32) -> Result<bool, Memory> {
    if names.len() >= 1_000 {
        return Ok(false);
    }
    Ok(names.intern(text)? == NameId(number))
}

fn are_numbered_once(names: &mut Names) -> Result<bool, Memory> {
    Ok(
        names.find("a").is_none()
            && is_numbered(names, "a", 0)?
            && is_numbered(names, "bc", 1)?
            && is_numbered(names, "a", 0)?
            && is_numbered(names, "", 2)?
            && is_numbered(names, "bc", 1)?
            && names.len() == 3
            && names.find("bc") == Some(NameId(1))
            && names.text(NameId(2)) == Some("")
            && names.text(NameId(3)).is_none(),
    )
}

#[test]
fn names_have_one_number_each(rt: HostRuntime) -> Result<(), Memory> {
    let mut names = Names::new(rt.alloc());
    assert!(rt; are_numbered_once(&mut names)?);
    Ok(())
}

fn grows(units: &mut Units) -> Result<bool, Memory> {
    let is_empty = units.is_empty();
    units.push(97)?;
    units.push(0xd800)?;
    Ok(is_empty && units.len() == 2 && units.as_slice() == [97, 0xd800].as_slice())
}

#[test]
fn units_grow_at_their_end(rt: HostRuntime) -> Result<(), Memory> {
    let mut units = Units::new(rt.alloc());
    assert!(rt; grows(&mut units)?);
    Ok(())
}

#[test]
fn want_of_memory_is_one_value() {
    let _want = Memory;
}
