//! Tests of the library, the heap, the lexer and the tables, each over what these crates export, in one crate, so that none
//! of them is proved once more for its tests. With ample memory.
#![tactic(auto)]

#[cfg(test)]
mod arithmetic;
#[cfg(test)]
mod changes;
#[cfg(test)]
mod heap;
#[cfg(test)]
mod lexing;
#[cfg(test)]
mod library;
#[cfg(test)]
mod members;
#[cfg(test)]
mod names;
#[cfg(test)]
mod naming;
#[cfg(test)]
mod numbers;
#[cfg(test)]
mod reads;
#[cfg(test)]
mod tables;
#[cfg(test)]
mod values;
#[cfg(test)]
mod words;
#[cfg(test)]
mod writes;

#[cfg(test)]
use je_base::{Memory, Units};
#[cfg(test)]
use std::alloc::Global;

// The units of an ASCII text.
#[cfg(test)]
fn text(alloc: Global, letters: &str) -> Result<Units, Memory> {
    let mut units = Units::new(alloc);
    for letter in letters.as_bytes() {
        units.push(*letter as u16)?;
    }
    Ok(units)
}

// Whether units spell an ASCII text.
#[cfg(test)]
fn spells(units: &[u16], letters: &str) -> bool {
    let letters = letters.as_bytes();
    if units.len() != letters.len() {
        return false;
    }
    for (unit, letter) in units.iter().zip(letters) {
        if *unit != *letter as u16 {
            return false;
        }
    }
    true
}
