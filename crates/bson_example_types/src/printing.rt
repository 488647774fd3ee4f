// What the examples return, for a cat, for a person with two pets and for a pedigree of three cats.
use crate::own_types::{
    cat_bytes, cat_of, household_bytes, household_document, household_in, household_of,
    pedigree_bytes, pedigree_of,
};
use crate::{Cat, Pedigree, Person, Pet};
use bson_lines::Lines;
use std::alloc::{AllocError, Global};

/// A cat.
fn garfield(alloc: Global) -> Result<Cat, AllocError> {
    let name = String::from_str(alloc, "Garfield")?;
    Ok(Cat { name, age: 43 })
}

/// A cat and a stray.
fn pets(alloc: Global) -> Result<Vec<Pet>, AllocError> {
    let cat = Pet::Cat(garfield(alloc)?);
    Ok(vec![in alloc; cat, Pet::Stray]?)
}

/// A person with a cat and a stray.
fn jon(alloc: Global) -> Result<Person, AllocError> {
    let name = String::from_str(alloc, "Jon")?;
    Ok(Person {
        name,
        age: 30,
        pets: pets(alloc)?,
    })
}

/// A cat of two founders.
fn kitten(alloc: Global) -> Result<Pedigree, AllocError> {
    Pedigree::of(alloc, Pedigree::Founder(1), Pedigree::Founder(2))
}

/// Adds the bytes of a cat, and the cat that is read of them.
fn add_cat(lines: &mut Lines, alloc: Global, cat: &Cat) {
    match cat_bytes(alloc, cat) {
        Ok(bytes) => {
            lines.hex("cat_bytes", &bytes);
            lines.made("cat_of", cat_of(alloc, &bytes));
        }
        Err(error) => lines.text("no cat_bytes", &error),
    }
}

/// Adds the person who is read of the bytes of a person.
fn add_read(lines: &mut Lines, alloc: Global, person: &Person) {
    match household_bytes(alloc, person) {
        Ok(bytes) => lines.made("household_of", household_of(alloc, &bytes)),
        Err(error) => lines.text("no household_bytes", &error),
    }
}

/// Adds the person who is read of the document that a person is.
fn add_again(lines: &mut Lines, alloc: Global, person: &Person) {
    match household_document(alloc, person) {
        Ok(document) => lines.made("household_in", household_in(alloc, document)),
        Err(error) => lines.text("no household_document", &error),
    }
}

/// Adds a person who is written and read, in bytes and in memory.
fn add_household(lines: &mut Lines, alloc: Global, person: &Person) {
    add_read(lines, alloc, person);
    add_again(lines, alloc, person);
}

/// Adds the bytes of a pedigree, and the pedigree that is read of them.
fn add_pedigree(lines: &mut Lines, alloc: Global, pedigree: &Pedigree) {
    match pedigree_bytes(alloc, pedigree) {
        Ok(bytes) => {
            lines.hex("pedigree_bytes", &bytes);
            lines.made("pedigree_of", pedigree_of(alloc, &bytes));
        }
        Err(error) => lines.text("no pedigree_bytes", &error),
    }
}

/// A cat, a person and a pedigree are written and read.
pub fn add_all(lines: &mut Lines, alloc: Global) {
    match garfield(alloc) {
        Ok(cat) => add_cat(lines, alloc, &cat),
        Err(error) => lines.text("no cat", &error),
    }
    match jon(alloc) {
        Ok(person) => add_household(lines, alloc, &person),
        Err(error) => lines.text("no person", &error),
    }
    match kitten(alloc) {
        Ok(pedigree) => add_pedigree(lines, alloc, &pedigree),
        Err(error) => lines.text("no pedigree", &error),
    }
}
