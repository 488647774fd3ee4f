ghost use Rattle.std.specs.Prelude.{IfOk};
ghost use Rattle.bson_shape.specs.Form.{Form};
ghost use Rattle.bson_evolve_check.specs.Checks.{ArePlain, Checks, IsVerdict};
ghost use Rattle.bson_evolve_check.specs.Searching.{Finds};

use crate::plain::is_plain;
use crate::search::first_fault;
use bson_shape::Shape;
use bson_values::Path;
use std::alloc::{AllocError, Global};
use std::error::Error;
use std::fmt;

/// Whether a shape is compatible with an older one.
#[derive(Debug, Drop)]
pub enum Verdict {
    /// Each sound document that is written at the old shape is read at the new one.
    Yes,
    /// It need not be: the pair of parts at this path is the first that no row of the table lets pass.
    No(Path),
}

/// Why two shapes are not compared.
#[derive(Clone, Copy, Debug, PartialEq, Eq)]
pub enum CheckError {
    /// The old shape is not plain.
    OldNotPlain,
    /// The old shape is plain, and the new one is not.
    NewNotPlain,
    /// Memory ran out.
    NoMemory,
}

impl fmt::Display for CheckError {
    ghost use Rattle.std.specs.Prelude.{Some};
    ghost use Rattle.bson_evolve_check.specs.Printed.{check_error_text};

    ghost output = { λ e. Some (check_error_text e) };

    fn fmt<W: fmt::Write>(&self, f: &mut fmt::Formatter<W>) -> fmt::Result {
        f.write_str(match self {
            CheckError::OldNotPlain => "the old shape is not plain",
            CheckError::NewNotPlain => "the new shape is not plain",
            CheckError::NoMemory => "out of memory",
        })
    }
}

impl Error for CheckError {}

/// Whether each sound document that is written at the old shape is read at the new one, by the table of rows in `docs/DEFINITIONS.md`.
///
/// Two shapes are compared part by part. A field and a variant add their names to the path of their parts, an item of a tuple its index, an item of a
/// sequence the index 0, a value of a map the key `*`; newtypes, options, marks, references and definitions add nothing. Parts of equal forms in equal
/// definitions are one part, and each pair of parts is entered once, so recursive shapes come to an end. Each time that a row leads to a pair it costs at most as
/// much as the notation of its parts is long; a struct and a newer one of it reach as many pairs as they have fields. The answer is about all documents: a `No` says
/// not that one is refused, but that the table does not let the pair pass.
///
/// # Errors
///
/// The first of these that applies: `OldNotPlain`, `NewNotPlain`, `NoMemory` where memory runs out.
pub fn check(alloc: Global, old: &Shape, new: &Shape) -> Result<Verdict, CheckError>
    ensures exact { Checks result old.now new.now }
{
    if !is_plain(old) {
        return Err(CheckError::OldNotPlain);
    }
    if !is_plain(new) {
        return Err(CheckError::NewNotPlain);
    }
    match compare(alloc, old, new) {
        Ok(found) => Ok(verdict_of(found)),
        Err(_) => Err(CheckError::NoMemory),
    }
}

fn verdict_of(found: Option<Path>) -> Verdict
    ensures { (old new : Form) → Finds found old new → IsVerdict result old new }
{
    match found {
        None => Verdict::Yes,
        Some(path) => Verdict::No(path),
    }
}

// The path to the first pair that passes no row.
fn compare(alloc: Global, old: &Shape, new: &Shape) -> Result<Option<Path>, AllocError>
    requires { ArePlain old.now new.now }
    ensures { IfOk result (λ o. Finds o old.now new.now) }
{
    let bson = Shape::bson();
    first_fault(alloc, old, new, &bson)
}
