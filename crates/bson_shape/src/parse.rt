// The shape that a text is the notation of.
ghost use Rattle.std.specs.Prelude.{◌≡◌, ℕ, IfOk, Ok, Err};
ghost use Rattle.bson_shape.specs.Form as form;
ghost use Rattle.bson_shape.specs.Notation as notation;
ghost use Rattle.bson_shape.specs.Makers.{IsShape};
ghost use Rattle.bson_shape.specs.FirstRefusal.{MakerRefusal};
ghost use Rattle.bson_shape.specs.Machine as machine;
ghost use Rattle.bson_shape.specs.Answers.{Gives};
ghost use Rattle.bson_shape.specs.Fronts.{IsMet, IsNotNotationAt, IsRefusedAt};
ghost use Rattle.bson_shape.specs.declared.error.ShapeError.{ShapeError};
ghost use Rattle.bson_shape.specs.declared.error.ShapeError.TheVariants.{NoMemory};

use crate::parser::read;
use crate::{ParseError, Shape};
use std::alloc::Global;

impl Shape {
    /// The shape that the text is the notation of.
    ///
    /// The text is read from left to right, and the first refusal that is met is returned, with its place: a number of bytes from the start of the text.
    ///
    /// # Errors
    ///
    /// - `NotNotation` has the number of bytes of the longest front of the text with which some notation begins.
    /// - `Refused` has the first byte of the form whose maker refuses. A reserved or a repeated name and a map's key are met at the last byte of the
    ///   form, inner forms first, and a form inside 512 others at its first byte. A struct variant's names are judged with its enum. A leaf ends before a
    ///   byte that neither makes its word longer nor makes a name of it.
    /// - `NoMemory` comes where memory runs out, in a maker too: `Refused` never holds it.
    pub fn parse(alloc: Global, text: &str) -> Result<Shape, ParseError>
        // The text is the notation of what is read.
        ensures found { IfOk result (λ s. notation.text s ≡ text.now) }

        // Each shape is read from its notation, unless memory runs out.
        ensures only { (f : form.Form) → IsShape f → text.now ≡ notation.text f → Gives (λ s. s) result (Ok f) }

        // A maker's refusal is answered only where it is the first one that is met,
        ensures refused { (p : ℕ) → (e : ShapeError) → result ≡ Err (ParseError.Refused p e) → IsRefusedAt text.now p e }

        // never because memory ran out,
        ensures memory { (p : ℕ) → result ≡ Err (ParseError.Refused p NoMemory) → ⊥ }

        // and wherever one is met.
        ensures met { (r : MakerRefusal) → IsMet text.now r → Gives (λ s. s) result (Err (machine.Refused r)) }

        // Else the place is the length of the longest front with which some notation begins.
        ensures not_notation { (p : ℕ) → result ≡ Err (ParseError.NotNotation p) → IsNotNotationAt text.now p }

        // Which answer it is, by the machine.
        ensures exact { Gives (λ s. s) result (machine.parsed text.now) }
    {
        read(alloc, text)
    }
}

/// Tells a contract that the notation of a shape is read as that shape. It does nothing.
pub fn law_text()
    ensures { (f : form.Form) → IsShape f → machine.parsed (notation.text f) ≡ Ok f }
{}
