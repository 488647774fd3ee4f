// What is read from, and for whom.
ghost use Rattle.std.specs.Prelude.{◌≡◌};
ghost use Rattle.bson_shape.specs.Form.{Form};
ghost use Rattle.bson_shape.specs.ShapeView.{fields_of};
ghost use Rattle.bson_laws.specs.Scopes.{formed, meanings_of, IsDefinedAs, Follows};
ghost use Rattle.bson_laws.specs.Settled.{settled};
ghost use Rattle.bson_laws.specs.Unrolled.{names_in, max_steps, whole};

use bson_shape::{FieldShape, Shape, definition};

/// What a value is read from.
#[derive(Clone, Copy, Debug, PartialEq, Eq)]
pub enum Origin {
    /// Bytes of the input.
    Bytes,
    /// A tree in memory.
    Tree,
}

/// No value that is met is as deep: of 200 levels each may be a scope, which is opened to a document around it, and what is opened last has three more.
const ROUNDS: u16 = 404;

/// For whom a value is read, from what, and in which definitions.
///
/// A reference takes one of the steps that are left, and where none is left a round, which has a step for each definition and one more. So every shape comes
/// to an end, and no value does so: a chain of references has no more names than a round has steps, and behind it a value is inside the one before.
#[derive(Clone, Copy)]
pub struct Reader<'s> {
    /// Whether the reader is human: a value with two forms is read in its readable one then.
    pub readable: bool,
    /// What is read from.
    pub origin: Origin,
    /// The innermost definitions around the shape.
    pub table: &'s [FieldShape],
    /// The rounds that are left behind this one.
    pub rounds: u16,
    /// The steps that are left in this round.
    pub steps: usize,
}

/// A definition, and the reader where its name was met.
#[derive(Clone, Copy)]
pub struct Definition<'s> {
    /// The shape.
    pub shape: &'s Shape,
    /// For whom, from what and in which definitions it is read.
    pub reader: Reader<'s>,
}

impl<'s> Reader<'s> {
    /// For a shape without definitions around it.
    pub fn new(readable: bool, origin: Origin) -> Reader<'s>
        ensures readable { result.readable ≡ readable }
        ensures origin { result.origin ≡ origin }
        ensures whole { (s : Form) → formed result s ≡ settled readable (whole s) }
    {
        Reader {
            readable,
            origin,
            table: &[],
            rounds: ROUNDS,
            steps: 0,
        }
    }

    /// The same for a shape with these definitions around it.
    pub fn inside<'t>(&self, table: &'t [FieldShape]) -> Reader<'t>
        ensures readable { result.readable ≡ self.now.readable }
        ensures origin { result.origin ≡ self.now.origin }
        ensures meanings { meanings_of result ≡ names_in max_steps (fields_of table.now) }
    {
        Reader {
            readable: self.readable,
            origin: self.origin,
            table,
            rounds: ROUNDS,
            steps: 0,
        }
    }

    /// What a name means: its definition, and the reader for it; `None` where it has none.
    pub fn definition(&self, name: &str) -> Option<Definition<'s>>
        ensures means { IsDefinedAs result self.now name.now }
    {
        match definition(self.table, name) {
            None => None,
            Some(shape) => self.followed(shape),
        }
    }

    /// A definition of the table, and the reader where its name was met.
    fn followed(&self, shape: &'s Shape) -> Option<Definition<'s>>
        ensures { Follows result self.now shape.now }
    {
        if self.steps > 0 {
            return Some(Definition {
                shape,
                reader: self.left(self.rounds, self.steps - 1),
            });
        }
        if self.rounds > 0 {
            return Some(Definition {
                shape,
                reader: self.left(self.rounds - 1, self.table.len()),
            });
        }
        None
    }

    /// The same with this many rounds and steps left.
    fn left(&self, rounds: u16, steps: usize) -> Reader<'s>
        ensures readable { result.readable ≡ self.now.readable }
        ensures origin { result.origin ≡ self.now.origin }
        ensures table { result.table ≡ self.now.table }
        ensures rounds { result.rounds ≡ rounds }
        ensures steps { result.steps ≡ steps }
    {
        Reader {
            readable: self.readable,
            origin: self.origin,
            table: self.table,
            rounds,
            steps,
        }
    }
}
