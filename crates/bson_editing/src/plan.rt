// What is changed in a document, and where.
ghost use Rattle.std.specs.Prelude.{◌≡◌};
ghost use Rattle.bson_editing.specs.Plan.{is_for};
ghost use Rattle.bson_editing.specs.PlanView.{name_of};

use crate::literal::Literal;

/// What is done with a value.
#[cycle(plan)]
#[derive(Debug, Drop)]
pub enum Edit {
    /// It stays as it is.
    Keep,
    /// Its element is left out.
    DropIt,
    /// It is changed, as the change of this number does.
    Change(usize),
    /// The elements in it are edited by these steps, each by the first that is for it, if it is a document or an array.
    InsideIt(Vec<Step>),
}

/// A step into a document or an array.
#[cycle(plan)]
#[derive(Debug, Drop)]
pub struct Step {
    /// The key of the elements of a document that it is for; `None`: all elements of a document or an array.
    pub name: Option<String>,
    /// The key that they get, which no element of the document may have; `None`: the one that they have.
    pub to: Option<String>,
    /// The value of an element that is put behind the others of a document that has none of the name; `None`: none is put. It is edited, too.
    pub missing: Option<Literal>,
    /// What is done with the values.
    pub edit: Edit,
}

impl Step {
    // Whether it is for an element of this key.
    pub(crate) fn is_for(&self, array: bool, key: &str) -> bool
        ensures { result ≡ is_for array (name_of self.now.name) key.now }
    {
        match &self.name {
            None => true,
            Some(name) => !array && name.as_str() == key,
        }
    }
}
