// A search for a name of definitions that leads back to itself. Each definition is entered once, so it takes as many steps as the definitions have parts,
// and a look-up at each reference.
ghost use Rattle.std.specs.Prelude.{◌≡◌, IfOk, OnOk};
ghost use Rattle.bson_kinds.specs.Text.{Utf8};
ghost use Rattle.bson_shape.specs.Guarded as guarded;
ghost use Rattle.bson_shape.specs.ShapeView.{fields_of};
ghost use Rattle.bson_shape.specs.Form as form;
ghost use Rattle.bson_shape.specs.Prover.Search.{search_view, task_view, lead_view, lead_of, unseen_in, with_task, follow, entering, Searches, Goes, Ran};

use crate::{FieldShape, Form, Shape};
use std::alloc::{AllocError, Global};
use std::collections::{BTreeMap, BTreeSet};

/// What the search has still to do.
#[derive(Clone, Copy)]
enum Task<'t> {
    /// To follow what this form leads to.
    Follow(&'t Shape),
    /// All that the definition of this name leads to has been followed.
    Leave(&'t str),
}

/// What a form leads to without a step into a value.
#[derive(Clone, Copy)]
enum Lead<'t> {
    /// To no name.
    Nowhere,
    /// To this name.
    Name(&'t str),
    /// Where this form leads to.
    Inner(&'t Shape),
    /// Where both of these lead to.
    Both(&'t Shape, &'t Shape),
}

/// A search through definitions.
#[derive(Drop)]
struct Search<'t> {
    /// The definitions.
    table: &'t [FieldShape],
    /// Those that are not entered yet, by their names.
    unseen: BTreeMap<&'t str, &'t Shape>,
    /// The names of those that are entered and not left.
    entered: BTreeSet<&'t str>,
    /// What is still to be done; the last comes first.
    tasks: Vec<Task<'t>>,
}

/// Whether no name leads back to itself without a step into a value.
pub(crate) fn is_guarded_by_search(alloc: Global, table: &[FieldShape]) -> Result<bool, AllocError>
    ensures { IfOk result (λ b. b ≡ guarded.is_guarded (fields_of table.now)) }
{
    let mut search = Search {
        table,
        unseen: all_unseen(alloc, table)?,
        entered: BTreeSet::new(alloc),
        tasks: Vec::new(alloc),
    };
    while let Some((name, shape)) = search.unseen.pop_first() {
        search.enter(name, shape)?;
        if !search.run()? {
            return Ok(false);
        }
    }
    Ok(true)
}

/// All definitions by their names, the first one of a name.
fn all_unseen(alloc: Global, table: &[FieldShape]) -> Result<BTreeMap<&str, &Shape>, AllocError>
    ensures { IfOk result (λ m. (key : Utf8) → unseen_in m key ≡ guarded.definition (fields_of table.now) key) }
{
    let mut unseen = BTreeMap::new(alloc);
    let mut at = table.len();
    while at > 0 {
        at -= 1;
        let field = &table[at];
        unseen.insert(field.name.as_str(), &field.shape)?;
    }
    Ok(unseen)
}

impl<'t> Search<'t> {
    /// Enters the definition of this name, which is this shape.
    fn enter(&mut self, name: &'t str, shape: &'t Shape) -> Result<(), AllocError>
        ensures entered { OnOk result (search_view self.new ≡ entering name.now shape.now (search_view self.old)) }
        ensures table { self.new.table ≡ self.old.table }
    {
        self.entered.insert(name)?;
        self.tasks.push(Task::Leave(name))?;
        self.tasks.push(Task::Follow(shape))?;
        Ok(())
    }

    /// Does what is to be done. The answer is false where some name leads back to itself.
    fn run(&mut self) -> Result<bool, AllocError>
        requires { Searches (fields_of self.old.table.now) (search_view self.old) }
        ensures ran { IfOk result (λ b. Ran (fields_of self.old.table.now) (search_view self.old) b (search_view self.new)) }
        ensures table { self.new.table ≡ self.old.table }
    {
        while let Some(task) = self.tasks.pop() {
            if !self.take(task)? {
                return Ok(false);
            }
        }
        Ok(true)
    }

    /// Does one thing.
    fn take(&mut self, task: Task<'t>) -> Result<bool, AllocError>
        requires { Searches (fields_of self.old.table.now) (with_task (task_view task) (search_view self.old)) }
        ensures goes { IfOk result (λ b. Goes (fields_of self.old.table.now) (with_task (task_view task.entry) (search_view self.old)) b (search_view self.new)) }
        ensures table { self.new.table ≡ self.old.table }
    {
        match task {
            Task::Follow(shape) => self.follow(shape),
            Task::Leave(name) => {
                self.entered.remove(name);
                Ok(true)
            }
        }
    }

    /// Follows what this form leads to.
    fn follow(&mut self, shape: &'t Shape) -> Result<bool, AllocError>
        requires { Searches (fields_of self.old.table.now) (with_task (follow shape.now) (search_view self.old)) }
        ensures goes { IfOk result (λ b. Goes (fields_of self.old.table.now) (with_task (follow shape.now) (search_view self.old)) b (search_view self.new)) }
        ensures table { self.new.table ≡ self.old.table }
    {
        match find_lead(shape) {
            Lead::Nowhere => Ok(true),
            Lead::Name(name) => self.refer(name),
            Lead::Inner(inner) => {
                self.push(inner)?;
                Ok(true)
            }
            Lead::Both(readable, compact) => {
                self.push_both(readable, compact)?;
                Ok(true)
            }
        }
    }

    /// What this form leads to is to be followed next.
    fn push(&mut self, shape: &'t Shape) -> Result<(), AllocError>
        ensures pushed { OnOk result (search_view self.new ≡ with_task (follow shape.now) (search_view self.old)) }
        ensures table { self.new.table ≡ self.old.table }
    {
        self.tasks.push(Task::Follow(shape))?;
        Ok(())
    }

    /// What both of these lead to is to be followed next.
    fn push_both(&mut self, readable: &'t Shape, compact: &'t Shape) -> Result<(), AllocError>
        ensures pushed { OnOk result (search_view self.new ≡ with_task (follow readable.now) (with_task (follow compact.now) (search_view self.old))) }
        ensures table { self.new.table ≡ self.old.table }
    {
        self.push(compact)?;
        self.push(readable)?;
        Ok(())
    }

    /// Follows a reference to this name.
    fn refer(&mut self, name: &'t str) -> Result<bool, AllocError>
        requires { Searches (fields_of self.old.table.now) (with_task (follow (form.reference name.now)) (search_view self.old)) }
        ensures goes { IfOk result (λ b. Goes (fields_of self.old.table.now) (with_task (follow (form.reference name.now)) (search_view self.old)) b (search_view self.new)) }
        ensures table { self.new.table ≡ self.old.table }
    {
        match self.unseen.remove(name) {
            Some(shape) => {
                self.enter(name, shape)?;
                Ok(true)
            }
            None => Ok(!self.entered.contains(name)),
        }
    }
}

/// What this form leads to.
fn find_lead(shape: &Shape) -> Lead<'_>
    ensures { lead_view result ≡ lead_of shape.now }
{
    match shape.form() {
        Form::Reference(name) => Lead::Name(name),
        Form::Option(inner)
        | Form::Lossy(inner)
        | Form::Readable(inner)
        | Form::Newtype(_, inner) => Lead::Inner(inner),
        Form::Mode(readable, compact) => Lead::Both(readable, compact),
        Form::Leaf(_)
        | Form::Seq(_)
        | Form::Map(_, _)
        | Form::Tuple(_)
        | Form::TupleStruct(_, _)
        | Form::UnitStruct(_)
        | Form::Struct(_, _)
        | Form::ClosedStruct(_, _)
        | Form::Enum(_)
        | Form::Definitions(_, _) => Lead::Nowhere,
    }
}
