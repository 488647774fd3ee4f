ghost use Rattle.std.specs.Prelude.{◌≡◌, ◌<◌, [], IfOk, OnOk, IsTrue, vec_len};
ghost use Rattle.bson_infer_laws.specs.Join.{nothing};
ghost use Rattle.bson_infer_run.specs.Counted.{Counted, put};
ghost use Rattle.bson_infer_run.specs.SummaryView.{counted_of, IsEven, IsAt};

use crate::names::Names;
use crate::summary::{FieldSummary, StructSummary, Summary};
use std::alloc::{AllocError, Global};
use std::mem;

impl FieldSummary {
    /// A field that no document had.
    pub(crate) fn new() -> FieldSummary
        ensures count { result.count ≡ 0 }
        ensures summary { result.summary ≡ nothing }
    {
        FieldSummary {
            count: 0,
            summary: Summary::nothing(),
        }
    }
}

impl StructSummary {
    /// No documents.
    pub(crate) fn new(alloc: Global) -> StructSummary
        ensures count { result.count ≡ 0 }
        ensures even { IsEven result }
        ensures none { counted_of result ≡ [] }
    {
        StructSummary {
            count: 0,
            names: Names::new(alloc),
            fields: Vec::new(alloc),
        }
    }

    /// The index of the field of a name, which is looked for at the expected index first. One that is new goes last, as a field that no document had.
    pub(crate) fn place_of(
        &mut self,
        alloc: Global,
        name: &str,
        expected: usize,
    ) -> Result<usize, AllocError>
        requires { IsEven self.old }
        ensures even { OnOk result (IsEven self.new) }
        ensures count { OnOk result (self.new.count ≡ self.old.count) }
        ensures within { IfOk result (λ place. place < vec_len self.new.fields) }
        ensures place { IfOk result (λ place. IsAt self.new.names name.now place) }
        ensures puts { OnOk result ((g : Counted) → g.name ≡ name.now → put g (counted_of self.new) ≡ put g (counted_of self.old)) }
    {
        if self.is_at(name, expected) {
            return Ok(expected);
        }
        self.place_in_index(alloc, name)
    }

    // Whether a name is at an index.
    pub(crate) fn is_at(&self, name: &str, place: usize) -> bool
        ensures { IsTrue result → IsAt self.now.names name.now place }
    {
        self.names.is_at(name, place)
    }

    // The index of the field of a name. One that is new goes last, as a field that no document had.
    fn place_in_index(&mut self, alloc: Global, name: &str) -> Result<usize, AllocError>
        requires { IsEven self.old }
        ensures even { OnOk result (IsEven self.new) }
        ensures count { OnOk result (self.new.count ≡ self.old.count) }
        ensures within { IfOk result (λ place. place < vec_len self.new.fields) }
        ensures place { IfOk result (λ place. IsAt self.new.names name.now place) }
        ensures puts { OnOk result ((g : Counted) → g.name ≡ name.now → put g (counted_of self.new) ≡ put g (counted_of self.old)) }
    {
        if let Some(place) = self.names.place_of(name) {
            return Ok(place);
        }
        let place = self.fields.len();
        self.fields.push(FieldSummary::new())?;
        let names = mem::replace(&mut self.names, Names::new(alloc));
        self.names = names.with(alloc, name)?;
        Ok(place)
    }
}
