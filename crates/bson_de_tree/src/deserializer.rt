ghost use Rattle.std.specs.Prelude.{◌≡◌, None, IfOk};
ghost use Rattle.bson_base.specs.BsonView.{tree_of};
ghost use Rattle.bson_values.specs.Returned.{Reads};
ghost use Rattle.bson_datum.specs.Borrowed.{IsOwned};
ghost use Rattle.bson_datum.specs.View.{view};
ghost use Rattle.bson_laws.specs.ReadsFrom.{answered_bare, reads_tree_value};
ghost use Rattle.bson_de_tree.specs.Options.{is_readable};

use crate::options::DeserializerOptions;
use crate::reading::from_bson_with_options_at;
use bson_base::Bson;
use bson_datum::Datum;
use bson_shape::Shape;
use bson_values::de;
use std::alloc::Global;

/// A reader of one value in memory.
#[derive(Debug, Drop)]
pub struct Deserializer {
    value: Bson,
    options: DeserializerOptions,
}

impl Deserializer {
    /// A reader of a value, who is human.
    pub fn new(value: Bson) -> Deserializer
        ensures value { result.value ≡ value }
        ensures options { result.options.human_readable ≡ None }
    {
        Deserializer::new_with_options(
            value,
            DeserializerOptions {
                human_readable: None,
            },
        )
    }

    /// A reader of a value, by the options.
    pub fn new_with_options(value: Bson, options: DeserializerOptions) -> Deserializer
        ensures value { result.value ≡ value }
        ensures options { result.options ≡ options }
    {
        Deserializer { value, options }
    }

    /// The value at a shape. All of it is owned.
    ///
    /// # Errors
    ///
    /// Those of [`from_bson_with_options_at`](crate::from_bson_with_options_at).
    pub fn deserialize<'x>(self, alloc: Global, shape: &Shape) -> de::Result<Datum<'x>>
        ensures exact { Reads view result
            (answered_bare (reads_tree_value (is_readable self.options.human_readable) shape.now (tree_of self.value))) }
        ensures owned { IfOk result IsOwned }
    {
        let Deserializer { value, options } = self;
        from_bson_with_options_at(alloc, shape, value, options)
    }
}
