ghost use Rattle.std.specs.Prelude.{◌≡◌, false, None, OnOk};
ghost use Rattle.bson_kinds.specs.Reserved.{reserved_kind};
ghost use Rattle.bson_shape.specs.Form as forms;
ghost use Rattle.bson_shape.specs.Makers.{repeats, variants_repeat};
ghost use Rattle.bson_shape.specs.ShapeView.{fields_of, variants_of};
ghost use Rattle.bson_traits.specs.ShapeOf.{IsShapeOf};

use bson_growing::push;
use bson_shape::{FieldShape, Shape, ShapeError, VariantContent, VariantShape};
use std::alloc::{AllocError, Global};
use std::marker::Model;

/// The fields of the shape of a struct, added one after another. Contracts see it as these fields.
#[derive(Debug, Drop)]
pub struct FieldShapes {
    fields: Vec<FieldShape>,
}

impl Model for FieldShapes {
    ghost use Rattle.bson_shape.specs.Form.{Fields};
    ghost use Rattle.bson_shape.specs.ShapeView.{fields_of};
    ghost use Rattle.bson_structs.specs.Prover.Stored.{coded_fields};

    ghost Value = { Fields };

    ghost coded = { coded_fields };

    ghost view = { λ s. fields_of s.fields.items };
}

impl FieldShapes {
    /// No field yet. It takes no memory.
    pub fn new(alloc: Global) -> FieldShapes
        ensures fields { result ≡ forms.no_fields }
    {
        FieldShapes {
            fields: Vec::new(alloc),
        }
    }

    /// Adds a field behind the others.
    ///
    /// # Errors
    ///
    /// Memory ran out.
    #[tactic(auto, using(crate::proofs::Added::fields_added))]
    pub fn add(&mut self, alloc: Global, name: &str, shape: Shape) -> Result<(), AllocError>
        ensures fields { OnOk result (self.new ≡ forms.push_field self.old name.now shape) }
    {
        let name = String::from_str(alloc, name)?;
        push(&mut self.fields, FieldShape { name, shape })?;
        Ok(())
    }

    /// The shape of a struct of this name with these fields. The name is none of the reserved ones, and no two fields have one name.
    ///
    /// # Errors
    ///
    /// `TooDeep` exactly where it would have more than 512 levels, or `NoMemory`.
    pub fn into_struct(self, alloc: Global, name: &str) -> Result<Shape, ShapeError>
        requires free { reserved_kind name.now ≡ None }
        requires distinct { repeats self ≡ false }
        ensures shape { IsShapeOf (forms.structure forms.dropped name.now self) result }
    {
        struct_shape(alloc, name, self.fields)
    }
}

/// The variants of the shape of an enum, added one after another. Contracts see it as these variants.
#[derive(Debug, Drop)]
pub struct VariantShapes {
    variants: Vec<VariantShape>,
}

impl Model for VariantShapes {
    ghost use Rattle.bson_shape.specs.Form.{Variants};
    ghost use Rattle.bson_shape.specs.ShapeView.{variants_of};
    ghost use Rattle.bson_structs.specs.Prover.Stored.{coded_variants};

    ghost Value = { Variants };

    ghost coded = { coded_variants };

    ghost view = { λ s. variants_of s.variants.items };
}

impl VariantShapes {
    /// No variant yet. It takes no memory.
    pub fn new(alloc: Global) -> VariantShapes
        ensures variants { result ≡ forms.no_variants }
    {
        VariantShapes {
            variants: Vec::new(alloc),
        }
    }

    /// Adds a variant without contents behind the others.
    ///
    /// # Errors
    ///
    /// Memory ran out.
    #[tactic(auto, using(crate::proofs::Added::variants_added))]
    pub fn add_unit(&mut self, alloc: Global, name: &str) -> Result<(), AllocError>
        ensures variants { OnOk result (self.new ≡ forms.push_variant self.old name.now forms.unit_content) }
    {
        let name = String::from_str(alloc, name)?;
        let content = VariantContent::Unit;
        push(&mut self.variants, VariantShape { name, content })?;
        Ok(())
    }

    /// Adds a variant around a value of this shape behind the others.
    ///
    /// # Errors
    ///
    /// Memory ran out.
    #[tactic(auto, using(crate::proofs::Added::variants_added))]
    pub fn add_newtype(&mut self, alloc: Global, name: &str, shape: Shape) -> Result<(), AllocError>
        ensures variants { OnOk result (self.new ≡ forms.push_variant self.old name.now (forms.newtype_content shape)) }
    {
        let name = String::from_str(alloc, name)?;
        let content = VariantContent::Newtype(shape);
        push(&mut self.variants, VariantShape { name, content })?;
        Ok(())
    }

    /// The shape of an enum with these variants. No two of them have one name.
    ///
    /// # Errors
    ///
    /// `TooDeep` exactly where it would have more than 512 levels, or `NoMemory`.
    pub fn into_enum(self) -> Result<Shape, ShapeError>
        requires distinct { variants_repeat self ≡ false }
        ensures shape { IsShapeOf (forms.enumeration self) result }
    {
        enum_shape(self.variants)
    }
}

// The shape of a struct of this name with these fields.
#[tactic(auto, using(crate::proofs::Added::struct_made))]
fn struct_shape(alloc: Global, name: &str, fields: Vec<FieldShape>) -> Result<Shape, ShapeError>
    requires free { reserved_kind name.now ≡ None }
    requires distinct { repeats (fields_of fields.items) ≡ false }
    ensures shape { IsShapeOf (forms.structure forms.dropped name.now (fields_of fields.items)) result }
{
    let name = String::from_str(alloc, name)?;
    Shape::structure(name, fields)
}

// The shape of an enum with these variants.
#[tactic(auto, using(crate::proofs::Added::enum_made))]
fn enum_shape(variants: Vec<VariantShape>) -> Result<Shape, ShapeError>
    requires distinct { variants_repeat (variants_of variants.items) ≡ false }
    ensures shape { IsShapeOf (forms.enumeration (variants_of variants.items)) result }
{
    Shape::enumeration(variants)
}
