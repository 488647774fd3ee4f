ghost use Rattle.std.specs.Prelude.{◌≡◌, IfOk};
ghost use Rattle.bson.specs.Returned.{Reads};
ghost use Rattle.bson.specs.ShapeOf.{IsShapeOf};
ghost use Rattle.bson.specs.Value.{tuple, item, no_items};
ghost use Rattle.bson.specs.View.{view, items_view};
ghost use Rattle.bson_example_types.specs.Pedigree.{bred, parents_form, variants_form, pedigree_contents, taken_founder, taken_inside, taken_parents, taken_pedigree};

use bson::{
    Datum, Deserialize, FieldShape, NeverNull, RoundTrip, Serialize, Shape, ShapeError,
    VariantShapes, de, newtype_variant, not_fitting, ser,
};
use std::alloc::{AllocError, Global};

/// Where a cat comes from. The type holds itself, so its shape is a definition that refers to itself.
#[derive(Debug, Drop)]
pub enum Pedigree {
    /// A cat of the first generation, by its number.
    Founder(i32),
    /// A cat of these parents.
    Bred(Box<Pedigree>, Box<Pedigree>),
}

impl Pedigree {
    /// A cat of these parents.
    ///
    /// # Errors
    ///
    /// Memory ran out.
    pub fn of(alloc: Global, sire: Pedigree, dam: Pedigree) -> Result<Pedigree, AllocError>
        ensures { IfOk result (λ cat. pedigree_contents cat ≡ bred (pedigree_contents sire) (pedigree_contents dam)) }
    {
        let (sire, dam) = (Box::new(alloc, sire)?, Box::new(alloc, dam)?);
        Ok(Pedigree::Bred(sire, dam))
    }
}

impl Serialize for Pedigree {
    ghost use Rattle.bson_example_types.specs.Pedigree.{written_pedigree};

    ghost written = { written_pedigree };

    fn to_datum(&self, alloc: Global) -> ser::Result<Datum<'_>> {
        match self {
            Pedigree::Founder(number) => {
                let value = Datum::I32(*number);
                Ok(newtype_variant(alloc, "Founder", value)?)
            }
            Pedigree::Bred(sire, dam) => {
                let sire = sire.to_datum(alloc)?;
                let dam = dam.to_datum(alloc)?;
                Ok(newtype_variant(alloc, "Bred", pair(alloc, sire, dam)?)?)
            }
        }
    }
}

impl<'de> Deserialize<'de> for Pedigree {
    ghost use Rattle.bson_example_types.specs.Pedigree.{pedigree_form, PedigreeContents, pedigree_contents, taken_pedigree};

    ghost form = { pedigree_form };

    ghost Contents = { PedigreeContents };

    ghost contents = { pedigree_contents };

    ghost taken = { taken_pedigree };

    fn shape(alloc: Global) -> Result<Shape, ShapeError> {
        let name = String::from_str(alloc, "Pedigree")?;
        let shape = variants_shape(alloc)?;
        let table = vec![in alloc; FieldShape { name, shape }]?;
        let body = Shape::reference(String::from_str(alloc, "Pedigree")?);
        Shape::definitions(alloc, table, body)
    }

    fn from_datum(alloc: Global, datum: Datum<'de>) -> de::Result<Pedigree> {
        let value = pedigree_in(alloc, &datum);
        drop(datum);
        value
    }
}

impl<'de> RoundTrip<'de> for Pedigree {
    ghost use Rattle.bson_example_types.specs.Pedigree.{IsPedigree, pedigree_returns};

    ghost is_value = { IsPedigree };

    fn known(&self) {
        match self {
            Pedigree::Founder(number) => number.known(),
            Pedigree::Bred(sire, dam) => {
                sire.known();
                dam.known();
            }
        }
    }

    ghost returns = { pedigree_returns };
}

impl<'de> NeverNull<'de> for Pedigree {
    ghost use Rattle.bson_example_types.specs.Pedigree.{pedigree_not_null};

    ghost not_null = { λ pedigree _. pedigree_not_null pedigree };
}

// The datum of two values.
#[tactic(auto, using(bson_datum::proofs::Views::item_rows_items))]
fn pair<'a>(alloc: Global, first: Datum<'a>, second: Datum<'a>) -> Result<Datum<'a>, AllocError>
    ensures { IfOk result (λ d. view d ≡ tuple (item (view first.entry) (item (view second.entry) no_items))) }
{
    Ok(Datum::Tuple(vec![in alloc; first, second]?))
}

// The shape of two parents, each a reference to the definition.
fn parents_shape(alloc: Global) -> Result<Shape, ShapeError>
    ensures { IsShapeOf parents_form result }
{
    let sire = Shape::reference(String::from_str(alloc, "Pedigree")?);
    let dam = Shape::reference(String::from_str(alloc, "Pedigree")?);
    Shape::tuple(vec![in alloc; sire, dam]?)
}

// The shape that the definition is of.
fn variants_shape(alloc: Global) -> Result<Shape, ShapeError>
    ensures { IsShapeOf variants_form result }
{
    let mut variants = VariantShapes::new(alloc);
    variants.add_newtype(alloc, "Founder", Shape::i32())?;
    variants.add_newtype(alloc, "Bred", parents_shape(alloc)?)?;
    variants.into_enum()
}

// The pedigree that a datum gives.
#[cycle(pedigree)]
fn pedigree_in(alloc: Global, datum: &Datum<'_>) -> de::Result<Pedigree>
    ensures { Reads pedigree_contents result (taken_pedigree (view datum.now)) }
{
    match datum {
        Datum::NewtypeVariant { variant, value } => match variant.as_str() {
            "Founder" => founder_in(value),
            "Bred" => bred_in(alloc, value),
            _ => Err(not_fitting()),
        },
        _ => Err(not_fitting()),
    }
}

// The cat of the first generation that a datum gives.
fn founder_in(datum: &Datum<'_>) -> de::Result<Pedigree>
    ensures { Reads pedigree_contents result (taken_founder (view datum.now)) }
{
    match datum {
        Datum::I32(number) => Ok(Pedigree::Founder(*number)),
        _ => Err(not_fitting()),
    }
}

// The cat of two parents that a datum gives.
#[cycle(pedigree)]
#[tactic(auto, using(bson_datum::proofs::Views::item_rows_items))]
fn bred_in(alloc: Global, datum: &Datum<'_>) -> de::Result<Pedigree>
    ensures { Reads pedigree_contents result (taken_inside (view datum.now)) }
{
    match datum {
        Datum::Tuple(parents) => parents_in(alloc, parents),
        _ => Err(not_fitting()),
    }
}

// The same of the data of the two.
#[cycle(pedigree)]
#[tactic(auto, using(crate::specs::Pedigree::sire_fails, crate::specs::Pedigree::dam_fails, crate::specs::Pedigree::both_read, crate::specs::Pedigree::too_few, crate::specs::Pedigree::too_many))]
fn parents_in(alloc: Global, parents: &[Datum<'_>]) -> de::Result<Pedigree>
    ensures { Reads pedigree_contents result (taken_parents (items_view parents.now)) }
{
    let [sire, dam] = parents else {
        return Err(not_fitting());
    };
    let sire = pedigree_in(alloc, sire)?;
    let dam = pedigree_in(alloc, dam)?;
    Ok(Pedigree::of(alloc, sire, dam)?)
}
