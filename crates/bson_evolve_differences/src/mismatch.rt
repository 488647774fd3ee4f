// Why a pair of parts passes no row, and what both have in common.
ghost use Rattle.std.specs.Prelude.{◌≡◌, ◌∷◌, ◌++◌, [], false, string_bytes, IfOk, OnOk, Some};
ghost use Rattle.bson_shape.specs.Makers.{has_repeat, variant_names, AreDistinct, AreVariants, IsContent};
ghost use Rattle.bson_shape.specs.ShapeView as view;
ghost use Rattle.bson_shape.specs.ShapeView.{fields_of, variants_of};
ghost use Rattle.bson_laws.specs.Named.{form_of, has};
ghost use Rattle.bson_laws.specs.Variants.{content_of};
ghost use Rattle.bson_evolve_laws.specs.Rows.{content_row};
ghost use Rattle.bson_evolve_check.specs.Steps as steps;
ghost use Rattle.bson_evolve_check.specs.Steps.{steps_view, variant_path};
ghost use Rattle.bson_evolve_differences.specs.Mismatch as mismatch;
ghost use Rattle.bson_evolve_differences.specs.Mismatch.{common_field, common_fields, content_reasons, content_steps, is_given, missing, passes, steps_of, unknown, unless, variant_reasons, variant_steps};
ghost use Rattle.bson_evolve_differences.specs.Reasons.{missing_field, other_content, unknown_field};
ghost use Rattle.bson_evolve_differences.specs.Views.{missing_in, reason_view, reasons_view, Adds};

use crate::difference::Reason;
use crate::reason::reason_of;
use bson_evolve_check::{Step, content_of, is_field, is_option, push_content, shape_of};
use bson_shape::{FieldShape, Form, Shape, VariantContent, VariantShape};
use bson_slots::NameIndex;
use std::alloc::{AllocError, Global};

/// Why a pair of parts passes no row, and the pairs of parts that both have.
#[derive(Drop)]
pub(crate) struct Mismatch<'s> {
    pub(crate) reasons: Vec<Reason>,
    pub(crate) common: Vec<Step<'s>>,
}

/// Why two parts pass no row, and what they have in common.
///
/// # Errors
///
/// Memory ran out.
pub(crate) fn mismatch_of<'s>(
    alloc: Global,
    old: &'s Shape,
    new: &'s Shape,
) -> Result<Mismatch<'s>, AllocError>
    ensures reasons { IfOk result (λ m. reasons_view m.reasons.items ≡ mismatch.mismatch old.now new.now) }
    ensures common { IfOk result (λ m. steps_view m.common.items ≡ mismatch.common old.now new.now) }
{
    let mut mismatch = Mismatch::new(alloc);
    mismatch.add(alloc, old, new)?;
    Ok(mismatch)
}

impl<'s> Mismatch<'s> {
    fn new(alloc: Global) -> Mismatch<'s>
        ensures reasons { result.reasons.items ≡ [] }
        ensures common { result.common.items ≡ [] }
    {
        Mismatch {
            reasons: Vec::new(alloc),
            common: Vec::new(alloc),
        }
    }

    fn add(&mut self, alloc: Global, old: &'s Shape, new: &'s Shape) -> Result<(), AllocError>
        ensures { OnOk result (Adds self.old self.new (mismatch.mismatch old.now new.now) (mismatch.common old.now new.now)) }
    {
        old.known();
        new.known();
        match old.form() {
            Form::Struct(_, olds) | Form::ClosedStruct(_, olds) => match new.form() {
                Form::Struct(_, news) => self.add_fields(alloc, None, olds, news),
                Form::ClosedStruct(_, news) => self.add_closed(alloc, olds, news),
                _ => self.add_reason(old, new),
            },
            Form::Enum(olds) => match new.form() {
                Form::Enum(news) => self.add_variants(alloc, olds, news),
                _ => self.add_reason(old, new),
            },
            _ => self.add_reason(old, new),
        }
    }

    // The reason of parts that are neither two structs nor two enums.
    fn add_reason(&mut self, old: &Shape, new: &Shape) -> Result<(), AllocError>
        ensures { OnOk result (Adds self.old self.new (mismatch.reason old.now new.now ∷ []) []) }
    {
        self.reasons.push(reason_of(old, new))?;
        Ok(())
    }

    // The fields of two structs, or of the structs in two variants of a name.
    fn add_fields(
        &mut self,
        alloc: Global,
        variant: Option<&'s str>,
        old: &'s [FieldShape],
        new: &'s [FieldShape],
    ) -> Result<(), AllocError>
        requires { AreDistinct (fields_of old.now) }
        ensures { OnOk result (Adds self.old self.new (missing (missing_in variant.entry) (fields_of old.now) (fields_of new.now))
            (common_fields (variant_path variant.entry) (fields_of old.now) (fields_of new.now))) }
    {
        let mut index = NameIndex::new(old);
        for field in new {
            self.add_field(alloc, variant, &mut index, field)?;
        }
        Ok(())
    }

    // A field of the new struct, with that of its name in the old one.
    fn add_field(
        &mut self,
        alloc: Global,
        variant: Option<&'s str>,
        index: &mut NameIndex<'s, FieldShape>,
        field: &'s FieldShape,
    ) -> Result<(), AllocError>
        ensures adds { let name = string_bytes field.now.name in let found = form_of (fields_of index.old.items.now) name in
            OnOk result (Adds self.old self.new (unless (is_given found field.now.shape) (missing_in variant.entry name)) (common_field (variant_path variant.entry) name found field.now.shape)) }
        ensures items { index.new.items ≡ index.old.items }
    {
        let name = field.name.as_str();
        match shape_of(alloc, index, name) {
            Some(shape) => {
                self.common
                    .push(Step::at_key(variant, name, shape, &field.shape))?;
                Ok(())
            }
            None => self.add_missing(alloc, variant, field),
        }
    }

    // A field that the old struct lacks.
    fn add_missing(
        &mut self,
        alloc: Global,
        variant: Option<&str>,
        field: &FieldShape,
    ) -> Result<(), AllocError>
        ensures { OnOk result (Adds self.old self.new (unless (steps.is_option field.now.shape) (missing_in variant.entry (string_bytes field.now.name))) []) }
    {
        if is_option(&field.shape) {
            return Ok(());
        }
        self.reasons
            .push(missing_field(alloc, variant, field.name.as_str())?)?;
        Ok(())
    }

    // The fields of a struct and of a closed one.
    fn add_closed(
        &mut self,
        alloc: Global,
        old: &'s [FieldShape],
        new: &'s [FieldShape],
    ) -> Result<(), AllocError>
        requires old { AreDistinct (fields_of old.now) }
        requires new { AreDistinct (fields_of new.now) }
        ensures { OnOk result (Adds self.old self.new (missing missing_field (fields_of old.now) (fields_of new.now) ++ unknown (fields_of old.now) (fields_of new.now))
            (common_fields [] (fields_of old.now) (fields_of new.now))) }
    {
        self.add_fields(alloc, None, old, new)?;
        self.add_unknown(alloc, old, new)?;
        Ok(())
    }

    // Each field of the old struct that the new one does not name.
    fn add_unknown(
        &mut self,
        alloc: Global,
        old: &[FieldShape],
        new: &[FieldShape],
    ) -> Result<(), AllocError>
        requires { AreDistinct (fields_of new.now) }
        ensures { OnOk result (Adds self.old self.new (unknown (fields_of old.now) (fields_of new.now)) []) }
    {
        let mut index = NameIndex::new(new);
        for field in old {
            self.add_unknown_field(alloc, &mut index, field.name.as_str())?;
        }
        Ok(())
    }

    // The field of a name, where the new struct does not name it.
    fn add_unknown_field(
        &mut self,
        alloc: Global,
        index: &mut NameIndex<'_, FieldShape>,
        name: &str,
    ) -> Result<(), AllocError>
        ensures adds { OnOk result (Adds self.old self.new (unless (has (fields_of index.old.items.now) name.now) (unknown_field name.now)) []) }
        ensures items { index.new.items ≡ index.old.items }
    {
        if is_field(alloc, index, name) {
            return Ok(());
        }
        self.reasons
            .push(Reason::UnknownField(String::from_str(alloc, name)?))?;
        Ok(())
    }

    // The variants of two enums.
    fn add_variants(
        &mut self,
        alloc: Global,
        old: &'s [VariantShape],
        new: &'s [VariantShape],
    ) -> Result<(), AllocError>
        requires old { AreVariants (variants_of old.now) }
        requires new { has_repeat (variant_names (variants_of new.now)) ≡ false }
        ensures { OnOk result (Adds self.old self.new (variant_reasons (variants_of old.now) (variants_of new.now)) (variant_steps (variants_of old.now) (variants_of new.now))) }
    {
        let mut index = NameIndex::new(new);
        for variant in old {
            self.add_variant(alloc, &mut index, variant)?;
        }
        Ok(())
    }

    // An old variant, with the new one of its name.
    fn add_variant(
        &mut self,
        alloc: Global,
        index: &mut NameIndex<'s, VariantShape>,
        variant: &'s VariantShape,
    ) -> Result<(), AllocError>
        requires { IsContent (view.content_of variant.now.content) }
        ensures adds { let name = string_bytes variant.now.name in let old = view.content_of variant.now.content in let found = content_of (variants_of index.old.items.now) name in
            OnOk result (Adds self.old self.new (content_reasons name old found) (content_steps name old found)) }
        ensures items { index.new.items ≡ index.old.items }
    {
        let name = variant.name.as_str();
        match content_of(alloc, index, name) {
            Some(content) => self.add_content(alloc, name, &variant.content, content),
            None => {
                let name = String::from_str(alloc, name)?;
                self.reasons.push(Reason::MissingVariant(name))?;
                Ok(())
            }
        }
    }

    // The contents of two variants of this name.
    fn add_content(
        &mut self,
        alloc: Global,
        name: &'s str,
        old: &'s VariantContent,
        new: &'s VariantContent,
    ) -> Result<(), AllocError>
        requires { IsContent (view.content_of old.now) }
        ensures { let found = Some (view.content_of new.now) in
            OnOk result (Adds self.old self.new (content_reasons name.now (view.content_of old.now) found) (content_steps name.now (view.content_of old.now) found)) }
    {
        match old {
            VariantContent::Struct(olds) => match new {
                VariantContent::Struct(news) => self.add_fields(alloc, Some(name), olds, news),
                _ => self.add_other(alloc, name, old, new),
            },
            _ => self.add_other(alloc, name, old, new),
        }
    }

    // Contents that are not both structs: their parts, or that they differ.
    fn add_other(
        &mut self,
        alloc: Global,
        name: &'s str,
        old: &'s VariantContent,
        new: &'s VariantContent,
    ) -> Result<(), AllocError>
        requires { IsContent (view.content_of old.now) }
        ensures { let row = content_row name.now (view.content_of old.now) (Some (view.content_of new.now)) in
            OnOk result (Adds self.old self.new (unless (passes row) (other_content name.now)) (steps_of row)) }
    {
        let mut parts = Vec::new(alloc);
        if push_content(alloc, name, old, new, &mut parts)? {
            self.common.extend_from_slice(&parts)?;
            return Ok(());
        }
        self.reasons
            .push(Reason::OtherContent(String::from_str(alloc, name)?))?;
        Ok(())
    }
}

// That the old struct lacks a field, in a struct or in a variant.
fn missing_field(alloc: Global, variant: Option<&str>, name: &str) -> Result<Reason, AllocError>
    ensures { IfOk result (λ r. reason_view r ≡ missing_in variant.entry name.now) }
{
    let field = String::from_str(alloc, name)?;
    match variant {
        None => Ok(Reason::MissingField(field)),
        Some(variant) => Ok(Reason::MissingInVariant(String::from_str(alloc, variant)?, field)),
    }
}
