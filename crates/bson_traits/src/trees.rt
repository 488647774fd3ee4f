use crate::known_trees::{known_document, known_scoped, known_tree};
use crate::traits::{Deserialize, EqualByContents, NeverNull, RoundTrip, Serialize};
use bson_base::{Bson, Document, JavaScriptCodeWithScope};
use bson_datum::Datum;
use bson_shape::{Shape, ShapeError};
use bson_type_data::{document_datum, document_in, scoped_datum, scoped_in, tree_datum, tree_in};
use bson_values::{de, ser};
use std::alloc::Global;

impl Serialize for Bson {
    ghost use Rattle.std.specs.Prelude.{Ok};
    ghost use Rattle.bson_base.specs.BsonView.{tree_of};
    ghost use Rattle.bson_type_data.specs.Trees.{tree_datum};

    ghost written = { λ b. Ok (tree_datum (tree_of b)) };

    fn to_datum(&self, alloc: Global) -> ser::Result<Datum<'_>> {
        Ok(tree_datum(alloc, self)?)
    }
}

impl<'de> Deserialize<'de> for Bson {
    ghost use Rattle.bson_base.specs.BsonView.{tree_of};
    ghost use Rattle.bson_base.specs.Tree.{Tree};
    ghost use Rattle.bson_shape.specs.Form.{leaf};
    ghost use Rattle.bson_shape.specs.declared.leaf.Leaf.TheVariants as leaves;
    ghost use Rattle.bson_type_data.specs.Trees.{taken_tree};

    ghost form = { leaf leaves.Bson };

    ghost Contents = { Tree };

    ghost contents = { λ b. tree_of b };

    ghost taken = { taken_tree };

    fn shape(_alloc: Global) -> Result<Shape, ShapeError> {
        Ok(Shape::bson())
    }

    fn from_datum(alloc: Global, datum: Datum<'de>) -> de::Result<Bson> {
        let value = tree_in(alloc, &datum);
        drop(datum);
        value
    }
}

impl<'de> RoundTrip<'de> for Bson {
    ghost use Rattle.bson_base.specs.BsonView.{tree_of};
    ghost use Rattle.bson_traits.specs.Prover.TreesBack.{tree_returns};
    ghost use Rattle.bson_type_data.specs.Trees.{IsTree};

    ghost is_value = { λ b. IsTree (tree_of b) };

    fn known(&self) {
        known_tree(self);
    }

    ghost returns = { λ b. tree_returns (tree_of b) };
}

impl<'de> EqualByContents<'de> for Bson {
    ghost use Rattle.bson_base.specs.BsonView.{tree_of};
    ghost use Rattle.bson_traits.specs.Prover.Equal.{tree_equal};

    ghost equal = { λ x y e. tree_equal (tree_of x) (tree_of y) e };
}

impl Serialize for Document {
    ghost use Rattle.std.specs.Prelude.{Ok};
    ghost use Rattle.bson_base.specs.BsonView.{pairs_of};
    ghost use Rattle.bson_type_data.specs.Trees.{document_datum};

    ghost written = { λ d. Ok (document_datum (pairs_of d)) };

    fn to_datum(&self, alloc: Global) -> ser::Result<Datum<'_>> {
        Ok(document_datum(alloc, self)?)
    }
}

impl<'de> Deserialize<'de> for Document {
    ghost use Rattle.bson_base.specs.BsonView.{pairs_of};
    ghost use Rattle.bson_base.specs.Tree.{Pairs};
    ghost use Rattle.bson_shape.specs.Form.{leaf};
    ghost use Rattle.bson_shape.specs.declared.leaf.Leaf.TheVariants as leaves;
    ghost use Rattle.bson_type_data.specs.Trees.{taken_document};

    ghost form = { leaf leaves.Document };

    ghost Contents = { Pairs };

    ghost contents = { λ d. pairs_of d };

    ghost taken = { taken_document };

    fn shape(_alloc: Global) -> Result<Shape, ShapeError> {
        Ok(Shape::document())
    }

    fn from_datum(alloc: Global, datum: Datum<'de>) -> de::Result<Document> {
        let value = document_in(alloc, &datum);
        drop(datum);
        value
    }
}

impl<'de> RoundTrip<'de> for Document {
    ghost use Rattle.bson_base.specs.BsonView.{pairs_of};
    ghost use Rattle.bson_traits.specs.Prover.TreesBack.{document_returns};
    ghost use Rattle.bson_type_data.specs.Trees.{IsTreeDocument};

    ghost is_value = { λ d. IsTreeDocument (pairs_of d) };

    fn known(&self) {
        known_document(self);
    }

    ghost returns = { λ d. document_returns (pairs_of d) };
}

impl<'de> NeverNull<'de> for Document {
    ghost use Rattle.bson_base.specs.BsonView.{pairs_of};
    ghost use Rattle.bson_traits.specs.Prover.TreesBack.{document_not_null};

    ghost not_null = { λ d. document_not_null (pairs_of d) };
}

impl<'de> EqualByContents<'de> for Document {
    ghost use Rattle.bson_base.specs.BsonView.{pairs_of};
    ghost use Rattle.bson_traits.specs.Prover.Equal.{pairs_equal};

    ghost equal = { λ x y e. pairs_equal (pairs_of x) (pairs_of y) e };
}

impl Serialize for JavaScriptCodeWithScope {
    ghost use Rattle.std.specs.Prelude.{Ok};
    ghost use Rattle.bson_type_data.specs.Trees.{scoped_contents, scoped_datum};

    ghost written = { λ c. Ok (scoped_datum (scoped_contents c)) };

    fn to_datum(&self, alloc: Global) -> ser::Result<Datum<'_>> {
        Ok(scoped_datum(alloc, self)?)
    }
}

impl<'de> Deserialize<'de> for JavaScriptCodeWithScope {
    ghost use Rattle.bson_kinds.specs.Text.{Utf8};
    ghost use Rattle.bson_base.specs.Tree.{Pairs};
    ghost use Rattle.bson_shape.specs.Form.{leaf};
    ghost use Rattle.bson_shape.specs.declared.leaf.Leaf.TheVariants as leaves;
    ghost use Rattle.bson_type_data.specs.Trees.{scoped_contents, taken_scoped};

    ghost form = { leaf leaves.CodeWithScope };

    ghost Contents = { Utf8 × Pairs };

    ghost contents = { scoped_contents };

    ghost taken = { taken_scoped };

    fn shape(_alloc: Global) -> Result<Shape, ShapeError> {
        Ok(Shape::code_with_scope())
    }

    fn from_datum(alloc: Global, datum: Datum<'de>) -> de::Result<JavaScriptCodeWithScope> {
        let value = scoped_in(alloc, &datum);
        drop(datum);
        value
    }
}

impl<'de> RoundTrip<'de> for JavaScriptCodeWithScope {
    ghost use Rattle.bson_traits.specs.Prover.TreesBack.{scoped_returns};
    ghost use Rattle.bson_type_data.specs.Trees.{scoped_contents, IsTreeScoped};

    ghost is_value = { λ c. IsTreeScoped (scoped_contents c) };

    fn known(&self) {
        known_scoped(self);
    }

    ghost returns = { λ c. scoped_returns (scoped_contents c) };
}

impl<'de> NeverNull<'de> for JavaScriptCodeWithScope {
    ghost use Rattle.bson_traits.specs.Prover.TreesBack.{scoped_not_null};
    ghost use Rattle.bson_type_data.specs.Trees.{scoped_contents};

    ghost not_null = { λ c. scoped_not_null (scoped_contents c) };
}

impl<'de> EqualByContents<'de> for JavaScriptCodeWithScope {
    ghost use Rattle.std.specs.Prelude.{string_bytes};
    ghost use Rattle.bson_base.specs.BsonView.{pairs_of};
    ghost use Rattle.bson_traits.specs.Prover.Equal.{scoped_equal};

    ghost equal = { λ x y e. scoped_equal (string_bytes x.code) (pairs_of x.scope) (string_bytes y.code) (pairs_of y.scope) e };
}
