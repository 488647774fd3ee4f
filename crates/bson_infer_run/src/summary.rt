ghost use Rattle.std.specs.Prelude.{◌≡◌, false, IfOk};
ghost use Rattle.bson_shape.specs.Form as form;
ghost use Rattle.bson_infer_laws.specs.Above.{IsJoined};
ghost use Rattle.bson_infer_laws.specs.Join.{is_nothing, nothing, opt};
ghost use Rattle.bson_infer_run.specs.SummaryView.{is_option, kind_form, IsSummary};

use crate::names::Names;
use bson_shape::Leaf;
use std::alloc::{AllocError, Global};
use std::marker::Model;

/// What the values that were joined have in common. Contracts see the form that they are joined to.
#[cycle(summary)]
#[derive(Drop)]
pub(crate) struct Summary {
    // Null was among them, beside others.
    pub(crate) or_null: bool,
    pub(crate) kind: Kind,
}

/// What the values other than null have in common.
#[cycle(summary)]
#[derive(Drop)]
pub(crate) enum Kind {
    /// There was no value.
    Nothing,
    /// A form without inner forms.
    Leaf(Leaf),
    /// An array, and what all items have in common.
    Sequence(Box<Summary>),
    /// A document.
    Structure(Box<StructSummary>),
}

/// What documents have in common: each key, in the order in which they came.
#[cycle(summary)]
#[derive(Drop)]
pub(crate) struct StructSummary {
    /// How many documents were joined. One that adds nothing need not be counted.
    pub(crate) count: u64,
    /// The keys. Each field is at the index of its key.
    pub(crate) names: Names,
    pub(crate) fields: Vec<FieldSummary>,
}

/// What the values at a key have in common.
#[cycle(summary)]
#[derive(Drop)]
pub(crate) struct FieldSummary {
    /// How many of these documents had the key.
    pub(crate) count: u64,
    pub(crate) summary: Summary,
}

impl Model for Summary {
    ghost use Rattle.std.specs.Prelude.{◌≡◌};
    ghost use Rattle.bson_shape.specs.Form.{Form};
    ghost use Rattle.bson_shape.specs.Prover.StoredForm.{coded_form};

    ghost Value = { Form };

    ghost coded = { coded_form };

    ghost use Rattle.bson_shape.specs.ShapeView.{nodes};
    ghost use Rattle.bson_infer_run.specs.SummaryView.{summary_form, IsSummary};

    ghost view = { λ s. summary_form s.or_null s.kind };

    ghost invariant = { λ s. IsSummary s.or_null s.kind };

    ghost size = { nodes };

    ghost use Rattle.bson_infer_run.specs.Prover.SummaryFalls.{falls};

    ghost size_decreases = { λ a h. falls a.or_null a.kind h };
}

impl Summary {
    /// That of no values.
    pub(crate) fn nothing() -> Summary
        ensures { result ≡ nothing }
    {
        Summary::of(Kind::Nothing)
    }

    /// That of values of a leaf.
    pub(crate) fn leaf(leaf: Leaf) -> Summary
        ensures { result ≡ form.leaf leaf }
    {
        Summary::of(Kind::Leaf(leaf))
    }

    /// That of values of this kind.
    pub(crate) fn of(kind: Kind) -> Summary
        requires { IsSummary false kind }
        ensures { result ≡ kind_form kind }
    {
        Summary {
            or_null: false,
            kind,
        }
    }

    /// The same, with null among the values.
    pub(crate) fn or_null(self) -> Summary
        requires { is_nothing self ≡ false }
        ensures { result ≡ opt self }
    {
        let Summary { kind, .. } = self;
        Summary {
            or_null: true,
            kind,
        }
    }

    /// That of arrays whose items have this in common.
    pub(crate) fn sequence(alloc: Global, item: Summary) -> Result<Summary, AllocError>
        ensures { IfOk result (λ s. s ≡ form.sequence item) }
    {
        item.known();
        Ok(Summary::of(Kind::Sequence(Box::new(alloc, item)?)))
    }

    /// Whether it is an option.
    pub(crate) fn is_option(&self) -> bool
        ensures { result ≡ is_option self.now }
    {
        self.or_null
    }

    /// Tells a contract what is true of each summary. It does nothing.
    pub(crate) fn known(&self)
        ensures { IsJoined self.now }
    {
        let _or_null = self.or_null;
    }
}
