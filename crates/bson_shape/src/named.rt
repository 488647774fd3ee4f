ghost use Rattle.std.specs.Prelude.{◌≡◌, ℕ, List, string_bytes};

use crate::{FieldShape, VariantShape};

/// What has a name: a field or a variant.
pub trait Named {
    ghost named: { Self → List ℕ };

    /// The name.
    fn name(&self) -> &str
        ensures { result.now ≡ named self.now };
}

impl Named for FieldShape {
    ghost named = { λ f. string_bytes f.name };

    fn name(&self) -> &str {
        self.name.as_str()
    }
}

impl Named for VariantShape {
    ghost named = { λ v. string_bytes v.name };

    fn name(&self) -> &str {
        self.name.as_str()
    }
}
