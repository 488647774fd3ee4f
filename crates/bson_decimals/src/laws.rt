// What holds of all numbers.
ghost use Rattle.bson_kinds.specs.Text.{Bytes};
ghost use Rattle.bson_decimals.specs.Law.{IsCanonical, ReadsBack};

/// The text of a canonical number is read back as the same sixteen bytes. The call does nothing.
#[tactic(auto, using(crate::proofs::ReadBack::reads_back))]
pub fn law_decimal_back()
    ensures { (bytes : Bytes) → IsCanonical bytes → ReadsBack bytes }
{}
