// Which bytes are read back from their text.
ghost use Rattle.std.specs.Prelude.{◌≡◌, ◌↔◌, IsTrue};
ghost use Rattle.std.specs.Int.{w128, from_le_bytes};
ghost use Rattle.bson_decimals.specs.Law as law;

const COEFFICIENTS: u128 = 10_000_000_000_000_000_000_000_000_000_000_000;

// Whether a number's bytes are a coefficient and an exponent in their ranges.
fn is_finite(number: u128) -> bool
    ensures { result ≡ law.is_finite number }
{
    (number >> 122) % 32 < 24 && number % (1 << 113) < COEFFICIENTS
}

// Whether a number's bytes are infinity, or the one number that is none.
fn is_special(number: u128) -> bool
    ensures { result ≡ law.is_special number }
{
    number % (1 << 127) == 120 << 120 || number == 124 << 120
}

// Whether a number's bytes are canonical.
#[tactic(auto, unfolding(crate::specs::Law::is_canonical_number))]
fn is_canonical_number(number: u128) -> bool
    ensures { result ≡ law.is_canonical_number number }
{
    is_finite(number) || is_special(number)
}

/// Whether the sixteen bytes are read back from their text. So is each coefficient of at most 34 digits with a sign and an exponent, each infinity, and the one NaN whose
/// other bits are zero. It takes no memory.
pub fn is_canonical(bytes: &[u8; 16]) -> bool
    ensures { IsTrue result ↔ law.ReadsBack bytes.now }
{
    is_canonical_number(u128::from_le_bytes(*bytes))
}
