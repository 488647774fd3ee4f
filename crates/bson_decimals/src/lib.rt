//! Decimal floating point numbers of 128 bits (IEEE 754-2008 decimal128, binary integer decimal encoding), printed as text and read from it, exactly.
#![tactic(auto)]

mod canonical;
mod laws;
mod printing;
mod reading;

pub use canonical::is_canonical;
pub use laws::law_decimal_back;
pub use printing::decimal_text;
pub use reading::decimal_of_text;
