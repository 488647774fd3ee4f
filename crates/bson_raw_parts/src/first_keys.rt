ghost use Rattle.std.specs.Prelude.{◌≡◌};
ghost use Rattle.bson_values.specs.Wrapper.{of_key};
ghost use Rattle.bson_raw_parts.specs.FirstKeyView.{said, said_of};

use bson_kinds::begins_with_dollar;
use bson_values::Wrapper;

/// What the first key of a document says of it.
#[derive(Clone, Copy, Debug, PartialEq, Eq)]
pub enum FirstKey {
    /// It becomes what the value of this key stands for.
    Body(Wrapper),
    /// It becomes a code, which may have a scope.
    Code,
    /// It stays a document.
    Ordinary,
}

/// What a first key says.
pub fn first_key(key: &str) -> FirstKey
    ensures { result ≡ said_of (of_key key.now) }
{
    match wrapper_of(key) {
        Some(wrapper) => of_wrapper(wrapper),
        None => FirstKey::Ordinary,
    }
}

// What a wrapper key says.
fn of_wrapper(wrapper: Wrapper) -> FirstKey
    ensures { result ≡ said wrapper }
{
    match wrapper {
        Wrapper::Code => FirstKey::Code,
        Wrapper::NumberInt
        | Wrapper::NumberLong
        | Wrapper::NumberDouble
        | Wrapper::NumberDecimal
        | Wrapper::Uuid
        | Wrapper::Scope => FirstKey::Ordinary,
        _ => FirstKey::Body(wrapper),
    }
}

// The wrapper key that a key is. Most keys are none by their first character.
fn wrapper_of(key: &str) -> Option<Wrapper>
    ensures { result ≡ of_key key.now }
{
    if !begins_with_dollar(key) {
        return None;
    }
    Wrapper::from_key(key)
}
