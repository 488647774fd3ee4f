ghost use Rattle.std.specs.Prelude.{◌≡◌};
ghost use Rattle.bson_json_laws.specs.WrapperKeys as spec;

use bson_values::Wrapper;

/// The wrapper key of extended JSON that a key is; `None` where it is none, as `$numberDecimalBytes`, which is of this library alone.
#[tactic(auto, using(crate::proofs::JsonWrappers::in_json_is))]
pub fn wrapper_of(key: &str) -> Option<Wrapper>
    ensures wrapper { result ≡ spec.wrapper_of key.now }
{
    match Wrapper::from_key(key) {
        Some(Wrapper::NumberDecimalBytes) => None,
        wrapper => wrapper,
    }
}
