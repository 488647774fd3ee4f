ghost use Rattle.std.specs.Prelude.{◌≡◌, true, Some, Ok};
ghost use Rattle.bson_base.specs.Sound.{IsSound};
ghost use Rattle.bson_base.specs.Tree.{Tree, enc};
ghost use Rattle.bson_shape.specs.Makers.{IsShape};
ghost use Rattle.bson_values.specs.Value.{Value};
ghost use Rattle.bson_laws.specs.Means.{means};
ghost use Rattle.bson_laws.specs.Plain.{IsPlain};
ghost use Rattle.bson_laws.specs.Reads.{reads_document};
ghost use Rattle.bson_traits.specs.ShapeOf.{read_typed};
ghost use Rattle.bson_types.specs.Typed.{ReadsBack};

use bson_laws::law_read_back;
use bson_traits::{EqualByContents, RoundTrip};

/// What [`from_slice`](crate::from_slice) reads from the bytes that [`to_vec`](crate::to_vec) wrote of a value has the contents of that value again.
///
/// The shape of the type is plain (`IsPlain`), and the datum of the value means a sound document (`IsSound`). The call does nothing.
pub fn law_round_trip<'de, T: RoundTrip<'de>>()
    ensures again { (x : T) (v : Value) (t : Tree) → T.is_value x → IsShape T.Deserialize.form → IsPlain T.Deserialize.form
        → T.Serialize.written x ≡ Ok v → means v ≡ Some t → IsSound t
        → ReadsBack T.Deserialize.form T.Deserialize.taken (T.Deserialize.contents x) v t }
{
    law_read_back();
}

/// What [`from_slice`](crate::from_slice) reads from the bytes that [`to_vec`](crate::to_vec) wrote of a value is `==` to that value, where values of the type are `==` by their contents.
///
/// The shape of the type is plain (`IsPlain`), and the datum of the value means a sound document (`IsSound`). The call does nothing.
pub fn law_round_trip_equal<'de, T: RoundTrip<'de> + EqualByContents<'de>>()
    ensures equal { (x y : T) (v : Value) (t : Tree) → T.is_value x → IsShape T.Deserialize.form → IsPlain T.Deserialize.form
        → T.Serialize.written x ≡ Ok v → means v ≡ Some t → IsSound t
        → read_typed T.Deserialize.form T.Deserialize.taken (λ s. reads_document s (enc t)) ≡ Ok (T.Deserialize.contents y) → T.PartialEq.eq x y ≡ true }
{
    law_round_trip::<T>();
}
