// Keys of documents and of arrays.
ghost use Rattle.std.specs.Prelude.{IfSome};
ghost use Rattle.bson_itself.specs.Keys.{IsKey};

use bson_rawdoc::utf8::key_len;

// The key that begins these bytes, and what is behind its zero.
#[inline(always)]
pub(crate) fn key(bytes: &[u8]) -> Option<(&str, &[u8])>
    ensures { IfSome result (λ p. IsKey bytes.now p.0.now p.1.now) }
{
    let Ok(len) = key_len(bytes) else {
        return None;
    };
    let (name, behind) = bytes.split_at(len);
    let name = unsafe { str::from_utf8_unchecked(name) };
    Some((name, &behind[1..]))
}
