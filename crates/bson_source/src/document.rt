ghost use Rattle.std.specs.Prelude.{◌≡◌, ◌≤◌, ◌-◌, ◌++◌, IfErr, IfOk, IfSome, OnOk, length};
ghost use Rattle.bson_kinds.specs.Text.{Bytes};
ghost use Rattle.bson_values.specs.Cause.{too_small};
ghost use Rattle.bson_io.specs.Ends.{Rose};
ghost use Rattle.bson_values.specs.ErrorView.{read_failure};
ghost use Rattle.bson_values.specs.Refusal.{bare, unreadable};
ghost use Rattle.bson_source.specs.Taken.{TakesAll, TakesSome};
ghost use Rattle.bson_source.specs.FirstDocument.{announced, first_document};
ghost use Rattle.bson_source.specs.FromSource.{ReadsOne, IsTakeError};

use crate::taking::{TakeFault, take_up_to};
use bson_io::Source;
use bson_rawdoc::reading::int32_in;
use bson_values::{Cause, de};
use std::alloc::Global;

/// The bytes of the first document of what a source has left: as many as its first four bytes announce, or all where the source ends before.
///
/// Memory grows with the bytes that came, and not with the length that is announced. Nothing past that length is taken.
///
/// # Errors
///
/// - `EndOfStream` exactly where fewer than four bytes were left.
/// - `DeserializationError` with `TooSmall` exactly where the four bytes announce less than five.
/// - `Io` only where a call on the source failed, and `NoMemory` where memory ran out. Some of the bytes were taken then.
pub fn take_document<S: Source>(alloc: Global, source: &mut S) -> de::Result<Vec<u8>>
    ensures document { ReadsOne (λ v. v.items) first_document (S.left source.old) (S.left source.new) (S.faults source.old) (S.faults source.new) result }
    ensures later { S.faults source.old ≤ S.faults source.new }
    // No call on the source failed, where there are bytes.
    ensures kept { OnOk result (S.faults source.new ≡ S.faults source.old) }
{
    let bytes = take(Vec::new(alloc), 4, source)?;
    if bytes.len() < 4 {
        return Err(de::Error::EndOfStream);
    }
    let Some(length) = announced(&bytes) else {
        return Err(too_small());
    };
    take(bytes, length, source)
}

// So many bytes of a source, or fewer where it has no more, with those that came before.
fn take<S: Source>(bytes: Vec<u8>, most: usize, source: &mut S) -> de::Result<Vec<u8>>
    requires { length bytes.items ≤ most }
    ensures all { IfOk result (λ v. (more : Bytes) × (v.items ≡ bytes.items ++ more)
        × TakesAll (most - length bytes.items) (S.left source.old) (S.left source.new) more) }
    ensures some { (more : Bytes) × TakesSome (most - length bytes.items) (S.left source.old) (S.left source.new) more }
    ensures failed { IfErr result (λ e. IsTakeError (Rose (S.faults source.old) (S.faults source.new)) (read_failure e)) }
    ensures later { S.faults source.old ≤ S.faults source.new }
    ensures kept { OnOk result (S.faults source.new ≡ S.faults source.old) }
{
    let mut bytes = bytes;
    match take_up_to(&mut bytes, most, source) {
        Ok(()) => Ok(bytes),
        Err(TakeFault::Failed) => Err(de::Error::Io),
        Err(TakeFault::NoMemory) => Err(de::Error::NoMemory),
    }
}

// The number of bytes of a document that the first four announce, which is at least five.
fn announced(bytes: &[u8]) -> Option<usize>
    requires { 4 ≤ length bytes.now }
    ensures length { result ≡ announced bytes.now }
    ensures least { IfSome result (λ n. 5 ≤ n) }
{
    let length = usize::try_from(int32_in(bytes)).ok()?;
    if length < 5 { None } else { Some(length) }
}

// The error of a length that is none of a document.
fn too_small() -> de::Error
    ensures { read_failure result ≡ bare (unreadable too_small) }
{
    de::Error::DeserializationError {
        cause: Cause::TooSmall,
    }
}
