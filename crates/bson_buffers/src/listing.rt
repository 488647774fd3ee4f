// The refused documents of a file, a record for each.
ghost use Rattle.std.specs.Prelude.{◌≡◌, ◌+◌, ◌≤◌, IfOk, length, string_bytes};
ghost use Rattle.bson_buffers.specs.Lists.{offset_in};
ghost use Rattle.bson_buffers.specs.Prover.Listed.{bytes_from, texts_of, records_from};

use crate::finding::{Found, document_at};
use crate::reason::reason_of;
use crate::refusal::Refusal;
use bson_migrate_run::Refused;
use std::alloc::{AllocError, Global};

/// A record for each refused document, and the text that they point into.
#[derive(Drop)]
pub struct Listing {
    pub refusals: Vec<Refusal>,
    pub text: String,
}

// Where so many documents from a place on end; where there are fewer, the last of them.
fn skip(file: &[u8], place: usize, count: u64) -> usize
    ensures { result ≡ place + bytes_from file.now place count }
{
    let mut end = place;
    for _ in 0..count {
        match document_at(file, end) {
            Found::Document(length) => end += length,
            Found::End | Found::Broken => break,
        }
    }
    end
}

// Where the document of a number begins, by where another one does.
fn offset_by(file: &[u8], number: u64, offset: usize, wanted: u64) -> usize
    requires { offset ≡ offset_in file.now number }
    ensures { result ≡ offset_in file.now wanted }
{
    if number <= wanted {
        skip(file, offset, wanted - number)
    } else {
        skip(file, 0, wanted)
    }
}

/// A record for each of the refused documents of a file, with their texts one after another. An error means out of memory.
pub fn list(alloc: Global, file: &[u8], refused: &[Refused]) -> Result<Listing, AllocError>
    ensures refusals { IfOk result (λ l. l.refusals.items ≡ records_from file.now 0 refused.now) }
    ensures text { IfOk result (λ l. string_bytes l.text ≡ texts_of refused.now) }
{
    let mut refusals = Vec::new(alloc);
    let mut text = String::new(alloc);
    let mut number = 0;
    let mut offset = 0;
    for document in refused {
        offset = offset_by(file, number, offset, document.number);
        number = document.number;
        let reason = reason_of(alloc, &document.error)?;
        refusals.push(Refusal {
            index: number,
            offset,
            status: reason.status.number(),
            text_start: text.len(),
            text_length: reason.text.len(),
            cause_start: reason.front.len(),
        })?;
        text.push_str(reason.text.as_str())?;
    }
    Ok(Listing { refusals, text })
}
