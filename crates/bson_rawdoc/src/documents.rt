ghost use Rattle.std.specs.Prelude.{◌≡◌, ◌+◌, ◌^◌, ◌<◌, length, Some};
ghost use Rattle.std.specs.Iterator.{at_most};
ghost use Rattle.bson_rawdoc.specs.Cut as cuts;

use crate::extent::extent;
use bson_kinds::ElementType;
use std::marker::Model;

/// The documents of a file that has them one behind another, as `mongodump` writes them. Contracts see it as what is left of the file, cut into documents.
///
/// Each item is the bytes of one document, or, once and last, the place where the file is broken: where bytes are left that do not begin with
/// the length of a document, at least five, that is there. Nothing is copied, and no memory is taken. That a document's last byte is zero, and what is inside it,
/// is not looked at: see `RawDocument::from_bytes`.
#[derive(Debug, Drop)]
pub struct RawDocuments<'a> {
    rest: &'a [u8],
    place: usize,
}

impl<'a> Model for RawDocuments<'a> {
    ghost use Rattle.std.specs.Prelude.{◌+◌, ◌^◌, ◌<◌, length};
    ghost use Rattle.bson_rawdoc.specs.Cut.{Cut, cut_from};
    ghost use Rattle.bson_rawdoc.specs.Prover.Stored.{coded_cut};

    ghost Value = { Cut };

    ghost coded = { coded_cut };

    ghost view = { λ d. cut_from d.place d.rest.now };

    ghost invariant = { λ d. d.place + length d.rest.now < 2 ^ 64 };
}

impl<'a> RawDocuments<'a> {
    /// The documents of a file.
    pub fn new(file: &'a [u8]) -> RawDocuments<'a>
        ensures cut { result ≡ cuts.cut file.now }
    {
        RawDocuments {
            rest: file,
            place: 0,
        }
    }
}

impl<'a> Iterator for RawDocuments<'a> {
    type Item = Result<&'a [u8], usize>;

    ghost next_gives = { cuts.IsPiece };

    ghost remaining = { λ c. at_most (cuts.steps c) };

    fn next(&mut self) -> Option<Result<&'a [u8], usize>> {
        if self.rest.is_empty() {
            return None;
        }
        let Some(length) = piece_length(self.rest) else {
            self.rest = &self.rest[..0];
            return Some(Err(self.place));
        };
        let (piece, rest) = self.rest.split_at(length);
        self.rest = rest;
        self.place += length;
        Some(Ok(piece))
    }
}

// How many bytes the document in front takes, if they are there.
fn piece_length(bytes: &[u8]) -> Option<usize>
    ensures { result ≡ cuts.piece_length bytes.now }
{
    match extent(ElementType::EmbeddedDocument, bytes) {
        Ok(length) if length <= bytes.len() => Some(length),
        _ => None,
    }
}
