ghost use Rattle.std.specs.Prelude.{◌≡◌, ◌≤◌, length};
ghost use Rattle.std.specs.Iterator.{at_most};
ghost use Rattle.bson_rawdoc.specs.Walk.{walk};
ghost use Rattle.bson_rawdoc.specs.Next.{IsNext, IsStep, steps};

use crate::element::{RawElement, element_at};
use crate::raw::Error;
use crate::reading::inside;
use std::marker::Model;

/// The elements of a document, one after another. Contracts see it as what is left of the walk.
///
/// Each item is an element, or, once and last, the fault that ends the list. Nothing is copied, and no memory is taken. The values are not
/// looked at: see `RawElement::value`.
#[derive(Debug, Drop)]
pub struct RawIter<'a> {
    rest: &'a [u8],
    over: bool,
}

impl<'a> Model for RawIter<'a> {
    ghost use Rattle.std.specs.Prelude.{if◌then◌else◌};
    ghost use Rattle.bson_rawdoc.specs.Walk.{Walk, ended, walk_elements};
    ghost use Rattle.bson_rawdoc.specs.Prover.Stored.{coded_walk};

    ghost Value = { Walk };

    ghost coded = { coded_walk };

    ghost view = { λ i. if i.over then ended else walk_elements i.rest.now };
}

impl<'a> RawIter<'a> {
    // Over the bytes of a document.
    pub(crate) fn over(bytes: &'a [u8]) -> RawIter<'a>
        requires { 5 ≤ length bytes.now }
        ensures walk { result ≡ walk bytes.now }
    {
        RawIter {
            rest: inside(bytes),
            over: false,
        }
    }
}

impl<'a> Iterator for RawIter<'a> {
    type Item = Result<RawElement<'a>, Error>;

    ghost next_gives = { IsNext };

    ghost remaining = { λ w. at_most (steps w) };

    #[inline(always)]
    fn next(&mut self) -> Option<Result<RawElement<'a>, Error>> {
        if self.over {
            return None;
        }
        match next_element(self.rest) {
            None => {
                self.over = true;
                None
            }
            Some(Err(fault)) => {
                self.over = true;
                Some(Err(fault))
            }
            Some(Ok((element, rest))) => {
                self.rest = rest;
                Some(Ok(element))
            }
        }
    }
}

/// The first element in these bytes and the bytes behind it, or the fault that ends them; `None` where there are no bytes.
#[inline(always)]
pub fn next_element(bytes: &[u8]) -> Option<Result<(RawElement<'_>, &[u8]), Error>>
    ensures { IsStep bytes.now result }
{
    match bytes {
        [] => None,
        [byte, after @ ..] => Some(element_at(*byte, after)),
    }
}
