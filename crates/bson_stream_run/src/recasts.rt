// The recast of each document of a stream.
ghost use Rattle.std.specs.Prelude.{◌≡◌, IfOk, string_bytes};
ghost use Rattle.bson_tree_recast.specs.Printed.{recast_error_text};
ghost use Rattle.bson_tree_recast.specs.Recast.{IsRefusal, Recast};
ghost use Rattle.bson_stream_run.specs.Recasts.{IsText};

use bson_io::Out;
use bson_recasting::{RecastError, recast_to_buf};
use bson_shape::Shape;
use bson_streaming::Job;
use std::alloc::{AllocError, Global};
use std::marker::Model;

/// Each document is recast at a shape, which contracts see.
#[derive(Drop)]
pub struct Recasts {
    shape: Shape,
}

impl Model for Recasts {
    ghost use Rattle.bson_shape.specs.Form.{Form};
    ghost use Rattle.bson_shape.specs.Prover.StoredForm.{coded_form};

    ghost Value = { Form };

    ghost coded = { coded_form };

    ghost view = { λ r. r.shape };
}

impl Recasts {
    /// At this shape.
    pub fn at(shape: Shape) -> Recasts
        ensures { result ≡ shape }
    {
        Recasts { shape }
    }
}

impl Job for Recasts {
    ghost use Rattle.bson_stream_run.specs.Recasts.{recasts};

    ghost gives = { recasts };

    fn answer(
        &mut self,
        alloc: Global,
        document: &[u8],
        due: &mut Out,
    ) -> Result<Result<(), String>, AllocError> {
        let error = match recast_to_buf(alloc, &self.shape, document, due) {
            Ok(()) => return Ok(Ok(())),
            Err(error) => error,
        };
        let text = refused(alloc, &error)?;
        Ok(Err(text))
    }
}

// Why a document is not recast, as it is told. There is no text where memory ran out.
fn refused(alloc: Global, error: &RecastError) -> Result<String, AllocError>
    ensures { IfOk result (λ t. (r : Recast) → IsRefusal r error.now → IsText r (string_bytes t)) }
{
    if let RecastError::NoMemory = error {
        return Err(AllocError);
    }
    told(alloc, error)
}

fn told(alloc: Global, error: &RecastError) -> Result<String, AllocError>
    ensures { IfOk result (λ t. string_bytes t ≡ recast_error_text error.now) }
{
    format!(in alloc; "{error}")
}
