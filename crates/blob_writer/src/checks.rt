// The tests of the writer: how long a blob is to be, or why it is not written.
ghost use Rattle.std.specs.Prelude.{◌≡◌};
ghost use Rattle.blob_writer.specs.Write.{write_of};

use crate::shape::Shape;
use vector_types::{MAX_BLOB_LENGTH, Refusal, first_outside};

// How long the blob is, or the first refusal in the writer's order, for a buffer of `room` bytes.
#[tactic(auto, unfolding(crate::specs::Write::write_of, crate::specs::Write::write_refusals), using(crate::proofs::Tails::tails))]
pub(crate) fn check_write(shape: Shape, body: &[u8], room: usize) -> Result<usize, Refusal>
    ensures { result ≡ write_of shape.kind shape.dims.0 body.now room }
{
    if !shape.fits(body.len()) {
        return Err(Refusal::BodyLengthUnfit);
    }
    let length = body.len() + shape.tail_length();
    if MAX_BLOB_LENGTH < length {
        return Err(Refusal::LengthOverLimit);
    }
    if let Some(entry) = first_outside(shape.kind, shape.dims, body) {
        return Err(Refusal::IndexNotBelowDims(entry));
    }
    if shape.lacks_elements() {
        return Err(Refusal::WriterDims0);
    }
    if room < length {
        return Err(Refusal::OutputTooShort(length));
    }
    Ok(length)
}
