// Writing a blob from its kind, dims and body.
#![tactic(auto)]

mod checks;
mod shape;

ghost use Rattle.std.specs.Prelude.{◌≡◌};
ghost use Rattle.blob_writer.specs.Write.{write_leaving, write_outcome};

use checks::check_write;
use shape::Shape;
use vector_types::{Dims, Refusal, VectorType};

// Puts the blob of a kind, dims and body at the start of out and answers its length; a refusal
// changes nothing.
#[tactic(auto, unfolding(crate::specs::Write::write_outcome, crate::specs::Write::blob_of), using(crate::proofs::Written::outcomes))]
pub fn write(kind: VectorType, dims: Dims, body: &[u8], out: &mut [u8]) -> Result<usize, Refusal>
    ensures { write_leaving result out.new ≡ write_outcome kind dims.0 body.now out.old }
{
    let shape = Shape::of(kind, dims)?;
    let length = check_write(shape, body, out.len())?;
    let size = byte_slices::copy(body, out);
    shape.put_tail(&mut out[size..]);
    Ok(length)
}
