// Appending a blob to an fvecs file.
ghost use Rattle.std.specs.Prelude.{◌≡◌, ◌≤◌, length};
ghost use Rattle.promises.specs.Onto.{onto};
ghost use Rattle.vector_types.specs.Layout.{max_dims};
ghost use Rattle.vecs.specs.Append.{vector_bytes, append_leaving, append_outcome};

use vector_types::{Dims, Mode, Refusal, Vector, VectorType, View};

// Puts the count and the body of a vector at the start of out.
#[tactic(auto, using(crate::proofs::Appended::appends))]
fn put_vector(dims: Dims, body: &[u8], out: &mut [u8])
    requires dims_le_max_dims { dims.0 ≤ max_dims }
    requires body_in_bounds { length (vector_bytes dims.0 body.now) ≤ length out.old }
    ensures { out.new ≡ onto (vector_bytes dims.0 body.now) out.old }
{
    little_endian::put_u32(out, 0, dims.0 as u32);
    let _ = byte_slices::copy(body, &mut out[4..]);
}

// Puts a Float32Dense blob as a vector from `fill` on, and answers the new fill; a refusal changes nothing.
// A fill past the end of out leaves no room.
#[tactic(auto, unfolding(crate::specs::Append::append_outcome, crate::specs::Append::append_of), using(crate::proofs::Appended::appends))]
pub fn fvecs_append(blob: &[u8], out: &mut [u8], fill: usize) -> Result<usize, Refusal>
    ensures { append_leaving result out.new ≡ append_outcome blob.now out.old fill }
{
    let vector = Vector::from_slice(Mode::Plain, blob)?;
    let View { kind, dims, .. } = vector.view;
    if kind != VectorType::Float32Dense {
        return Err(Refusal::KindsDiffer);
    }
    let need = 4 + 4 * dims.0;
    if out.len().saturating_sub(fill) < need {
        return Err(Refusal::OutputTooShort(need));
    }
    put_vector(dims, vector.body(), &mut out[fill..]);
    Ok(fill + need)
}
