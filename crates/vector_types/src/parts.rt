// The body of a blob, and the two halves of a sparse one, as the plain mode shows them: parts of the
// caller's blob, nothing copied.
ghost use Rattle.std.specs.Prelude.{◌≡◌, ◌*◌, ◌≤◌, length};
ghost use Rattle.vector_types.specs.Read.{read_of};
ghost use Rattle.vector_types.specs.declared.Mode.TheVariants.{Plain};
ghost use Rattle.vector_types.specs.Parts.{half_of, shown_half, body_of, values_of, indices_of, past};

use crate::reading::read;
use crate::{Mode, Vector, VectorType};

// The body; nothing where the blob is refused.
#[tactic(auto, unfolding(crate::specs::Parts::body_of))]
pub fn body(blob: &[u8]) -> &[u8]
    ensures result_value { result.now ≡ body_of blob.now }
    ensures ref_ptr_value { result.ref_ptr ≡ blob.entry.ref_ptr }
{
    match Vector::from_slice(Mode::Plain, blob) {
        Ok(vector) => vector.body(),
        Err(_) => &blob[..0],
    }
}

fn half_of(kind: VectorType, length: usize) -> usize
    ensures { result ≡ half_of kind length }
{
    match kind {
        VectorType::Float32Sparse => length / 2,
        _ => 0,
    }
}

// How many bytes the values of a sparse blob have, and the indices as many; none of another blob.
fn half(blob: &[u8]) -> usize
    ensures value { result ≡ shown_half (read_of Plain blob.now) }
    ensures result_in_bounds { 2 * result ≤ length blob.now }
{
    match read(Mode::Plain, blob) {
        Ok(view) => half_of(view.kind, view.length),
        Err(_) => 0,
    }
}

// The values of a sparse blob; nothing where it is refused or of another kind.
#[tactic(auto, unfolding(crate::specs::Parts::values_of))]
pub fn values(blob: &[u8]) -> &[u8]
    ensures result_value { result.now ≡ values_of blob.now }
    ensures ref_ptr_value { result.ref_ptr ≡ blob.entry.ref_ptr }
{
    let size = half(blob);
    &blob[..size]
}

// The indices of a sparse blob, right after its values; nothing where it is refused or of another kind.
#[tactic(auto, unfolding(crate::specs::Parts::indices_of))]
pub fn indices(blob: &[u8]) -> &[u8]
    ensures result_value { result.now ≡ indices_of blob.now }
    ensures ref_ptr_value { result.ref_ptr ≡ past blob.entry.ref_ptr (shown_half (read_of Plain blob.now)) }
{
    let size = half(blob);
    &blob[size..size + size]
}
