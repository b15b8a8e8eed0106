// To Float32Sparse.
ghost use Rattle.std.specs.Prelude.{◌≡◌, ◌+◌, ◌*◌, ◌≤◌, length};
ghost use Rattle.std.specs.Float.{binary32};
ghost use Rattle.promises.specs.Onto.{onto};
ghost use Rattle.vector_types.specs.Layout.{max_dims, ceil};
ghost use Rattle.vector_types.specs.declared.VectorType.TheVariants.{Float32Sparse, Float8};
ghost use Rattle.bodies.specs.Elements.{float8_element};
ghost use Rattle.convert_parts.specs.Pieces.{places_of};
ghost use Rattle.convert_parts.specs.Sparse.{is_nonzero};
ghost use Rattle.convert_parts.specs.Result.{result_of};

use bodies::float8::scale_of;
use convert_parts::entries::put_entry;

// How many elements are stored, those that are not 0.0. Counted in 32 bits, as wide as an element, so that
// the loop is vectorised without widening.
pub(crate) fn count_stored(dims: usize, body: &[u8]) -> usize
    requires dims_le_max_dims { dims ≤ max_dims }
    requires body_len { length body.now ≡ 4 * ceil dims 4 + 8 }
    ensures { result ≡ length (places_of (λ i. is_nonzero (float8_element binary32 dims body.now i)) dims) }
{
    let scale = scale_of(dims, body);
    let mut n: u32 = 0;
    let mut i = 0;
    while i < dims {
        let x = scale.element(body[i]);
        n += (x != 0.0) as u32;
        i += 1;
    }
    n as usize
}

// Puts the count elements that are stored at the start of out, their values, then their indices.
pub(crate) fn put_sparse(dims: usize, body: &[u8], count: usize, out: &mut [u8])
    requires dims_le_max_dims { dims ≤ max_dims }
    requires body_len { length body.now ≡ 4 * ceil dims 4 + 8 }
    requires count_value { count ≡ length (places_of (λ i. is_nonzero (float8_element binary32 dims body.now i)) dims) }
    requires count_in_bounds { 8 * count ≤ length out.old }
    ensures { out.new ≡ onto (result_of Float8 Float32Sparse dims body.now) out.old }
{
    let scale = scale_of(dims, body);
    let mut n = 0;
    let mut i = 0;
    while i < dims {
        let x = scale.element(body[i]);
        n = put_entry(x != 0.0, little_endian::bits32(x), i, count, n, out);
        i += 1;
    }
}
