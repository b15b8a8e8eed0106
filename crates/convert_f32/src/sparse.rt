// To Float32Sparse.
ghost use Rattle.std.specs.Prelude.{◌≡◌, ◌*◌, ◌≤◌, length};
ghost use Rattle.std.specs.Float.{binary32};
ghost use Rattle.promises.specs.Onto.{onto};
ghost use Rattle.vector_types.specs.Layout.{max_dims};
ghost use Rattle.vector_types.specs.declared.VectorType.TheVariants.{Float32Dense, Float32Sparse};
ghost use Rattle.bodies.specs.Elements.{dense_element};
ghost use Rattle.convert_parts.specs.Pieces.{places_of};
ghost use Rattle.convert_parts.specs.Sparse.{is_nonzero};
ghost use Rattle.convert_parts.specs.Result.{result_of};

use convert_parts::entries::put_entry;

// How many elements are stored, those that are not 0.0. A pattern without its sign is 0 exactly for
// the two zeros. Counted in 32 bits, as wide as an element, so that the loop is vectorised without widening.
pub(crate) fn count_stored(dims: usize, body: &[u8]) -> usize
    requires dims_le_max_dims { dims ≤ max_dims }
    requires body_len { length body.now ≡ 4 * dims }
    ensures { result ≡ length (places_of (λ i. is_nonzero (dense_element binary32 body.now i)) dims) }
{
    let mut n: u32 = 0;
    let mut i = 0;
    while i < dims {
        let bits = little_endian::u32_at(body, 4 * i);
        n += (bits % 0x8000_0000 != 0) as u32;
        i += 1;
    }
    n as usize
}

// Puts the count elements that are stored at the start of out, their values, then their indices.
pub(crate) fn put_sparse(dims: usize, body: &[u8], count: usize, out: &mut [u8])
    requires dims_le_max_dims { dims ≤ max_dims }
    requires body_len { length body.now ≡ 4 * dims }
    requires count_value { count ≡ length (places_of (λ i. is_nonzero (dense_element binary32 body.now i)) dims) }
    requires count_in_bounds { 8 * count ≤ length out.old }
    ensures { out.new ≡ onto (result_of Float32Dense Float32Sparse dims body.now) out.old }
{
    let mut n = 0;
    let mut i = 0;
    while i < dims {
        let bits = little_endian::u32_at(body, 4 * i);
        n = put_entry(bits % 0x8000_0000 != 0, bits, i, count, n, out);
        i += 1;
    }
}
