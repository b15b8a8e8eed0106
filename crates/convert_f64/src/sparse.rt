// To Float32Sparse.
ghost use Rattle.std.specs.Prelude.{◌≡◌, not, cond, [], ◌∷◌, ◌+◌, ◌*◌, ◌%◌, ◌≤◌, ◌<◌, eqb, length};
ghost use Rattle.std.specs.Float.{binary32, binary64};
ghost use Rattle.std.specs.Float.Ieee.{of_bits};
ghost use Rattle.promises.specs.Onto.{onto};
ghost use Rattle.rounding.specs.Narrow.{narrowed};
ghost use Rattle.little_endian.specs.Bytes.{put, bytes_of, float_bytes};
ghost use Rattle.vector_types.specs.Layout.{max_dims};
ghost use Rattle.vector_types.specs.declared.VectorType.TheVariants.{Float64Dense, Float32Sparse};
ghost use Rattle.bodies.specs.Elements.{dense_element};
ghost use Rattle.convert_parts.specs.Pieces.{places_of};
ghost use Rattle.convert_parts.specs.Sparse.{is_nonzero};
ghost use Rattle.convert_parts.specs.Result.{result_of};

use convert_parts::entries::put_entry;

// How many elements are stored, those that are not 0.0 before they are rounded. A pattern without its
// sign is 0 exactly for the two zeros.
pub(crate) fn count_stored(dims: usize, body: &[u8]) -> usize
    requires dims_le_max_dims { dims ≤ max_dims }
    requires body_len { length body.now ≡ 8 * dims }
    ensures { result ≡ length (places_of (λ i. is_nonzero (dense_element binary64 body.now i)) dims) }
{
    let mut n = 0;
    let mut i = 0;
    while i < dims {
        let bits = little_endian::u64_at(body, 8 * i);
        n += (bits % 0x8000_0000_0000_0000 != 0) as usize;
        i += 1;
    }
    n
}

// Puts element i by its pattern, if it is stored, as entry n of count: it is narrowed only if it is no zero.
fn put_narrowed(bits: u64, i: usize, count: usize, n: usize, out: &mut [u8]) -> usize
    requires i_lt_max_dims { i < max_dims }
    requires i_bound { n + length (cond (not (eqb (bits % 0x8000_0000_0000_0000) 0)) (i ∷ []) []) ≤ count }
    requires count_in_bounds { 8 * count ≤ length out.old }
    ensures value { result ≡ n + length (cond (not (eqb (bits % 0x8000_0000_0000_0000) 0)) (i ∷ []) []) }
    ensures out_after { out.new ≡ cond (not (eqb (bits % 0x8000_0000_0000_0000) 0))
        (put (put out.old (4 * n) (float_bytes binary32 (narrowed (of_bits binary64 bits)))) (4 * count + 4 * n) (bytes_of 4 i))
        out.old }
{
    if bits % 0x8000_0000_0000_0000 == 0 {
        return n;
    }
    put_entry(true, rounding::narrow_bits(bits), i, count, n, out)
}

// Puts the count elements that are stored at the start of out, their values, then their indices.
pub(crate) fn put_sparse(dims: usize, body: &[u8], count: usize, out: &mut [u8])
    requires dims_le_max_dims { dims ≤ max_dims }
    requires body_len { length body.now ≡ 8 * dims }
    requires count_value { count ≡ length (places_of (λ i. is_nonzero (dense_element binary64 body.now i)) dims) }
    requires count_in_bounds { 8 * count ≤ length out.old }
    ensures { out.new ≡ onto (result_of Float64Dense Float32Sparse dims body.now) out.old }
{
    let mut n = 0;
    let mut i = 0;
    while i < dims {
        let bits = little_endian::u64_at(body, 8 * i);
        n = put_narrowed(bits, i, count, n, out);
        i += 1;
    }
}
