// To Float32Dense and Float64Dense: the entries spread over zeros.
ghost use Rattle.std.specs.Prelude.{◌≡◌, false, ◌*◌, ◌%◌, ◌≤◌, length};
ghost use Rattle.std.specs.Float.{binary32, binary64};
ghost use Rattle.promises.specs.Onto.{onto};
ghost use Rattle.vector_types.specs.Layout.{max_dims, has_index_outside};
ghost use Rattle.vector_types.specs.declared.VectorType.TheVariants.{Float32Sparse};
ghost use Rattle.convert_parts.specs.Spread.{spread_body};

use convert_parts::filling::put_zeros;

// Puts the elements as f32 at the start of out, and as f64.
pub(crate) fn put_singles(dims: usize, body: &[u8], out: &mut [u8])
    requires dims_le_max_dims { dims ≤ max_dims }
    requires body_len { length body.now % 8 ≡ 0 }
    requires body_value { has_index_outside Float32Sparse dims body.now ≡ false }
    requires dims_in_bounds { 4 * dims ≤ length out.old }
    ensures { out.new ≡ onto (spread_body binary32 dims body.now) out.old }
{
    put_zeros(4 * dims, out);
    let count = body.len() / 8;
    let mut j = 0;
    while j < count {
        let index = little_endian::u32_at(body, 4 * count + 4 * j) as usize;
        let value = little_endian::u32_at(body, 4 * j);
        little_endian::put_u32(out, 4 * index, value);
        j += 1;
    }
}

pub(crate) fn put_doubles(dims: usize, body: &[u8], out: &mut [u8])
    requires dims_le_max_dims { dims ≤ max_dims }
    requires body_len { length body.now % 8 ≡ 0 }
    requires body_value { has_index_outside Float32Sparse dims body.now ≡ false }
    requires dims_in_bounds { 8 * dims ≤ length out.old }
    ensures { out.new ≡ onto (spread_body binary64 dims body.now) out.old }
{
    put_zeros(8 * dims, out);
    let count = body.len() / 8;
    let mut j = 0;
    while j < count {
        let index = little_endian::u32_at(body, 4 * count + 4 * j) as usize;
        let value = rounding::widen_bits(little_endian::u32_at(body, 4 * j));
        little_endian::put_u64(out, 8 * index, value);
        j += 1;
    }
}
