// To Float32Dense.
ghost use Rattle.std.specs.Prelude.{◌≡◌, ◌*◌, ◌≤◌, length};
ghost use Rattle.promises.specs.Onto.{onto};
ghost use Rattle.vector_types.specs.Layout.{max_dims};
ghost use Rattle.vector_types.specs.declared.VectorType.TheVariants.{Float64Dense, Float32Dense};
ghost use Rattle.convert_parts.specs.Result.{result_of};

// Puts the elements as f32 at the start of out.
pub(crate) fn put_singles(dims: usize, body: &[u8], out: &mut [u8])
    requires dims_le_max_dims { dims ≤ max_dims }
    requires body_len { length body.now ≡ 8 * dims }
    requires dims_in_bounds { 4 * dims ≤ length out.old }
    ensures { out.new ≡ onto (result_of Float64Dense Float32Dense dims body.now) out.old }
{
    let mut i = 0;
    while i < dims {
        let bits = rounding::narrow_bits(little_endian::u64_at(body, 8 * i));
        little_endian::put_u32(out, 4 * i, bits);
        i += 1;
    }
}
