// To Float64Dense.
ghost use Rattle.std.specs.Prelude.{◌≡◌, ◌*◌, ◌≤◌, length};
ghost use Rattle.promises.specs.Onto.{onto};
ghost use Rattle.vector_types.specs.Layout.{max_dims};
ghost use Rattle.vector_types.specs.declared.VectorType.TheVariants.{Float32Dense, Float64Dense};
ghost use Rattle.convert_parts.specs.Result.{result_of};

// Puts the elements as f64 at the start of out.
pub(crate) fn put_doubles(dims: usize, body: &[u8], out: &mut [u8])
    requires dims_le_max_dims { dims ≤ max_dims }
    requires body_len { length body.now ≡ 4 * dims }
    requires dims_in_bounds { 8 * dims ≤ length out.old }
    ensures { out.new ≡ onto (result_of Float32Dense Float64Dense dims body.now) out.old }
{
    let mut i = 0;
    while i < dims {
        let bits = rounding::widen_bits(little_endian::u32_at(body, 4 * i));
        little_endian::put_u64(out, 8 * i, bits);
        i += 1;
    }
}
