// The entries of a sparse body, one by one.
ghost use Rattle.std.specs.Prelude.{◌≡◌, cond, [], ◌∷◌, ◌+◌, ◌*◌, ◌≤◌, ◌<◌, length};
ghost use Rattle.little_endian.specs.Bytes.{put, bytes_of};
ghost use Rattle.vector_types.specs.Layout.{max_dims};

// Puts element i, if it is stored, as entry n of count: the four bytes of its value, and its index.
// Answers how many entries there are then.
pub fn put_entry(
    stored: bool,
    value: u32,
    i: usize,
    count: usize,
    n: usize,
    out: &mut [u8],
) -> usize
    requires i_lt_max_dims { i < max_dims }
    requires i_bound { n + length (cond stored (i ∷ []) []) ≤ count }
    requires count_in_bounds { 8 * count ≤ length out.old }
    ensures value { result ≡ n + length (cond stored (i ∷ []) []) }
    ensures out_after { out.new ≡ cond stored
        (put (put out.old (4 * n) (bytes_of 4 value)) (4 * count + 4 * n) (bytes_of 4 i))
        out.old }
{
    if stored {
        little_endian::put_u32(out, 4 * n, value);
        little_endian::put_u32(out, 4 * count + 4 * n, i as u32);
        return n + 1;
    }
    n
}
