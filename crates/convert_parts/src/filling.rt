// Putting zeros, and a copy.
ghost use Rattle.std.specs.Prelude.{◌≡◌, ◌≤◌, length, replicate};
ghost use Rattle.promises.specs.Onto.{onto};

// Puts n zeros at the start of out.
pub fn put_zeros(n: usize, out: &mut [u8])
    requires { n ≤ length out.old }
    ensures { out.new ≡ onto (replicate n 0) out.old }
{
    let mut i = 0;
    while i < n {
        out[i] = 0;
        i += 1;
    }
}

// Puts a copy of a body at the start of out.
pub fn put_copy(body: &[u8], out: &mut [u8])
    requires { length body.now ≤ length out.old }
    ensures { out.new ≡ onto body.now out.old }
{
    let _ = byte_slices::copy(body, out);
}
