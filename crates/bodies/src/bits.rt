// The elements of a 1-bit body.
ghost use Rattle.std.specs.Prelude.{◌≡◌, ◌*◌, ◌<◌, length};
ghost use Rattle.vector_types.specs.Layout.{bit_at};
ghost use Rattle.bodies.specs.Elements.{bit_element};

// Bit i, 0 or 1.
pub fn bit_at(body: &[u8], i: usize) -> usize
    requires { i < 8 * length body.now }
    ensures { result ≡ bit_at body.now i }
{
    ((body[i / 8] >> (i % 8)) % 2) as usize
}

// Element i: 1.0 or -1.0.
pub fn element(body: &[u8], i: usize) -> f32
    requires { i < 8 * length body.now }
    ensures { result ≡ bit_element body.now i }
{
    if bit_at(body, i) == 1 { 1.0 } else { -1.0 }
}
