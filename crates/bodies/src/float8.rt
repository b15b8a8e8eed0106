// The scale of a Float8 body, by which its bytes stand for elements.
ghost use Rattle.std.specs.Prelude.{◌≡◌, ◌+◌, ◌*◌, ◌≤◌, length};
ghost use Rattle.std.specs.Float.{binary32, binary64};
ghost use Rattle.vector_types.specs.Layout.{max_dims, ceil};
ghost use Rattle.bodies.specs.Elements.{scaled};
ghost use Rattle.bodies.specs.Scale.{scale_in, wide};

#[derive(Clone, Copy)]
pub struct Scale {
    pub alpha: f32,
    pub shift: f32,
}

// The same in f64, which holds every f32.
#[derive(Clone, Copy)]
pub struct WideScale {
    pub alpha: f64,
    pub shift: f64,
}

// The scale that a body of so many elements holds, after its padded bytes.
pub fn scale_of(dims: usize, body: &[u8]) -> Scale
    requires dims_le_max_dims { dims ≤ max_dims }
    requires body_len { length body.now ≡ 4 * ceil dims 4 + 8 }
    ensures { result ≡ scale_in dims body.now }
{
    let end = 4 * ((dims + 3) / 4);
    let alpha = little_endian::f32_at(body, end);
    let shift = little_endian::f32_at(body, end + 4);
    Scale { alpha, shift }
}

impl Scale {
    // The element of a byte, worked out in f32.
    pub fn element(self, q: u8) -> f32
        ensures { result ≡ scaled binary32 self.alpha self.shift q }
    {
        self.alpha * q as f32 + self.shift
    }

    pub fn widened(self) -> WideScale
        ensures { result ≡ wide self }
    {
        let alpha = rounding::widen(self.alpha);
        let shift = rounding::widen(self.shift);
        WideScale { alpha, shift }
    }
}

impl WideScale {
    // The element of a byte, worked out in f64.
    pub fn element(self, q: u8) -> f64
        ensures { result ≡ scaled binary64 self.alpha self.shift q }
    {
        self.alpha * q as f64 + self.shift
    }
}
