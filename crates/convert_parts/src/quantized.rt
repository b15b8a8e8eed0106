// The range of elements, the scale that fits it, and the bytes by this scale.
ghost use Rattle.std.specs.Prelude.{◌≡◌, false, ◌+◌, ◌-◌, ◌*◌, ◌≤◌, length};
ghost use Rattle.std.specs.Float.Ieee.{eq};
ghost use Rattle.float_laws.specs.Zero.{plus_zero};
ghost use Rattle.promises.specs.Onto.{onto};
ghost use Rattle.vector_types.specs.Layout.{max_dims, ceil};
ghost use Rattle.convert_parts.specs.Quantized.{quantum, scale_for, scale_end};
ghost use Rattle.convert_parts.specs.Inner.Ranges.{no_range, wider_by};

use crate::filling::put_zeros;
use bodies::float8::Scale;

// The least and the greatest element so far.
#[derive(Clone, Copy)]
pub struct Range {
    pub low: f32,
    pub high: f32,
}

// The range of no elements.
pub fn no_range() -> Range
    ensures { result ≡ no_range }
{
    Range {
        low: 1.0 / 0.0,
        high: -1.0 / 0.0,
    }
}

impl Range {
    // The range with one element more; NaN is neither less nor greater.
    pub fn wider(self, x: f32) -> Range
        ensures { result ≡ wider_by self x }
    {
        let low = if x < self.low { x } else { self.low };
        let high = if self.high < x { x } else { self.high };
        Range { low, high }
    }
}

// The scale of so many elements in a range; of none alpha and shift are 0.0.
pub fn scale_for(dims: usize, found: Range) -> Scale
    ensures { result ≡ scale_for dims found.low found.high }
{
    if dims == 0 {
        return Scale {
            alpha: 0.0,
            shift: 0.0,
        };
    }
    let alpha = (found.high - found.low) / 255.0;
    Scale {
        alpha,
        shift: found.low,
    }
}

// The byte of an element, where alpha is not 0.0.
pub fn quantize(scale: Scale, x: f32) -> u8
    requires { eq scale.alpha plus_zero ≡ false }
    ensures { result ≡ quantum scale x }
{
    rounding::truncate((x - scale.shift) / scale.alpha + 0.5)
}

// Puts what follows the bytes of dims elements: zeros up to a multiple of 4, alpha and shift.
pub fn put_end(dims: usize, scale: Scale, out: &mut [u8])
    requires dims_le_max_dims { dims ≤ max_dims }
    requires dims_in_bounds { 4 * ceil dims 4 - dims + 8 ≤ length out.old }
    ensures { out.new ≡ onto (scale_end dims scale) out.old }
{
    let padding = (dims + 3) / 4 * 4 - dims;
    put_zeros(padding, out);
    little_endian::put_f32(out, padding, scale.alpha);
    little_endian::put_f32(out, padding + 4, scale.shift);
}
