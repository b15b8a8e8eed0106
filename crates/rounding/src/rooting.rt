// The square root of a float, rounded once, from its pattern.
ghost use Rattle.std.specs.Prelude.{◌*◌, ◌<◌};
ghost use Rattle.std.specs.Float.{binary32, binary64};
ghost use Rattle.std.specs.Float.Ieee.{ones};
ghost use Rattle.rounding.specs.Root.{IsRoot};
ghost use Rattle.rounding.specs.Inner.Parts.{format_of, Widths, IsRootPattern};

use crate::{pattern, whole};

// The root of x: Rust's `x.sqrt()`.
pub fn root32(x: f32) -> f32
    ensures { IsRoot binary32 x result }
{
    if x > 0.0 {
        let b = f32::to_bits(x);
        if b < 0x7f80_0000 {
            f32::from_bits(root_pattern(b as u64, 24, 0x80_0000, 149) as u32)
        } else {
            x
        }
    } else if x == 0.0 {
        x
    } else {
        0.0 / 0.0
    }
}

// The root of x: Rust's `x.sqrt()`.
pub fn root64(x: f64) -> f64
    ensures { IsRoot binary64 x result }
{
    if x > 0.0 {
        let b = f64::to_bits(x);
        if b < 0x7ff0_0000_0000_0000 {
            f64::from_bits(root_pattern(b, 53, 0x10_0000_0000_0000, 1074))
        } else {
            x
        }
    } else if x == 0.0 {
        x
    } else {
        0.0 / 0.0
    }
}

// The pattern of the root of what has the pattern b, finite and above zero. The significand is shifted
// up to twice the format's digits and one or two more; its whole root has then one digit more than the
// format keeps, and half of that, rounded up, is nearest.
fn root_pattern(b: u64, prec: u64, hid: u64, low: u64) -> u64
    requires widths { Widths (format_of prec) prec hid low }
    requires b_positive { 0 < b }
    requires b_finite { b < ones (format_of prec) * hid }
    ensures { IsRootPattern (format_of prec) b result }
{
    let x = pattern::decode(b, hid);
    let y = pattern::normalize(x.m, x.e + low, hid);
    let e = y.e;
    let shift = prec + 1 + (e + prec + 1) % 2;
    // one pair for each digit of the root, at the top of 54 digits
    let r = whole::root_digits(y.m << (shift + 52 - prec * 2), prec + 1);
    ((e - shift) / 2 + 1) * hid + (r.root + 1) / 2
}
