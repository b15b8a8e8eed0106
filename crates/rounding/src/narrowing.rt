// An f64 to the nearest f32, from its pattern.
ghost use Rattle.std.specs.Prelude.{◌≡◌, ◌*◌, ◌^◌, ◌<◌, ◌≤◌, ◌⊎◌, from_bits, to_bits};
ghost use Rattle.std.specs.Float.{binary32, binary64};
ghost use Rattle.std.specs.Float.Ieee.Nearest.{closest};
ghost use Rattle.rounding.specs.Narrow.{IsNarrowed, narrowed};
ghost use Rattle.rounding.specs.Inner.Parts.{IsNarrowedPattern};

use crate::pattern;

// x as an f32, to nearest, a tie to the even one: Rust's `x as f32`.
pub fn narrow(x: f64) -> f32
    ensures { IsNarrowed x result }
{
    if x != x {
        return 0.0 / 0.0;
    }
    f32::from_bits(narrow_bits(f64::to_bits(x)))
}

// The same from the pattern of an f64 to that of an f32, a NaN's included. Nearly all values need only
// the first test.
pub fn narrow_bits(b: u64) -> u32
    ensures { result ≡ to_bits binary32 (narrowed (from_bits binary64 b)) }
{
    let size = b % 0x8000_0000_0000_0000;
    let sign = b / 0x8000_0000_0000_0000;
    if 0x3810_0000_0000_0000 <= size && size < 0x47ef_ffff_f000_0000 {
        return (sign * 0x8000_0000 + narrow_normal(size)) as u32;
    }
    if 0x7ff0_0000_0000_0000 < size {
        return 0x7fc0_0000;
    }
    (sign * 0x8000_0000 + narrow_edge(size)) as u32
}

// The pattern of the f32 nearest to what has the pattern b as an f64, both without their signs, from an
// f32's smallest normal value up to what rounds to infinity: an exponent less by 896 and 29 digits fewer,
// and a carry goes on into the exponent.
fn narrow_normal(b: u64) -> u64
    requires b_normal { 0x3810_0000_0000_0000 ≤ b }
    requires b_bound { b < 0x47ef_ffff_f000_0000 }
    ensures { IsNarrowedPattern b result }
{
    nearest_quotient(b - 0x3800_0000_0000_0000, 0x1000_0000)
}

// The same outside of that.
fn narrow_edge(b: u64) -> u64
    requires outside_normal { (b < 0x3810_0000_0000_0000) ⊎ (0x47ef_ffff_f000_0000 ≤ b) }
    requires b_bound { b ≤ 0x7ff0_0000_0000_0000 }
    ensures { IsNarrowedPattern b result }
{
    if b < 0x3810_0000_0000_0000 {
        narrow_small(b)
    } else {
        0x7f80_0000
    }
}

// The same below an f32's smallest normal value, where more digits are dropped.
fn narrow_small(b: u64) -> u64
    requires { b < 0x3810_0000_0000_0000 }
    ensures { IsNarrowedPattern b result }
{
    let x = pattern::decode(b, 0x10_0000_0000_0000);
    if x.e < 871 {
        0
    } else {
        nearest_quotient(x.m, 1 << (924 - x.e))
    }
}

// q / (2 * half) to the nearest whole number, a tie to the even one: half, less one where the quotient
// is even, is added before the cut.
fn nearest_quotient(q: u64, half: u64) -> u64
    requires half_positive { 0 < half }
    requires half_bound { half ≤ 2 ^ 61 }
    requires q_bound { q < 2 ^ 63 }
    ensures { result ≡ closest q (2 * half) }
{
    let d = half * 2;
    (q + (half - 1) + q / d % 2) / d
}
