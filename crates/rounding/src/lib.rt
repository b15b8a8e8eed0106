// Rounding, worked out from bits: a float to the other width, its square root, and its whole part.
//
// Each public function answers for every pattern, and has no `requires`. What is nearest is said by
// comparing whole numbers (`specs/Nearest.antt`): no step of the code stands in what the contracts of
// these functions name.
#![tactic(auto)]

mod narrowing;
mod pattern;
mod rooting;
mod whole;

ghost use Rattle.std.specs.Prelude.{◌≡◌, from_bits, to_bits};
ghost use Rattle.std.specs.Float.{binary32, binary64};
ghost use Rattle.rounding.specs.Truncate.{truncated};

pub use narrowing::{narrow, narrow_bits};
pub use rooting::{root32, root64};

// x as an f64, which holds every f32: Rust's `x as f64`.
pub fn widen(x: f32) -> f64
    ensures { result ≡ x }
{
    std::num::f32_to_f64_with_nan(x)
}

// The same from the pattern of an f32 to that of an f64, a NaN's included.
pub fn widen_bits(b: u32) -> u64
    ensures { result ≡ to_bits binary64 (from_bits binary32 b) }
{
    if b % 0x8000_0000 <= 0x7f80_0000 {
        f64::to_bits(f32::from_bits(b) as f64)
    } else {
        0x7ff8_0000_0000_0000
    }
}

// x cut toward zero and held in 0..255, a NaN giving 0: Rust's `x as u8`.
pub fn truncate(x: f32) -> u8
    ensures { result ≡ truncated x }
{
    if x >= 1.0 {
        if x < 256.0 {
            let b = f32::to_bits(x);
            ((b % 0x80_0000 + 0x80_0000) >> (150 - b / 0x80_0000)) as u8
        } else {
            255
        }
    } else {
        0
    }
}
