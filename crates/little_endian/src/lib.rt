// Numbers and floats in little-endian bytes, at any offset of a slice.
#![tactic(auto)]

ghost use Rattle.std.specs.Prelude.{◌≡◌, ◌+◌, ◌≤◌, ◌<◌, length, get_or};
ghost use Rattle.std.specs.Float.{binary32, binary64};
ghost use Rattle.std.specs.Float.Ieee.{of_bits, to_bits};
ghost use Rattle.little_endian.specs.Bytes.{number_at, bytes_of, put, float_bytes, u32_at, f32_at, f64_at};

// The float of a pattern; every NaN's pattern is the one NaN.
pub fn f32_of(bits: u32) -> f32
    ensures { result ≡ of_bits binary32 bits }
{
    if bits % 0x8000_0000 <= 0x7f80_0000 {
        f32::from_bits(bits)
    } else {
        0.0 / 0.0
    }
}

pub fn f64_of(bits: u64) -> f64
    ensures { result ≡ of_bits binary64 bits }
{
    if bits % 0x8000_0000_0000_0000 <= 0x7ff0_0000_0000_0000 {
        f64::from_bits(bits)
    } else {
        0.0 / 0.0
    }
}

// The pattern of a float; of a NaN it is 7fc00000 or 7ff8000000000000.
pub fn bits32(x: f32) -> u32
    ensures { result ≡ to_bits binary32 x }
{
    if x != x { 0x7fc0_0000 } else { f32::to_bits(x) }
}

pub fn bits64(x: f64) -> u64
    ensures { result ≡ to_bits binary64 x }
{
    if x != x {
        0x7ff8_0000_0000_0000
    } else {
        f64::to_bits(x)
    }
}

// Byte k from an offset on.
fn byte(s: &[u8], at: usize, k: usize) -> u8
    requires { at + k < length s.now }
    ensures { result ≡ get_or s.now (at + k) 0 }
{
    s[at + k]
}

// The number at an offset. Of bytes joined by `|` the compiler makes one load, of a sum of eight not always.
pub fn u32_at(s: &[u8], at: usize) -> u32
    requires { at + 4 ≤ length s.now }
    ensures { result ≡ u32_at s.now at }
{
    byte(s, at, 0) as u32
        | byte(s, at, 1) as u32 * 0x100
        | byte(s, at, 2) as u32 * 0x1_0000
        | byte(s, at, 3) as u32 * 0x100_0000
}

pub fn u64_at(s: &[u8], at: usize) -> u64
    requires { at + 8 ≤ length s.now }
    ensures { result ≡ number_at 8 s.now at }
{
    byte(s, at, 0) as u64
        | byte(s, at, 1) as u64 * 0x100
        | byte(s, at, 2) as u64 * 0x1_0000
        | byte(s, at, 3) as u64 * 0x100_0000
        | byte(s, at, 4) as u64 * 0x1_0000_0000
        | byte(s, at, 5) as u64 * 0x100_0000_0000
        | byte(s, at, 6) as u64 * 0x1_0000_0000_0000
        | byte(s, at, 7) as u64 * 0x100_0000_0000_0000
}

// The float at an offset.
pub fn f32_at(s: &[u8], at: usize) -> f32
    requires { at + 4 ≤ length s.now }
    ensures { result ≡ f32_at s.now at }
{
    f32_of(u32_at(s, at))
}

pub fn f64_at(s: &[u8], at: usize) -> f64
    requires { at + 8 ≤ length s.now }
    ensures { result ≡ f64_at s.now at }
{
    f64_of(u64_at(s, at))
}

// The f32 at an offset, as an f64, which holds every f32: one test of its pattern serves both.
pub fn wide_at(s: &[u8], at: usize) -> f64
    requires { at + 4 ≤ length s.now }
    ensures { result ≡ f32_at s.now at }
{
    let pattern = u32_at(s, at);
    if pattern % 0x8000_0000 <= 0x7f80_0000 {
        f32::from_bits(pattern) as f64
    } else {
        0.0 / 0.0
    }
}

// A number's two, four or eight bytes, written at an offset as two halves; the other bytes stay.
fn put_u16(out: &mut [u8], at: usize, v: u16)
    requires { at + 2 ≤ length out.old }
    ensures { out.new ≡ put out.old at (bytes_of 2 v) }
{
    out[at] = (v % 0x100) as u8;
    out[at + 1] = (v / 0x100) as u8;
}

pub fn put_u32(out: &mut [u8], at: usize, v: u32)
    requires { at + 4 ≤ length out.old }
    ensures { out.new ≡ put out.old at (bytes_of 4 v) }
{
    put_u16(out, at, (v % 0x1_0000) as u16);
    put_u16(out, at + 2, (v / 0x1_0000) as u16);
}

pub fn put_u64(out: &mut [u8], at: usize, v: u64)
    requires { at + 8 ≤ length out.old }
    ensures { out.new ≡ put out.old at (bytes_of 8 v) }
{
    put_u32(out, at, (v % 0x1_0000_0000) as u32);
    put_u32(out, at + 4, (v / 0x1_0000_0000) as u32);
}

// A float's bytes, written at an offset.
pub fn put_f32(out: &mut [u8], at: usize, x: f32)
    requires { at + 4 ≤ length out.old }
    ensures { out.new ≡ put out.old at (float_bytes binary32 x) }
{
    put_u32(out, at, bits32(x));
}

pub fn put_f64(out: &mut [u8], at: usize, x: f64)
    requires { at + 8 ≤ length out.old }
    ensures { out.new ≡ put out.old at (float_bytes binary64 x) }
{
    put_u64(out, at, bits64(x));
}
