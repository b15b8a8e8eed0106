// Numbers and bytes in lower-case hexadecimal, the highest digit first.
ghost use Rattle.std.specs.Prelude.{◌≡◌, ◌+◌, ◌*◌, ◌/◌, ◌≤◌, ◌<◌, ◌^◌, ◌++◌, length, IfSome, MatchOption};
ghost use Rattle.io.specs.Digits.{last_digits, hex_digit_ascii};
ghost use Rattle.lines.specs.Hex.{digit_of, number_from, pattern_of, hex_pair, hex_bytes, decoded_of, hex_of};
ghost use Rattle.promises.specs.Puts.{Puts};

use buffer::{Buffer, Source};

// The value of the digit b.
#[tactic(auto, unfolding(crate::specs::Hex::digit_of))]
pub fn digit(b: u8) -> Option<u8>
    ensures value { result ≡ digit_of b }
    ensures upper_bound { IfSome result (λ d. d < 16) }
{
    match b {
        b'0'..=b'9' => Some(b - b'0'),
        b'a'..=b'f' => Some(b - b'a' + 10),
        _ => None,
    }
}

// The number that s is in digits below base.
pub(crate) fn number(base: u64, s: &[u8]) -> Option<u64>
    requires { base ^ length s.now ≤ 2 ^ 64 }
    ensures { result ≡ number_from base 0 s.now }
{
    let mut n: u64 = 0;
    for b in s {
        let d = digit(*b)? as u64;
        if base <= d {
            return None;
        }
        n = n * base + d;
    }
    Some(n)
}

// The number that s is in exactly `width` digits.
#[tactic(auto, unfolding(crate::specs::Hex::pattern_of))]
pub fn pattern(width: usize, s: &[u8]) -> Option<u64>
    requires { width ≤ 16 }
    ensures { result ≡ pattern_of width s.now }
{
    if s.len() != width {
        return None;
    }
    number(16, s)
}

// Puts n in `width` digits.
pub fn put_hex<const N: usize>(width: usize, n: u64, out: &mut Buffer<N>)
    requires le_width { 1 ≤ width }
    requires width_bound { width ≤ 16 }
    requires n_bound { n < 16 ^ width }
    requires room { length out.old + width ≤ N }
    ensures puts { out.new ≡ out.old ++ last_digits 16 width n }
    ensures size { length out.new ≡ length out.old + width }
{
    let mut text = [0u8; 16];
    let k = io::hex(n, width, &mut text);
    out.extend_from_slice(&text[..k]);
}

// The byte that two digits are.
#[tactic(auto, unfolding(crate::specs::Hex::hex_pair))]
fn pair(a: u8, b: u8) -> Option<u8>
    ensures { result ≡ hex_pair a b }
{
    let high = digit(a)?;
    let low = digit(b)?;
    Some(high * 16 + low)
}

// Decodes s, two digits a byte, up to the first two that are not both digits: puts the bytes at the
// start of out, and answers how many there are.
pub fn bytes(s: &[u8], out: &mut [u8]) -> usize
    requires { length s.now / 2 ≤ length out.old }
    ensures puts { Puts (hex_bytes s.now) out.old result out.new }
    ensures result_in_bounds { 2 * result ≤ length s.now }
{
    for (n, two) in s.chunks_exact(2).enumerate() {
        let Some(b) = pair(two[0], two[1]) else {
            return n;
        };
        out[n] = b;
    }
    s.len() / 2
}

// The bytes that all of s is, two digits each; they are put into out.
#[tactic(auto, unfolding(crate::specs::Hex::decoded_of))]
pub fn decode<'a>(s: &[u8], out: &'a mut [u8]) -> Option<&'a [u8]>
    requires { length s.now / 2 ≤ length out.old }
    ensures { MatchOption result (decoded_of s.now ≡ None) (λ bytes. decoded_of s.now ≡ Some bytes.now) }
{
    let n = bytes(s, out);
    if 2 * n != s.len() {
        return None;
    }
    Some(&out[..n])
}

// The digit of a number below 16.
fn glyph(d: u8) -> u8
    requires { d < 16 }
    ensures { result ≡ hex_digit_ascii d }
{
    if d < 10 { b'0' + d } else { b'a' + (d - 10) }
}

// The digits of bytes, two for each.
#[derive(Clone, Copy)]
struct Digits<'a> {
    bytes: &'a [u8],
}

impl<'a> Source for Digits<'a> {
    ghost made = { λ digits. hex_of digits.bytes.now };

    fn len(&self) -> usize {
        2 * self.bytes.len()
    }

    fn make(&self, out: &mut [u8]) {
        for i in 0..self.bytes.len() {
            let b = self.bytes[i];
            let at = 2 * i;
            out[at] = glyph(b / 16);
            out[at + 1] = glyph(b % 16);
        }
    }
}

// Puts s in two digits a byte, made in their place: with a push for each digit it takes six times as long.
pub fn put_bytes<const N: usize>(s: &[u8], out: &mut Buffer<N>)
    requires { length out.old + 2 * length s.now ≤ N }
    ensures puts { out.new ≡ out.old ++ hex_of s.now }
    ensures size { length out.new ≡ length out.old + 2 * length s.now }
{
    out.extend_from(&Digits { bytes: s });
}
