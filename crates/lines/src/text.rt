// The fields of a line, and numbers in decimal.
ghost use Rattle.std.specs.Prelude.{◌≡◌, ◌+◌, ◌≤◌, ◌<◌, [], ◌∷◌, ◌++◌, length, IfSome, MatchOption};
ghost use Rattle.lines.specs.Decimal.{decimal_of, numeral_of};
ghost use Rattle.lines.specs.Printed.{head_of};
ghost use Rattle.lines.specs.Parts.{fields_of};
ghost use Rattle.lines.specs.Fields.{malformed};

use crate::hex::number;
use buffer::Buffer;

// The first field of a line, and the line that follows its tab; none where the line is one field.
pub fn split_field(line: &[u8]) -> Option<(&[u8], &[u8])>
    ensures fields { MatchOption result (fields_of line.now ≡ line.now ∷ []) (λ p. fields_of line.now ≡ p.0.now ∷ fields_of p.1.now) }
    ensures lengths { IfSome result (λ p. length line.now ≡ length p.0.now + length p.1.now + 1) }
{
    let end = byte_slices::find(line, b'\t')?;
    Some((&line[..end], &line[end + 1..]))
}

// The number that s is in 1 to `most` digits, which may have zeros in front.
#[tactic(auto, unfolding(crate::specs::Decimal::numeral_of))]
pub fn numeral(most: usize, s: &[u8]) -> Option<u64>
    requires { most ≤ 19 }
    ensures { result ≡ numeral_of most s.now }
{
    if s.is_empty() {
        return None;
    }
    if most < s.len() {
        return None;
    }
    number(10, s)
}

// Puts n in decimal.
pub fn put_decimal<const N: usize>(n: u64, out: &mut Buffer<N>)
    requires { length out.old + 20 ≤ N }
    ensures puts { out.new ≡ out.old ++ decimal_of n }
    ensures size { length out.new ≤ length out.old + 20 }
{
    let mut digits = [0u8; 20];
    let k = io::decimal(n, &mut digits);
    out.extend_from_slice(&digits[..k]);
}

// Puts what stands before the reply to line number n: n and a tab.
pub fn put_head<const N: usize>(n: u64, out: &mut Buffer<N>)
    requires { length out.old + 21 ≤ N }
    ensures puts { out.new ≡ out.old ++ head_of n }
    ensures size { length out.new ≤ length out.old + 21 }
{
    put_decimal(n, out);
    out.push(b'\t');
}

// Puts X, the reply to a malformed line.
pub fn put_malformed<const N: usize>(out: &mut Buffer<N>)
    requires { length out.old < N }
    ensures { out.new ≡ out.old ++ malformed }
{
    out.push(b'X');
}
