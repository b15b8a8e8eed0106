// What vecdist replies to a line.
#![tactic(auto)]

ghost use Rattle.std.specs.Prelude.{◌≡◌, ◌+◌, ◌*◌, ◌≤◌, ◌++◌, length};
ghost use Rattle.vecdist_lines.specs.Limits.{vecdist_room};
ghost use Rattle.vecdist_lines.specs.Line.{asked_of, value_text, named_refusal_text, distance_text, vecdist_reply};
ghost use Rattle.lines.specs.Fields.{PutsUnlessMalformed};

use buffer::Buffer;
use distance::{Distance, Measured, Refused, Which, vector_distance};
use lines::hex::{decode, put_hex};
use lines::text::{put_head, put_malformed, split_field};
use reply_texts::put_detail;
use vector_types::Refusal;

// As many bytes as a line may have before its newline.
pub const LIMIT: usize = 32768;

// Room for any reply.
pub const ROOM: usize = 45;

// The distance that a field names.
pub fn asked_of(field: &[u8]) -> Option<Distance>
    ensures { result ≡ asked_of field.now }
{
    match field {
        b"cos" => Some(Distance::Cos),
        b"l2" => Some(Distance::L2),
        b"dot" => Some(Distance::Dot),
        b"jac" => Some(Distance::Jaccard),
        _ => None,
    }
}

// Puts a mark and the pattern of a distance in sixteen digits.
pub fn put_value<const N: usize>(mark: &[u8], x: f64, out: &mut Buffer<N>)
    requires { length out.old + length mark.now + 16 ≤ N }
    ensures puts { out.new ≡ out.old ++ value_text mark.now x }
    ensures size { length out.new ≡ length out.old + length mark.now + 16 }
{
    out.extend_from_slice(mark);
    put_hex(16, little_endian::bits64(x), out);
}

// Puts R, the number of a refusal, the name of the blob that it is about, and what it carries, separated
// by tabs.
pub fn put_named_refusal<const N: usize>(refusal: Refusal, name: &[u8], out: &mut Buffer<N>)
    requires { length out.old + 44 + length name.now ≤ N }
    ensures puts { out.new ≡ out.old ++ named_refusal_text refusal name.now }
    ensures size { length out.new ≤ length out.old + 44 + length name.now }
{
    out.extend_from_slice(b"R\t");
    put_head(refusal.number() as u64, out);
    out.extend_from_slice(name);
    put_detail(refusal.detail(), out);
}

// Puts an answer: the counts of readings are not shown.
#[tactic(auto, unfolding(crate::specs::Line::distance_text))]
fn put_answer<const N: usize>(answer: Result<Measured, Refused<Which>>, out: &mut Buffer<N>)
    requires { length out.old + vecdist_room ≤ N }
    ensures puts { out.new ≡ out.old ++ distance_text answer }
    ensures size { length out.new ≤ length out.old + vecdist_room }
{
    match answer {
        Ok(measured) => put_value(b"D\t", measured.distance, out),
        Err(refused) => {
            let name = match refused.blob {
                Some(Which::First) => b"a",
                Some(Which::Second) => b"b",
                None => b"-",
            };
            put_named_refusal(refused.refusal, name, out)
        }
    }
}

// Puts the reply to D|A|B, of which A and B are decoded one after the other.
fn put_reply<const N: usize>(line: &[u8], decoded: &mut [u8], out: &mut Buffer<N>) -> Option<()>
    requires line_len_bound { length line.now ≤ 2 * length decoded.old }
    requires room { length out.old + vecdist_room ≤ N }
    ensures puts { PutsUnlessMalformed (vecdist_reply line.now) out.old result out.new }
    ensures size { length out.new ≤ length out.old + vecdist_room }
{
    let (field, blobs) = split_field(line)?;
    let (first, second) = split_field(blobs)?;
    let distance = asked_of(field)?;
    let (front, back) = decoded.split_at_mut(first.len() / 2);
    let a = decode(first, front)?;
    let b = decode(second, back)?;
    put_answer(vector_distance(distance, a, b), out);
    Some(())
}

// Puts the reply to a line; `decoded` is room to work in.
pub fn answer<const N: usize>(line: &[u8], decoded: &mut [u8], out: &mut Buffer<N>)
    requires line_len_bound { length line.now ≤ 2 * length decoded.old }
    requires room { length out.old + vecdist_room ≤ N }
    ensures puts { out.new ≡ out.old ++ vecdist_reply line.now }
    ensures size { length out.new ≤ length out.old + vecdist_room }
{
    if put_reply(line, decoded, out).is_none() {
        put_malformed(out);
    }
}
