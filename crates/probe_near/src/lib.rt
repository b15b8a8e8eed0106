// The lines about a probe and two candidates: near.
#![tactic(auto)]

ghost use Rattle.std.specs.Prelude.{◌≡◌, ◌+◌, ◌*◌, ◌≤◌, ◌++◌, length};
ghost use Rattle.lines.specs.Parts.{fields_of};
ghost use Rattle.lines.specs.Fields.{exactly, PutsUnlessMalformed};
ghost use Rattle.vecdist_lines.specs.Limits.{vecdist_room};
ghost use Rattle.probe_near.specs.Near.{near_text, nearer_text, near_reply};

use buffer::Buffer;
use distance::Refused;
use lines::hex::decode;
use lines::text::{put_malformed, split_field};
use nearer::{Among, Candidate, Near, nearer};
use reply_texts::put_field;
use vecdist_lines::{asked_of, put_named_refusal, put_value};

// Puts a mark, a candidate's distance and its readings.
fn put_near<const N: usize>(mark: &[u8], found: Near, out: &mut Buffer<N>)
    requires { length out.old + length mark.now + 37 ≤ N }
    ensures puts { out.new ≡ out.old ++ near_text mark.now found }
    ensures size { length out.new ≤ length out.old + length mark.now + 37 }
{
    put_value(mark, found.distance, out);
    put_field(found.readings.0 as u64, out);
}

// Puts which candidate is nearer, its distance and its readings, or a refusal.
#[tactic(auto, unfolding(crate::specs::Near::nearer_text))]
fn put_nearer<const N: usize>(answer: Result<Near, Refused<Among>>, out: &mut Buffer<N>)
    requires { length out.old + vecdist_room ≤ N }
    ensures puts { out.new ≡ out.old ++ nearer_text answer }
    ensures size { length out.new ≤ length out.old + vecdist_room }
{
    match answer {
        Ok(found) => {
            let mark = match found.candidate {
                Candidate::First => b"N\t1\t",
                Candidate::Second => b"N\t2\t",
            };
            put_near(mark, found, out)
        }
        Err(refused) => {
            let name = match refused.blob {
                Some(Among::Probe) => b"p",
                Some(Among::First) => b"a",
                Some(Among::Second) => b"b",
                None => b"-",
            };
            put_named_refusal(refused.refusal, name, out)
        }
    }
}

// Puts the reply to near|D|P|A|B, of which this is D|P|A|B; the blobs are decoded one after the other.
fn put_reply<const N: usize>(rest: &[u8], decoded: &mut [u8], out: &mut Buffer<N>) -> Option<()>
    requires rest_len_bound { length rest.now ≤ 2 * length decoded.old }
    requires room { length out.old + vecdist_room ≤ N }
    ensures puts { PutsUnlessMalformed (exactly 4 near_reply (fields_of rest.now)) out.old result out.new }
    ensures size { length out.new ≤ length out.old + vecdist_room }
{
    let (field, blobs) = split_field(rest)?;
    let (probe, candidates) = split_field(blobs)?;
    let (first, second) = split_field(candidates)?;
    let distance = asked_of(field)?;
    let (front, back) = decoded.split_at_mut(probe.len() / 2);
    let (middle, end) = back.split_at_mut(first.len() / 2);
    let p = decode(probe, front)?;
    let a = decode(first, middle)?;
    let b = decode(second, end)?;
    put_nearer(nearer(distance, p, a, b), out);
    Some(())
}

// The reply to near|D|P|A|B, of which this is D|P|A|B.
pub fn near_line<const N: usize>(rest: &[u8], decoded: &mut [u8], out: &mut Buffer<N>)
    requires rest_len_bound { length rest.now ≤ 2 * length decoded.old }
    requires room { length out.old + vecdist_room ≤ N }
    ensures puts { out.new ≡ out.old ++ exactly 4 near_reply (fields_of rest.now) }
    ensures size { length out.new ≤ length out.old + vecdist_room }
{
    if put_reply(rest, decoded, out).is_none() {
        put_malformed(out);
    }
}
