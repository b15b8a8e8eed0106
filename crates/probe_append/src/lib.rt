// The lines that append a blob to an fvecs file: append.
#![tactic(auto)]

ghost use Rattle.std.specs.Prelude.{◌≡◌, ◌+◌, ◌*◌, ◌≤◌, ◌<◌, ◌++◌, ◌⊎◌, length, take, IfSome, MatchOption};
ghost use Rattle.lines.specs.Hex.{decoded_of};
ghost use Rattle.lines.specs.Parts.{fields_of};
ghost use Rattle.lines.specs.Fields.{exactly, PutsUnlessMalformed};
ghost use Rattle.vecs.specs.Append.{append_outcome};
ghost use Rattle.probe_blobs.specs.Limits.{reply_room, blob_room};
ghost use Rattle.probe_blobs.specs.Rooms.{SameRooms};
ghost use Rattle.probe_append.specs.Appending.{filled_text, outcome_text, append_reply};

use buffer::Buffer;
use lines::hex::{bytes, decode, put_bytes};
use lines::text::{numeral, put_head, put_malformed, split_field};
use probe_blobs::LentRooms;
use reply_texts::put_refusal;

// Puts a buffer and its new fill: A, a tab, the fill, a tab, and the buffer.
fn put_filled<const N: usize>(fill: usize, buffer: &[u8], out: &mut Buffer<N>)
    requires buffer_len_bound { length buffer.now ≤ blob_room }
    requires room { length out.old + reply_room ≤ N }
    ensures puts { out.new ≡ out.old ++ filled_text fill buffer.now }
    ensures size { length out.new ≤ length out.old + reply_room }
{
    out.extend_from_slice(b"A\t");
    put_head(fill as u64, out);
    put_bytes(buffer, out);
}

// Appends a blob to a buffer, and puts the new fill and the buffer.
fn put_appended<const N: usize>(fill: usize, blob: &[u8], buffer: &mut [u8], out: &mut Buffer<N>)
    requires buffer_len_bound { length buffer.old ≤ blob_room }
    requires room { length out.old + reply_room ≤ N }
    ensures puts { out.new ≡ out.old ++ outcome_text (append_outcome blob.now buffer.old fill) }
    ensures size { length out.new ≤ length out.old + reply_room }
{
    match vecs::fvecs_append(blob, buffer, fill) {
        Ok(filled) => put_filled(filled, buffer, out),
        Err(refusal) => put_refusal(refusal, out),
    }
}

// Decodes A into `made`, and answers how many bytes it is; none where it is not bytes, or has more
// digits than `made` has room for.
#[tactic(auto, unfolding(lines::specs::Hex::decoded_of))]
fn decode_buffer(field: &[u8], made: &mut [u8]) -> Option<usize>
    requires { length made.old ≡ blob_room }
    ensures buffer { MatchOption result ((2 * blob_room < length field.now) ⊎ (decoded_of field.now ≡ None)) (λ size. decoded_of field.now ≡ Some (take size made.new)) }
    ensures upper_bound { IfSome result (λ size. size ≤ blob_room) }
{
    if 2 * made.len() < field.len() {
        return None;
    }
    let size = bytes(field, made);
    if 2 * size != field.len() {
        return None;
    }
    Some(size)
}

// Puts the reply to append|N|A|H, of which this is N|A|H. A goes into `made`, where it is appended to.
#[tactic(auto, using(crate::proofs::AppendTexts::fields))]
fn put_append_reply<const N: usize>(
    rest: &[u8],
    rooms: &mut LentRooms,
    out: &mut Buffer<N>,
) -> Option<()>
    requires rest_len_bound { length rest.now ≤ 2 * length rooms.old.decoded.now }
    requires made_len { length rooms.old.made.now ≡ blob_room }
    requires room { length out.old + reply_room ≤ N }
    ensures puts { PutsUnlessMalformed (exactly 3 append_reply (fields_of rest.now)) out.old result out.new }
    ensures size { length out.new ≤ length out.old + reply_room }
    ensures same_rooms { SameRooms rooms.old rooms.new }
{
    let (number, more) = split_field(rest)?;
    let (first, second) = split_field(more)?;
    let fill = numeral(10, number)? as usize;
    let size = decode_buffer(first, rooms.made)?;
    let blob = decode(second, rooms.decoded)?;
    put_appended(fill, blob, &mut rooms.made[..size], out);
    Some(())
}

// The reply to append|N|A|H, of which this is N|A|H.
pub fn append_line<const N: usize>(rest: &[u8], rooms: &mut LentRooms, out: &mut Buffer<N>)
    requires rest_len_bound { length rest.now ≤ 2 * length rooms.old.decoded.now }
    requires made_len { length rooms.old.made.now ≡ blob_room }
    requires room { length out.old + reply_room ≤ N }
    ensures puts { out.new ≡ out.old ++ exactly 3 append_reply (fields_of rest.now) }
    ensures size { length out.new ≤ length out.old + reply_room }
    ensures same_rooms { SameRooms rooms.old rooms.new }
{
    if put_append_reply(rest, rooms, out).is_none() {
        put_malformed(out);
    }
}
