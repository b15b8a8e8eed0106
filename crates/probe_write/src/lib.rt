// The lines that write a blob: write.
#![tactic(auto)]

ghost use Rattle.std.specs.Prelude.{◌≡◌, ◌+◌, ◌*◌, ◌≤◌, ◌++◌, length};
ghost use Rattle.lines.specs.Parts.{fields_of};
ghost use Rattle.lines.specs.Fields.{exactly, PutsUnlessMalformed};
ghost use Rattle.probe_blobs.specs.Limits.{reply_room, blob_room};
ghost use Rattle.probe_blobs.specs.Rooms.{SameRooms};
ghost use Rattle.probe_write.specs.Write.{write_body_text, write_reply};

use buffer::Buffer;
use lines::hex::{decode, put_bytes};
use lines::text::{numeral, put_malformed, split_field};
use probe_blobs::{LentRooms, kind_of};
use reply_texts::put_refusal;
use vector_types::{Dims, VectorType};

// Writes a blob into `made`, and puts it: W, a tab, and the blob.
fn put_written<const N: usize>(
    kind: VectorType,
    dims: usize,
    body: &[u8],
    made: &mut [u8],
    out: &mut Buffer<N>,
)
    requires made_len { length made.old ≡ blob_room }
    requires room { length out.old + reply_room ≤ N }
    ensures puts { out.new ≡ out.old ++ write_body_text kind dims body.now }
    ensures size { length out.new ≤ length out.old + reply_room }
{
    match blob_writer::write(kind, Dims(dims), body, made) {
        Ok(length) => {
            out.extend_from_slice(b"W\t");
            put_bytes(&made[..length], out);
        }
        Err(refusal) => put_refusal(refusal, out),
    }
}

// Puts the reply to write|K|N|H, of which this is K|N|H.
#[tactic(auto, using(crate::proofs::WriteTexts::fields))]
fn put_write_reply<const N: usize>(
    rest: &[u8],
    rooms: &mut LentRooms,
    out: &mut Buffer<N>,
) -> Option<()>
    requires rest_len_bound { length rest.now ≤ 2 * length rooms.old.decoded.now }
    requires made_len { length rooms.old.made.now ≡ blob_room }
    requires room { length out.old + reply_room ≤ N }
    ensures puts { PutsUnlessMalformed (exactly 3 write_reply (fields_of rest.now)) out.old result out.new }
    ensures size { length out.new ≤ length out.old + reply_room }
    ensures same_rooms { SameRooms rooms.old rooms.new }
{
    let (first, more) = split_field(rest)?;
    let (number, field) = split_field(more)?;
    let kind = kind_of(first).ok()?;
    let dims = numeral(10, number)? as usize;
    let body = decode(field, rooms.decoded)?;
    put_written(kind, dims, body, rooms.made, out);
    Some(())
}

// The reply to write|K|N|H, of which this is K|N|H.
pub fn write_line<const N: usize>(rest: &[u8], rooms: &mut LentRooms, out: &mut Buffer<N>)
    requires rest_len_bound { length rest.now ≤ 2 * length rooms.old.decoded.now }
    requires made_len { length rooms.old.made.now ≡ blob_room }
    requires room { length out.old + reply_room ≤ N }
    ensures puts { out.new ≡ out.old ++ exactly 3 write_reply (fields_of rest.now) }
    ensures size { length out.new ≤ length out.old + reply_room }
    ensures same_rooms { SameRooms rooms.old rooms.new }
{
    if put_write_reply(rest, rooms, out).is_none() {
        put_malformed(out);
    }
}
