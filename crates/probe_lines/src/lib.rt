// What vecprobe replies to a line, by its first field.
#![tactic(auto)]

ghost use Rattle.std.specs.Prelude.{◌≡◌, ◌+◌, ◌*◌, ◌≤◌, ◌++◌, length};
ghost use Rattle.lines.specs.Parts.{fields_of};
ghost use Rattle.lines.specs.Fields.{PutsUnlessMalformed};
ghost use Rattle.probe_blobs.specs.Limits.{scratch_room, blob_room};
ghost use Rattle.probe_blobs.specs.Rooms.{SameRooms};
ghost use Rattle.probe_lines.specs.Limits.{vecprobe_limit};
ghost use Rattle.probe_lines.specs.Line.{verb_reply, vecprobe_reply};

use buffer::Buffer;
use lines::text::{put_malformed, split_field};
use probe_blobs::LentRooms;
use probe_verbs::{Verb, verb_of};

// The sizes of rooms in which any line can be worked on.
pub use probe_blobs::{BLOB, DECODED, SCRATCH};

// As many bytes as a line may have before its newline; no reply has more.
pub const LIMIT: usize = 1100000;

// Room for a numbered reply: twenty digits, a tab, the reply to a line, and a newline.
pub const NUMBERED_REPLY: usize = LIMIT + 22;

// Puts the reply to a line, of which the verb is found and this is the rest.
#[tactic(auto, unfolding(crate::specs::Line::verb_reply))]
fn put_reply_to<const N: usize>(verb: Verb, rest: &[u8], rooms: &mut LentRooms, out: &mut Buffer<N>)
    requires rest_len_bound { length rest.now ≤ 2 * length rooms.old.decoded.now }
    requires scratch_len { length rooms.old.scratch.now ≡ scratch_room }
    requires made_len { length rooms.old.made.now ≡ blob_room }
    requires room { length out.old + vecprobe_limit ≤ N }
    ensures puts { out.new ≡ out.old ++ verb_reply verb (fields_of rest.now) }
    ensures size { length out.new ≤ length out.old + vecprobe_limit }
    ensures same_rooms { SameRooms rooms.old rooms.new }
{
    match verb {
        Verb::Root => probe_floats::root_line(rest, out),
        Verb::Float(work) => probe_floats::float_line(work, rest, out),
        Verb::Read(mode) => probe_blobs::read_line(mode, rest, rooms.decoded, out),
        Verb::Write => probe_write::write_line(rest, rooms, out),
        Verb::Convert => probe_blobs::convert_line(rest, rooms, out),
        Verb::Near => probe_near::near_line(rest, rooms.decoded, out),
        Verb::File(kind) => probe_vecs::file_line(kind, rest, rooms, out),
        Verb::Append => probe_append::append_line(rest, rooms, out),
    }
}

// Puts the reply to a line of two or more fields, of which the first is a verb.
fn put_reply<const N: usize>(line: &[u8], rooms: &mut LentRooms, out: &mut Buffer<N>) -> Option<()>
    requires line_len_bound { length line.now ≤ 2 * length rooms.old.decoded.now }
    requires scratch_len { length rooms.old.scratch.now ≡ scratch_room }
    requires made_len { length rooms.old.made.now ≡ blob_room }
    requires room { length out.old + vecprobe_limit ≤ N }
    ensures puts { PutsUnlessMalformed (vecprobe_reply line.now) out.old result out.new }
    ensures size { length out.new ≤ length out.old + vecprobe_limit }
    ensures same_rooms { SameRooms rooms.old rooms.new }
{
    let (word, rest) = split_field(line)?;
    let verb = verb_of(word)?;
    put_reply_to(verb, rest, rooms, out);
    Some(())
}

// Puts the reply to a line.
pub fn answer<const N: usize>(line: &[u8], rooms: &mut LentRooms, out: &mut Buffer<N>)
    requires line_len_bound { length line.now ≤ 2 * length rooms.old.decoded.now }
    requires scratch_len { length rooms.old.scratch.now ≡ scratch_room }
    requires made_len { length rooms.old.made.now ≡ blob_room }
    requires room { length out.old + vecprobe_limit ≤ N }
    ensures puts { out.new ≡ out.old ++ vecprobe_reply line.now }
    ensures size { length out.new ≤ length out.old + vecprobe_limit }
    ensures same_rooms { SameRooms rooms.old rooms.new }
{
    if put_reply(line, rooms, out).is_none() {
        put_malformed(out);
    }
}
