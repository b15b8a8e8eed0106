// Replies to the lines of standard input, for service staff and for differential runs: reads it piece
// by piece, and writes the replies.
#![tactic(auto)]

ghost use Rattle.std.specs.Prelude.{◌≡◌, length};
ghost use Rattle.std.proofs.Common.{rules};
ghost use Rattle.lines.specs.Printed.{limited};
ghost use Rattle.line_stream.specs.Inner.Rooms.{input_room};
ghost use Rattle.probe_lines.specs.Limits.{vecprobe_limit};
ghost use Rattle.probe_lines.specs.Line.{vecprobe_reply};
ghost use Rattle.vecprobe.specs.Printed.{reply_to};

use buffer::Buffer;
use line_stream::ending::exit_code;
use probe_blobs::{LentRooms, WorkRooms};
use probe_lines::{LIMIT, NUMBERED_REPLY};
use serving::{Replies, run};
use std::process::ExitCode;

// Room for the line that is kept, one byte more than it may have so that a longer one is seen, and for a
// piece of the input behind it.
const INPUT: usize = LIMIT + 1 + 65536;

fn input_room() -> [u8; INPUT]
    ensures { input_room vecprobe_limit ≡ length result }
{
    [0; INPUT]
}

// Room for replies that are not written yet.
const OUTPUT: usize = NUMBERED_REPLY + 65536;

// Replies to what staff type, and the room to work in.
#[derive(Drop)]
struct Probe {
    rooms: WorkRooms,
}

impl Probe {
    // What is served is what is printed.
    fn new() -> Self
        ensures { limited ⟦<Probe as Replies<OUTPUT>>⟧.LIMIT ⟦<Probe as Replies<OUTPUT>>⟧.reply_to ≡ reply_to }
    {
        Probe {
            rooms: WorkRooms::new(),
        }
    }
}

impl Replies<OUTPUT> for Probe {
    ghost LIMIT = { vecprobe_limit };

    ghost ROOM = { vecprobe_limit };

    ghost reply_to = { vecprobe_reply };

    const LIMIT: usize = LIMIT;

    const ROOM: usize = LIMIT;

    fn put_reply(&mut self, line: &[u8], out: &mut Buffer<OUTPUT>) {
        let mut rooms = LentRooms {
            decoded: &mut self.rooms.decoded,
            scratch: &mut self.rooms.scratch,
            made: &mut self.rooms.made,
        };
        probe_lines::answer(line, &mut rooms, out)
    }

    ghost some_room = { Prim.search rules };

    ghost room_fits = { Prim.search rules };
}

fn main(rt: HostRuntime) -> ExitCode {
    let mut input = input_room();
    let ran = run(
        &mut Probe::new(),
        &mut rt.stdin(),
        &mut rt.stdout(),
        &mut input,
        &mut Buffer::new(),
    );
    exit_code(&rt, "vecprobe", ran)
}
