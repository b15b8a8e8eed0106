// Distances of two blobs, line by line: reads standard input piece by piece, and writes the replies.
#![tactic(auto)]

ghost use Rattle.std.specs.Prelude.{◌≡◌};
ghost use Rattle.lines.specs.Printed.{limited};
ghost use Rattle.vecdist_lines.specs.Limits.{vecdist_limit, vecdist_room};
ghost use Rattle.vecdist_lines.specs.Line.{vecdist_reply};
ghost use Rattle.vecdist.specs.Printed.{reply_to};
ghost use Rattle.std.proofs.Common.{rules};

use buffer::Buffer;
use line_stream::ending::exit_code;
use serving::{Replies, run};
use std::process::ExitCode;
use vecdist_lines::{LIMIT, ROOM};

// Room for the bytes that a line has in hexadecimal.
const DECODED: usize = LIMIT / 2;

// Room for the line that is kept, one byte more than it may have so that a longer one is seen, and for a
// piece of the input behind it.
const INPUT: usize = LIMIT + 1 + 65536;

// Room for replies that are not written yet.
const OUTPUT: usize = 65536;

// Replies with distances, and the room for the blobs of a line.
#[derive(Drop)]
struct Distances {
    decoded: [u8; DECODED],
}

impl Distances {
    // What is served is what is printed.
    fn new() -> Self
        ensures { limited ⟦<Distances as Replies<OUTPUT>>⟧.LIMIT ⟦<Distances as Replies<OUTPUT>>⟧.reply_to ≡ reply_to }
    {
        Distances {
            decoded: [0; DECODED],
        }
    }
}

impl Replies<OUTPUT> for Distances {
    ghost LIMIT = { vecdist_limit };

    ghost ROOM = { vecdist_room };

    ghost reply_to = { vecdist_reply };

    const LIMIT: usize = LIMIT;

    const ROOM: usize = ROOM;

    fn put_reply(&mut self, line: &[u8], out: &mut Buffer<OUTPUT>) {
        vecdist_lines::answer(line, &mut self.decoded, out)
    }

    ghost some_room = { Prim.search rules };

    ghost room_fits = { Prim.search rules };
}

fn main(rt: HostRuntime) -> ExitCode {
    let ran = run(
        &mut Distances::new(),
        &mut rt.stdin(),
        &mut rt.stdout(),
        &mut [0; INPUT],
        &mut Buffer::new(),
    );
    exit_code(&rt, "vecdist", ran)
}
