// Reading a blob in a mode.
ghost use Rattle.std.specs.Prelude.{◌≡◌, []};
ghost use Rattle.vector_types.specs.Read.{read_of};
ghost use Rattle.answer_fields.specs.Fields.{export_outcome};
ghost use Rattle.answer_fields.specs.Exported.{read_export};
ghost use Rattle.fulandewu.specs.Modes.{mode_of};

use answer_fields::{Answer, report_view};
use vector_types::Mode;

// The mode that a byte names: 0 the plain one, 1 the strict one, and every other byte too. The bytes are
// the C interface's and `Mode` is another crate's, so this is no From.
fn mode_of(byte: u8) -> Mode
    ensures { result ≡ mode_of byte }
{
    match byte {
        0 => Mode::Plain,
        _ => Mode::Strict,
    }
}

// What a blob shows in a mode: its type byte (1, 2, 3, 4 or 9), its dims, and how many of its first bytes
// are its body.
pub fn fulandewu_read(mode: u8, blob: &[u8], answer: &mut Answer) -> u32
    ensures { export_outcome result answer.new [] ≡ read_export (read_of (mode_of mode) blob.now) answer.old }
{
    let found = vector_types::read(mode_of(mode), blob);
    report_view(found, answer)
}
