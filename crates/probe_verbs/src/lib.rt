// What a line of vecprobe asks for.
#![tactic(auto)]

ghost use Rattle.std.specs.Prelude.{◌≡◌};
ghost use Rattle.probe_verbs.specs.Verbs.{verb_of};

use probe_floats::Work;
use probe_vecs::FileKind;
use vector_types::Mode;

// What a line asks for, by its first field.
#[derive(Clone, Copy)]
pub enum Verb {
    Root,
    Float(Work),
    Read(Mode),
    Write,
    Convert,
    Near,
    File(FileKind),
    Append,
}

// What a word asks for.
#[tactic(auto, unfolding(crate::specs::Verbs::verb_of), using(crate::proofs::Letters::letters))]
pub fn verb_of(word: &[u8]) -> Option<Verb>
    ensures { result ≡ verb_of word.now }
{
    match word {
        b"root" => Some(Verb::Root),
        b"narrow" => Some(Verb::Float(Work::Narrow)),
        b"widen" => Some(Verb::Float(Work::Widen)),
        b"trunc" => Some(Verb::Float(Work::Trunc)),
        b"read" => Some(Verb::Read(Mode::Plain)),
        b"strict" => Some(Verb::Read(Mode::Strict)),
        b"write" => Some(Verb::Write),
        b"conv" => Some(Verb::Convert),
        b"near" => Some(Verb::Near),
        b"fvecs" => Some(Verb::File(FileKind::Fvecs)),
        b"bvecs" => Some(Verb::File(FileKind::Bvecs)),
        b"append" => Some(Verb::Append),
        _ => None,
    }
}
