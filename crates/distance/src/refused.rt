// What is refused of several blobs, and which of them the refusal is about.
ghost use Rattle.std.specs.Prelude.{◌≡◌, IfOk};
ghost use Rattle.std.specs.Result.{result_map_both};
ghost use Rattle.distance.specs.Answer.{about_none, read_as};

use vector_types::{Mode, Refusal, Vector};

// A refusal, and the blob that it is about, if it is about one alone. B names the blobs.
#[derive(Clone, Copy, PartialEq, Eq)]
pub struct Refused<B> {
    pub refusal: Refusal,
    pub blob: Option<B>,
}

// What is found only of several blobs is about none of them alone.
impl<B> From<Refusal> for Refused<B> {
    ghost from_gives = { λ refusal refused. refused ≡ about_none refusal };

    fn from(refusal: Refusal) -> Self {
        Refused {
            refusal,
            blob: None,
        }
    }
}

// The vector that a blob shows in a mode; what is refused is about the blob, by its name.
pub fn vector_as<B: Copy>(name: B, mode: Mode, blob: &[u8]) -> Result<Vector<'_>, Refused<B>>
    ensures read { result_map_both (λ vector. vector.view) (λ refused. refused) result ≡ read_as name mode blob.now }
    ensures same { IfOk result (λ vector. vector.blob ≡ blob.entry) }
{
    Vector::from_slice(mode, blob).map_err(|refusal| Refused {
        refusal,
        blob: Some(name),
    })
}
