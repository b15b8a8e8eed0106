// Reading a blob: its kind, dims and body, or why it is refused.
ghost use Rattle.std.specs.Prelude.{◌≡◌, ◌+◌, ◌*◌, ◌/◌, ◌≤◌, ◌<◌, cond, not, ltb, eqb, length, Ok};
ghost use Rattle.vector_types.specs.Answers.{accepted_as};
ghost use Rattle.vector_types.specs.Search.{found_index};
ghost use Rattle.vector_types.specs.Layout.{max_blob_length, max_dims, named_kind, is_outside};
ghost use Rattle.vector_types.specs.Inner.Outside.{first_outside};
ghost use Rattle.vector_types.specs.Read.{read_of};
ghost use Rattle.vector_types.specs.declared.VectorType.TheVariants.{Float32Sparse, Float1Bit, Float8};
ghost use Rattle.vector_types.specs.declared.Refusal.TheVariants.{BodyLengthUnfit, DimsOverLimit};
ghost use Rattle.vector_types.specs.declared.Mode.TheVariants.{Plain};

use crate::strictness::check_strict;
use crate::{
    Dims, KindError, MAX_BLOB_LENGTH, MAX_DIMS, Mode, Refusal, TrailingBits, TrailingBytes,
    VectorType, View,
};

// Shows a view, unless it has too many dims.
fn show(kind: VectorType, dims: Dims, length: usize) -> Result<View, Refusal>
    ensures { result ≡ cond (ltb max_dims dims.0) (Err DimsOverLimit) (accepted_as kind dims.0 length) }
{
    if MAX_DIMS < dims.0 {
        return Err(Refusal::DimsOverLimit);
    }
    Ok(View::of(kind, dims, length))
}

// A dense blob of n bytes, of which each element has `width`.
fn dense(kind: VectorType, width: usize, n: usize) -> Result<View, Refusal>
    requires { 0 < width }
    ensures { result ≡ cond (not (eqb n (width * (n / width)))) (Err BodyLengthUnfit)
        (cond (ltb max_dims (n / width)) (Err DimsOverLimit) (accepted_as kind (n / width) n)) }
{
    if n % width != 0 {
        return Err(Refusal::BodyLengthUnfit);
    }
    show(kind, Dims(n / width), n)
}

// The next multiple of 4.
pub fn align4(n: usize) -> usize
    requires { n ≤ max_blob_length }
    ensures { result ≡ 4 * ((n + 3) / 4) }
{
    4 * ((n + 3) / 4)
}

// The first of the count entries of a sparse body whose index is not below dims, if there is one.
#[tactic(auto, using(crate::proofs::Some::found_none))]
fn first_index_outside(s: &[u8], count: usize, dims: usize) -> Option<usize>
    requires { 8 * count ≤ length s.now }
    ensures { result ≡ found_index (is_outside s.now count dims) count }
{
    for entry in 0..count {
        let index = little_endian::u32_at(s, 4 * count + 4 * entry);
        if dims <= index as usize {
            return Some(entry);
        }
    }
    None
}

// The first entry of a sparse body whose index is not below dims, if there is one; another kind has none.
pub fn first_outside(kind: VectorType, dims: Dims, body: &[u8]) -> Option<usize>
    ensures { result ≡ first_outside kind dims.0 body.now }
{
    match kind {
        VectorType::Float32Sparse => first_index_outside(body, body.len() / 8, dims.0),
        _ => None,
    }
}

// What a blob names: Float32Dense if its length is even, else what its last byte names.
#[tactic(auto, unfolding(crate::specs::Layout::named_kind))]
fn named_kind(blob: &[u8]) -> Result<VectorType, KindError>
    ensures { result ≡ named_kind blob.now }
{
    let length = blob.len();
    if length % 2 == 0 {
        return Ok(VectorType::Float32Dense);
    }
    VectorType::try_from(blob[length - 1])
}

// A blob that is not too long, and the kind that it names.
#[derive(Clone, Copy)]
struct NamedBlob<'a> {
    kind: VectorType,
    blob: &'a [u8],
    ghost short: { length blob.now ≤ max_blob_length },
    ghost named: { named_kind blob.now ≡ Ok kind },
}

impl NamedBlob<'_> {
    // A 1-bit blob.
    #[tactic(auto, using(crate::proofs::ByKind::readings_by_kind))]
    fn one_bit(self) -> Result<View, Refusal>
        requires { self.kind ≡ Float1Bit }
        ensures { result ≡ read_of Plain self.entry.blob.now }
    {
        let n = self.blob.len() - 1;
        if n == 0 {
            return Err(Refusal::NoTrailingCount);
        }
        let trailing = TrailingBits(self.blob[n - 1] as usize);
        if 8 * n < trailing.0 {
            return Err(Refusal::TrailingCountTooLarge);
        }
        let dims = 8 * n - trailing.0;
        let length = (dims + 7) / 8;
        if n <= length {
            return Err(Refusal::TrailingBitsTooFew);
        }
        if dims == 0 {
            return Err(Refusal::BodyLengthUnfit);
        }
        show(VectorType::Float1Bit, Dims(dims), length)
    }

    // A Float8 blob.
    #[tactic(auto, using(crate::proofs::ByKind::readings_by_kind))]
    fn float8(self) -> Result<View, Refusal>
        requires { self.kind ≡ Float8 }
        ensures { result ≡ read_of Plain self.entry.blob.now }
    {
        let n = self.blob.len() - 1;
        if n == 0 {
            return Err(Refusal::NoTrailingCount);
        }
        let trailing = TrailingBytes(self.blob[n - 1] as usize);
        if n < 10 {
            return Err(Refusal::TrailingCountTooLarge);
        }
        if n - 10 < trailing.0 {
            return Err(Refusal::TrailingCountTooLarge);
        }
        let dims = n - 10 - trailing.0;
        let length = n - 2;
        if length != align4(dims) + 8 {
            return Err(Refusal::BodyLengthUnfit);
        }
        if dims == 0 {
            return Err(Refusal::BodyLengthUnfit);
        }
        show(VectorType::Float8, Dims(dims), length)
    }

    // A sparse blob.
    #[tactic(auto, using(crate::proofs::ByKind::readings_by_kind))]
    fn sparse(self) -> Result<View, Refusal>
        requires { self.kind ≡ Float32Sparse }
        ensures { result ≡ read_of Plain self.entry.blob.now }
    {
        let n = self.blob.len() - 1;
        let count = n / 8;
        let length = 8 * count;
        if n != 4 + length {
            return Err(Refusal::BodyLengthUnfit);
        }
        let dims = little_endian::u32_at(self.blob, n - 4) as usize;
        if let Some(entry) = first_index_outside(self.blob, count, dims) {
            return Err(Refusal::IndexNotBelowDims(entry));
        }
        show(VectorType::Float32Sparse, Dims(dims), length)
    }

    // A blob that names a kind. Before the type byte, if there is one, stands an even number of bytes.
    #[tactic(auto, using(crate::proofs::ByKind::readings_by_kind))]
    fn read(self) -> Result<View, Refusal>
        ensures { result ≡ read_of Plain self.entry.blob.now }
    {
        let length = self.blob.len();
        let n = length - length % 2;
        match self.kind {
            VectorType::Float32Dense => dense(self.kind, 4, n),
            VectorType::Float64Dense => dense(self.kind, 8, n),
            VectorType::Float32Sparse => self.sparse(),
            VectorType::Float1Bit => self.one_bit(),
            VectorType::Float8 => self.float8(),
        }
    }
}

// The tests that every mode makes: what a blob shows, or the first refusal in the order of the rules.
#[tactic(auto, using(crate::proofs::ByKind::readings_by_kind))]
fn read_by_row(blob: &[u8]) -> Result<View, Refusal>
    ensures { result ≡ read_of Plain blob.now }
{
    if MAX_BLOB_LENGTH < blob.len() {
        return Err(Refusal::LengthOverLimit);
    }
    let kind = named_kind(blob)?;
    NamedBlob { kind, blob }.read()
}

// What a blob shows in a mode, or the first refusal in the order of the rules, those of the mode last.
pub fn read(mode: Mode, blob: &[u8]) -> Result<View, Refusal>
    ensures { result ≡ read_of mode blob.now }
{
    match mode {
        Mode::Plain => read_by_row(blob),
        Mode::Strict => {
            let view = read_by_row(blob)?;
            check_strict(blob, view)
        }
    }
}
