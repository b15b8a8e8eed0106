// Blobs: the five kinds, answers, reading in a mode, and the parts of a blob.
#![tactic(auto)]

mod kinds;
mod parts;
mod reading;
mod strictness;
mod vector;

ghost use Rattle.std.specs.Prelude.{◌≡◌};
ghost use Rattle.vector_types.specs.Answers.{readings, readings_of, view_of, number_of, detail_of};

pub use parts::{body, indices, values};
pub use reading::{align4, first_outside, read};
pub use vector::Vector;

// The kinds of vectors, in the order of the Rust.
#[derive(Clone, Copy, PartialEq, Eq)]
pub enum VectorType {
    Float32Dense,
    Float64Dense,
    Float32Sparse,
    Float1Bit,
    Float8,
}

// Why a byte names no kind: two bytes stand for kinds that exist and are not supported, every other for nothing known.
#[derive(Clone, Copy, PartialEq, Eq)]
pub enum KindError {
    Unsupported,
    Unknown,
}

// How many elements a vector has.
#[derive(Clone, Copy, PartialEq, Eq)]
pub struct Dims(pub usize);

// How many bits of a 1-bit blob, its type byte apart, stand for no element.
#[derive(Clone, Copy, PartialEq, Eq)]
pub struct TrailingBits(pub usize);

// How many bytes of a Float8 body stand between its elements and alpha.
#[derive(Clone, Copy, PartialEq, Eq)]
pub struct TrailingBytes(pub usize);

// How many readings a vector holds. They are not its dims: of a sparse vector only stored entries count.
#[derive(Clone, Copy, PartialEq, Eq)]
pub struct Readings(pub usize);

// What an accepted blob shows: its body is its first `length` bytes. The fields stand in the order in
// which an answer is made fastest (docs/SPEED.md).
#[derive(Clone, Copy, PartialEq, Eq)]
pub struct View {
    pub kind: VectorType,
    pub dims: Dims,
    pub readings: Readings,
    pub length: usize,
}

// The readings of a vector whose body has `length` bytes: the entries of a sparse one, else its elements.
fn readings_of(kind: VectorType, dims: Dims, length: usize) -> Readings
    ensures { result ≡ readings (readings_of kind dims.0 length) }
{
    match kind {
        VectorType::Float32Sparse => Readings(length / 8),
        _ => Readings(dims.0),
    }
}

impl View {
    // Kind, dims and body length tell the rest.
    pub fn of(kind: VectorType, dims: Dims, length: usize) -> Self
        ensures { result ≡ view_of kind dims.0 length }
    {
        let readings = readings_of(kind, dims, length);
        View {
            kind,
            dims,
            readings,
            length,
        }
    }
}

// Why something is refused, in the order of the numbers of docs/RULES.md, which says when each is given.
#[derive(Clone, Copy, PartialEq, Eq)]
pub enum Refusal {
    LengthOverLimit, // 1
    TypeByte5Or6, // 2
    TypeByteUnknown, // 3
    NoTrailingCount, // 4
    TrailingCountTooLarge, // 5
    TrailingBitsTooFew, // 6
    BodyLengthUnfit, // 7
    IndexNotBelowDims(usize), // 8, the first entry whose index is not below dims, counted from 0
    DimsOverLimit, // 9
    SparseOrder(usize), // 10, the first entry whose index is not above the one before it
    UnusedBitSet, // 11
    DimsDiffer, // 12
    KindsDiffer, // 13
    L2OfFloat1Bit, // 14
    OutputTooShort(usize), // 15, how many bytes the output would have to have
    WriterDims0, // 16
    ScratchTooShort(usize), // 17, how many bytes scratch would have to have
    BothDistancesNan, // 18
    FileEndsInside(usize), // 19, the place in the file where that vector starts
}

// Needs: how many bytes a buffer that is too short would have to have. Starts: the place in a file where
// the vector starts inside which the file ends. Entry: which entry of a sparse vector is wrong, counted
// from 0.
#[derive(Clone, Copy, PartialEq, Eq)]
pub enum Detail {
    Nothing,
    Needs(usize),
    Starts(usize),
    Entry(usize),
}

impl Refusal {
    // The number of the rules.
    pub fn number(self) -> u8
        ensures { result ≡ number_of self }
    {
        match self {
            Refusal::LengthOverLimit => 1,
            Refusal::TypeByte5Or6 => 2,
            Refusal::TypeByteUnknown => 3,
            Refusal::NoTrailingCount => 4,
            Refusal::TrailingCountTooLarge => 5,
            Refusal::TrailingBitsTooFew => 6,
            Refusal::BodyLengthUnfit => 7,
            Refusal::IndexNotBelowDims(_) => 8,
            Refusal::DimsOverLimit => 9,
            Refusal::SparseOrder(_) => 10,
            Refusal::UnusedBitSet => 11,
            Refusal::DimsDiffer => 12,
            Refusal::KindsDiffer => 13,
            Refusal::L2OfFloat1Bit => 14,
            Refusal::OutputTooShort(_) => 15,
            Refusal::WriterDims0 => 16,
            Refusal::ScratchTooShort(_) => 17,
            Refusal::BothDistancesNan => 18,
            Refusal::FileEndsInside(_) => 19,
        }
    }

    // What the rules have it carry.
    pub fn detail(self) -> Detail
        ensures { result ≡ detail_of self }
    {
        match self {
            Refusal::IndexNotBelowDims(entry) | Refusal::SparseOrder(entry) => Detail::Entry(entry),
            Refusal::OutputTooShort(need) | Refusal::ScratchTooShort(need) => Detail::Needs(need),
            Refusal::FileEndsInside(place) => Detail::Starts(place),
            _ => Detail::Nothing,
        }
    }
}

// How a blob is read. Plain: as the Rust reads it. Strict: besides, each sparse index has to be above the
// one before it, and unused bits have to be zero.
#[derive(Clone, Copy, PartialEq, Eq)]
pub enum Mode {
    Plain,
    Strict,
}

// The longest blob, and the most elements of a vector.
pub const MAX_BLOB_LENGTH: usize = 524293;

pub const MAX_DIMS: usize = 65536;
