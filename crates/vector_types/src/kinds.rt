// The bytes that name the kinds.
ghost use Rattle.std.specs.Prelude.{◌≡◌};
ghost use Rattle.vector_types.specs.Layout.{byte_of, by_byte};
ghost use Rattle.vector_types.specs.Answers.{kind_refusal};

use crate::{KindError, Refusal, VectorType};

// The byte that names a kind in a blob.
impl From<VectorType> for u8 {
    ghost from_gives = { λ kind byte. byte ≡ byte_of kind };

    fn from(kind: VectorType) -> u8 {
        match kind {
            VectorType::Float32Dense => 1,
            VectorType::Float64Dense => 2,
            VectorType::Float32Sparse => 9,
            VectorType::Float1Bit => 3,
            VectorType::Float8 => 4,
        }
    }
}

// What a byte names.
impl TryFrom<u8> for VectorType {
    type Error = KindError;

    ghost try_from_gives = { λ byte kind. kind ≡ by_byte byte };

    #[tactic(auto, unfolding(crate::specs::Layout::by_byte))]
    fn try_from(byte: u8) -> Result<Self, KindError> {
        match byte {
            1 => Ok(VectorType::Float32Dense),
            2 => Ok(VectorType::Float64Dense),
            3 => Ok(VectorType::Float1Bit),
            4 => Ok(VectorType::Float8),
            9 => Ok(VectorType::Float32Sparse),
            5 | 6 => Err(KindError::Unsupported),
            _ => Err(KindError::Unknown),
        }
    }
}

// A blob that names no kind is refused.
impl From<KindError> for Refusal {
    ghost from_gives = { λ error refusal. refusal ≡ kind_refusal error };

    fn from(error: KindError) -> Refusal {
        match error {
            KindError::Unsupported => Refusal::TypeByte5Or6,
            KindError::Unknown => Refusal::TypeByteUnknown,
        }
    }
}
