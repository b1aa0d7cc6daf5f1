//! How a matroid is spelled.
ghost use Rattle.std.specs.Prelude.{◌≡◌, ◌≤◌, ℕ, [], ◌∷◌, MatchOption, MatchResult};
ghost use Rattle.formats.specs.Statement.{Uniform as AsUniform, IsUniform, minor_words};
ghost use Rattle.named_matroids.specs.Names.{named_by, IsSmallName, IsNameFault};

use crate::matrix_text::MatrixText;
use crate::number::numbers_of;
use thiserror::Error;

/// A matroid by its name or by a matrix.
#[derive(Debug, Drop)]
pub enum Spelling {
    /// `Ur,n`, the uniform matroid of rank r on n elements.
    Uniform(u8, u8),
    /// `F7`.
    Fano,
    /// `F7*`.
    FanoDual,
    /// `F7-`.
    NonFano,
    /// `K4`.
    KFour,
    /// `K5`.
    KFive,
    /// `matrix q C1 .. Cn`, the matroid of the columns over the field of order q.
    Matrix(MatrixText),
}

impl Spelling {
    /// The same name, or the same matrix.
    pub(crate) fn copy(&self) -> Spelling
        ensures { result ≡ self.now }
    {
        match self {
            Spelling::Uniform(rank, size) => Spelling::Uniform(*rank, *size),
            Spelling::Fano => Spelling::Fano,
            Spelling::FanoDual => Spelling::FanoDual,
            Spelling::NonFano => Spelling::NonFano,
            Spelling::KFour => Spelling::KFour,
            Spelling::KFive => Spelling::KFive,
            Spelling::Matrix(text) => Spelling::Matrix(text.copy()),
        }
    }
}

/// Why a text names no matroid of at most 10 elements.
#[derive(Debug, Drop, Error)]
pub enum NameFault {
    /// It names a uniform matroid of more than 10 elements.
    #[error("the matroid has more than 10 elements")]
    TooBig,
    /// It names no matroid.
    #[error("no matroid has this name")]
    Unknown,
}

/// The matroid that the text names.
///
/// # Errors
///
/// `TooBig` where it has more than 10 elements, and `Unknown` where the text names none.
pub fn spelling_of(text: &[u8]) -> Result<Spelling, NameFault>
    ensures { MatchResult result
        (λ spelling. IsSmallName (named_by spelling) × (minor_words (named_by spelling) ≡ text.now ∷ []))
        (λ fault. IsNameFault text.now fault) }
{
    match text {
        b"F7" => Ok(Spelling::Fano),
        b"F7*" => Ok(Spelling::FanoDual),
        b"F7-" => Ok(Spelling::NonFano),
        b"K4" => Ok(Spelling::KFour),
        b"K5" => Ok(Spelling::KFive),
        _ => match uniform_of(text) {
            None => Err(NameFault::Unknown),
            Some((rank, size)) if size <= 10 => Ok(Spelling::Uniform(rank as u8, size as u8)),
            Some(_) => Err(NameFault::TooBig),
        },
    }
}

/// The rank and the size of the uniform matroid that the text names.
fn uniform_of(text: &[u8]) -> Option<(u32, u32)>
    ensures { MatchOption result
        ((rank size : ℕ) → IsUniform rank size → minor_words (AsUniform rank size) ≡ text.now ∷ [] → ⊥)
        (λ pair. IsUniform pair.0 pair.1 × (minor_words (AsUniform pair.0 pair.1) ≡ text.now ∷ [])) }
{
    let [b'U', numbers @ ..] = text else {
        return None;
    };
    let (rank, size) = numbers_of(numbers)?;
    if rank <= size && 1 <= size {
        Some((rank, size))
    } else {
        None
    }
}
