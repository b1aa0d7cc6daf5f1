//! A matroid with its name.
ghost use Rattle.std.specs.Prelude.{◌≡◌, ◌≤◌, ◌↔◌, [], ◌∷◌, length, IfOk, IsErrOf};
ghost use Rattle.formats.specs.Statement.{ByMatrix, Uniform, IsMatrix, minor_words};
ghost use Rattle.formats.specs.Minors.{given_as};
ghost use Rattle.matroid_theory.specs.Given.{ColumnsOver, IsGivenBy};
ghost use Rattle.small_lists.specs.Lists.{lists};
ghost use Rattle.named_matroids.specs.Names.{named_by, IsSmallName, NamesTooBig, NamesNone};

use crate::columns::matroid_over;
use crate::matrix_text::MatrixText;
use crate::minor::Minor;
use crate::spelling::{NameFault, Spelling, spelling_of};
use crate::tables::{FANO, K_FIVE, matroid_of_table};
use crate::uniform::uniform;
use field_tables::Column;
use std::marker::Model;

/// A matroid of 1 to 10 elements and its name, or the matrix that it is given by. Contracts see this name and the matroid,
/// which is that of the name.
#[derive(Drop)]
pub struct MinorItem {
    spelling: Spelling,
    minor: Minor,
}

impl Model for MinorItem {
    ghost use Rattle.named_matroids.specs.Names.{NamedMatroid, IsNamedMatroid};

    ghost Value = { NamedMatroid };

    ghost view = { λ s. record { spelling = s.spelling; matroid = s.minor } };

    ghost invariant = { λ s. IsNamedMatroid (record { spelling = s.spelling; matroid = s.minor }) };
}

impl MinorItem {
    /// What the type keeps, for the proofs of callers: the name is that of a matroid of at most 10 elements, or a matrix of at
    /// most 10 columns, and the matroid is that of the name.
    pub fn laws(&self)
        ensures small { IsSmallName (named_by self.now.spelling) }
        ensures given { IsGivenBy (given_as (named_by self.now.spelling)) self.now.matroid }
    {
        let _minor = &self.minor;
    }

    /// The name, or the matrix.
    pub fn spelling(&self) -> &Spelling
        ensures value { result.now ≡ self.now.spelling }
        ensures small { IsSmallName (named_by self.now.spelling) }
        ensures is_given { IsGivenBy (given_as (named_by self.now.spelling)) self.now.matroid }
    {
        &self.spelling
    }

    /// The matroid.
    pub fn minor(&self) -> &Minor
        ensures { result.now ≡ self.now.matroid }
    {
        &self.minor
    }

    /// The same matroid with the same name.
    pub fn copy(&self) -> MinorItem
        ensures { result ≡ self.now }
    {
        MinorItem {
            spelling: self.spelling.copy(),
            minor: self.minor.copy(),
        }
    }
}

impl Default for MinorItem {
    ghost is_default = { λ item. named_by item.spelling ≡ Uniform 0 1 };

    /// `U0,1`, for a place of a list that holds no matroid yet.
    fn default() -> Self {
        item_of(Spelling::Uniform(0, 1))
    }
}

/// The matroid that the text names: `F7`, `F7*`, `F7-`, `K4`, `K5`, or `Ur,n` with r at most n, from 1 to 10, and numbers in
/// decimal digits without a sign or a leading zero.
///
/// # Errors
///
/// `TooBig` where the text is `Ur,n` with r at most n, above 10 and of at most nine digits. `Unknown` for every text
/// that names no matroid.
pub fn named(text: &[u8]) -> Result<MinorItem, NameFault>
    ensures named { IfOk result (λ item. minor_words (named_by item.spelling) ≡ text.now ∷ []) }
    ensures small { IfOk result (λ item. IsSmallName (named_by item.spelling)) }
    ensures too_big { IsErrOf result NameFault.TooBig ↔ NamesTooBig text.now }
    ensures unknown { IsErrOf result NameFault.Unknown ↔ NamesNone text.now }
{
    match spelling_of(text) {
        Ok(spelling) => Ok(item_of(spelling)),
        Err(fault) => Err(fault),
    }
}

/// The matroid of the columns of a matrix over the field of this order: 1 to 10 columns of one length from 1 to 6, with codes
/// below the order. The rank may be below that length, and is 0 where every code is 0 (Oxley, chapter 1).
pub fn matrix_item(order: u8, columns: &[Column]) -> MinorItem
    requires matrix { IsMatrix order (lists columns.now) }
    requires few { length columns.now ≤ 10 }
    ensures named { named_by result.spelling ≡ ByMatrix order (lists columns.now) }
    ensures given { IsGivenBy (ColumnsOver order (lists columns.now)) result.matroid }
{
    item_of(Spelling::Matrix(MatrixText::of(order, columns)))
}

/// The matroid of a name or a matrix, of at most 10 elements.
pub fn item_of(spelling: Spelling) -> MinorItem
    requires { IsSmallName (named_by spelling) }
    ensures spelling { result.spelling ≡ spelling }
    ensures given { IsGivenBy (given_as (named_by spelling)) result.matroid }
{
    let minor = minor_of(&spelling);
    MinorItem { spelling, minor }
}

/// The matroid of a name.
fn minor_of(spelling: &Spelling) -> Minor
    requires { IsSmallName (named_by spelling.now) }
    ensures { IsGivenBy (given_as (named_by spelling.now)) result }
{
    match spelling {
        Spelling::Uniform(rank, size) => uniform(*rank, *size),
        Spelling::Fano => matroid_of_table(2, &FANO),
        Spelling::FanoDual => matroid_of_table(2, &FANO).dual(),
        Spelling::NonFano => matroid_of_table(3, &FANO),
        Spelling::KFour => matroid_of_table(2, &FANO[..6]),
        Spelling::KFive => matroid_of_table(2, &K_FIVE),
        Spelling::Matrix(text) => matroid_over(text.order(), text.columns()),
    }
}
