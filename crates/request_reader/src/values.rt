ghost use Rattle.std.specs.Prelude.{◌≡◌, ◌<◌, [], ◌∷◌, ◌++◌, List, length, MatchResult};
ghost use Rattle.matroid_theory.specs.Given.{IsGivenBy};
ghost use Rattle.named_matroids.specs.Names.{named_by};
ghost use Rattle.formats.specs.Statement.{Statement};
ghost use Rattle.formats.specs.Minors.{given_as};
ghost use Rattle.request_lines.specs.Said.{IsSaid};
ghost use Rattle.request_reader.specs.Wrongs.{IsWrong, refusal_at};
ghost use Rattle.request_reader.specs.Values.{Holds};

use crate::filters::Filters;
use arrayvec::ArrayVec;
use formats::{PrintMode, Refusal};
use matroid_theory::Mode;
use named_matroids::MinorItem;
use product_rep::Factors;
use request_lines::{NamedMinor, Said};

/// What may be wrong with a line that has a form, after others.
#[derive(Clone, Copy)]
pub enum Wrong {
    /// It says again what may be said once.
    Again,
    /// It is the ninth that forbids a minor.
    NinthForbid,
    /// It names a matroid of more than 10 elements.
    TooBig,
}

impl Wrong {
    /// The refusal where this is wrong with the line of that number.
    pub fn refusal(self, line: u32) -> Refusal
        ensures { result ≡ refusal_at self line }
    {
        match self {
            Wrong::Again => Refusal::Twice(line),
            Wrong::NinthForbid => Refusal::TooManyForbidden(line),
            Wrong::TooBig => Refusal::ForbidTooBig(line),
        }
    }
}

/// What was said so far.
#[derive(Drop)]
pub struct Values {
    pub version: bool,
    pub rank: Option<u32>,
    pub factors: Option<Factors>,
    pub size: Option<u32>,
    pub forbid: ArrayVec<MinorItem, 8>,
    pub filters: Filters,
    pub print: Option<PrintMode>,
    pub mode: Option<Mode>,
}

impl Values {
    /// Nothing.
    pub fn new() -> Values
        ensures { Holds [] result }
    {
        Values {
            version: false,
            rank: None,
            factors: None,
            size: None,
            forbid: ArrayVec::new(),
            filters: Filters::new(),
            print: None,
            mode: None,
        }
    }

    /// What was said with one thing more, or what is wrong with it.
    pub fn with(self, said: Said) -> Result<Values, Wrong>
        ensures { MatchResult result
            (λ values. (entries : List Statement) → (entry : Statement) → Holds entries self → IsSaid said entry → Holds (entries ++ entry ∷ []) values)
            (λ wrong. (entries : List Statement) → (entry : Statement) → Holds entries self → IsSaid said entry → IsWrong entries entry wrong) }
    {
        match said {
            Said::Version if !self.version => Ok(Values {
                version: true,
                ..self
            }),
            Said::Rank(rank) if self.rank.is_none() => Ok(Values {
                rank: Some(rank),
                ..self
            }),
            Said::Field(factors) if self.factors.is_none() => Ok(Values {
                factors: Some(factors),
                ..self
            }),
            Said::Size(size) if self.size.is_none() => Ok(Values {
                size: Some(size),
                ..self
            }),
            Said::Forbid(_) if self.forbid.is_full() => Err(Wrong::NinthForbid),
            Said::Forbid(NamedMinor::Small(item)) => Ok(self.with_forbidden(item)),
            Said::Forbid(NamedMinor::TooBig) => Err(Wrong::TooBig),
            Said::Filter(filter) => match self.filters.with(filter) {
                Ok(filters) => Ok(Values { filters, ..self }),
                Err(wrong) => Err(wrong),
            },
            Said::Equivalence(mode) if self.mode.is_none() => Ok(Values {
                mode: Some(mode),
                ..self
            }),
            Said::Print(print) if self.print.is_none() => Ok(Values {
                print: Some(print),
                ..self
            }),
            _ => Err(Wrong::Again),
        }
    }

    // What was said with one forbidden minor more, for which there is room.
    fn with_forbidden(self, item: MinorItem) -> Values
        requires { length self.forbid.items < 8 }
        ensures values { result ≡ record self { forbid = record { items = self.forbid.items ++ item ∷ [] } } }
        ensures given { IsGivenBy (given_as (named_by item.spelling)) item.matroid }
    {
        let _spelling = item.spelling();
        let mut values = self;
        values.forbid.push(item);
        values
    }
}
