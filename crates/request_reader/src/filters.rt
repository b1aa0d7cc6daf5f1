ghost use Rattle.std.specs.Prelude.{◌≡◌, [], List, MatchOption, MatchResult};
ghost use Rattle.matroid_theory.specs.Given.{IsGivenBy};
ghost use Rattle.named_matroids.specs.Names.{NamedMatroid, named_by};
ghost use Rattle.formats.specs.Statement.{Statement};
ghost use Rattle.formats.specs.Minors.{given_as};
ghost use Rattle.request_lines.specs.Spellings.{flag_word};
ghost use Rattle.request_lines.specs.Said.{flag_entry, IsFilter};
ghost use Rattle.request_reader.specs.Wrongs.{IsWrong};
ghost use Rattle.request_reader.specs.Filters.{HoldsFilters, IsNewFilter};
ghost use Rattle.request_lines.specs.declared.flags.Flag.{Flag};

use crate::values::Wrong;
use named_matroids::MinorItem;
use request_lines::{Filter, Flag, NamedMinor};

/// Which forms are listed: those that pass each filter that is set.
#[derive(Drop)]
pub struct Filters {
    /// Only connected ones.
    pub connected: bool,
    /// Only 3-connected ones.
    pub three: bool,
    /// Only cosimple ones.
    pub cosimple: bool,
    /// Only one of those that have the same matroid up to relabelling.
    pub distinct: bool,
    /// Only those that have this matroid as a minor.
    pub has: Option<MinorItem>,
}

impl Filters {
    /// No filter.
    pub fn new() -> Filters
        ensures { HoldsFilters [] result }
    {
        Filters {
            connected: false,
            three: false,
            cosimple: false,
            distinct: false,
            has: None,
        }
    }

    /// The filters with one more, or what is wrong with it.
    pub fn with(self, filter: Filter) -> Result<Filters, Wrong>
        ensures { MatchResult result
            (λ filters. (entries : List Statement) → (entry : Statement) → HoldsFilters entries self → IsFilter filter entry → IsNewFilter entries entry filters)
            (λ wrong. (entries : List Statement) → (entry : Statement) → HoldsFilters entries self → IsFilter filter entry → IsWrong entries entry wrong) }
    {
        match filter {
            Filter::Flag(flag) => self.with_flag(flag),
            Filter::Has(named) if self.has.is_none() => self.with_wanted(named),
            Filter::Has(_) => Err(Wrong::Again),
        }
    }

    // The filters with this flag set, or what is wrong with it.
    fn with_flag(self, flag: Flag) -> Result<Filters, Wrong>
        ensures { MatchResult result
            (λ filters. (entries : List Statement) → HoldsFilters entries self → IsNewFilter entries (flag_entry flag) filters)
            (λ wrong. (entries : List Statement) → HoldsFilters entries self → IsWrong entries (flag_entry flag) wrong) }
    {
        match flag {
            Flag::Connected if !self.connected => Ok(Filters {
                connected: true,
                ..self
            }),
            Flag::Three if !self.three => Ok(Filters {
                three: true,
                ..self
            }),
            Flag::Cosimple if !self.cosimple => Ok(Filters {
                cosimple: true,
                ..self
            }),
            Flag::Distinct if !self.distinct => Ok(Filters {
                distinct: true,
                ..self
            }),
            _ => Err(Wrong::Again),
        }
    }

    // The filters with this minor wanted, where none was, or what is wrong with it.
    fn with_wanted(self, named: NamedMinor) -> Result<Filters, Wrong>
        ensures { MatchResult result
            (λ filters. (item : NamedMatroid) × (named ≡ NamedMinor.Small item) × (filters ≡ record self { has = Some item }) × IsGivenBy (given_as (named_by item.spelling)) item.matroid)
            (λ wrong. (named ≡ NamedMinor.TooBig) × (wrong ≡ Wrong.TooBig)) }
    {
        match named {
            NamedMinor::Small(item) => {
                let _spelling = item.spelling();
                Ok(Filters {
                    has: Some(item),
                    ..self
                })
            }
            NamedMinor::TooBig => Err(Wrong::TooBig),
        }
    }
}
