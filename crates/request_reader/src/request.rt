ghost use Rattle.std.specs.Prelude.{◌≡◌, ◌≤◌, List, Option, length, map, option_to_list, IfOk, IfErr};
ghost use Rattle.matroid_theory.specs.Minor.{Matroid};
ghost use Rattle.matroid_theory.specs.Field.{IsFactors};
ghost use Rattle.formats.specs.Levels.{AreGivenBy};
ghost use Rattle.formats.specs.Minors.{given_as};
ghost use Rattle.formats.specs.Request.{IsWithinLimits, IsSizeInRange};
ghost use Rattle.request_reader.specs.Filters.{wanted_of, wanted_matroid, IsWantedGiven};
ghost use Rattle.request_reader.specs.Requested.{asked_request, counting_request, minors_of, AreGiven, AreNames, IsRequestOfVersion};
ghost use Rattle.request_reader.specs.Limits.{IsLate};
ghost use Rattle.request_lines.specs.Versions.{version_number};

use crate::columns::column_count;
use crate::filters::Filters;
use arrayvec::ArrayVec;
use formats::{PrintMode, Refusal};
use matroid_theory::Mode;
use named_matroids::MinorItem;
use product_rep::Factors;
use request_lines::Version;
use std::marker::Model;

const MOST_RANK: u32 = 6;

const MOST_SIZE: u32 = 16;

const MOST_COLUMNS: u64 = 1_000_000;

/// A request within its limits. Contracts see what it asks for.
#[derive(Drop)]
pub struct Request {
    version: Version,
    factors: Factors,
    rank: u8,
    size: u8,
    mode: Mode,
    forbid: ArrayVec<MinorItem, 8>,
    filters: Filters,
    print: PrintMode,
}

impl Model for Request {
    ghost use Rattle.formats.specs.Request.{Request as Asked};
    ghost use Rattle.request_reader.specs.Requested.{request_of, KeepsLimits};

    ghost Value = { Asked };

    ghost view = { request_of };

    ghost invariant = { KeepsLimits };
}

impl Request {
    /// The factors.
    pub fn factors(&self) -> Factors
        ensures { result ≡ self.now.factors }
    {
        self.factors.copy()
    }

    /// What every request keeps, for a caller's proof.
    pub fn laws(&self)
        ensures limits { IsWithinLimits self.now }
        ensures factors { IsFactors self.now.factors }
        ensures of_version { IsRequestOfVersion self.now }
        ensures names { AreNames self.now }
        ensures forbidden { (minors : List Matroid) × AreGivenBy (map given_as self.now.forbid) minors }
        ensures wanted { (minor : Option Matroid) × AreGivenBy (map given_as (option_to_list self.now.has)) (option_to_list minor) }
    {
        let _filters = &self.filters;
    }

    /// The rank, from 1 to 6.
    pub fn rank(&self) -> u8
        ensures { result ≡ self.now.rank }
    {
        self.rank
    }

    /// The last size to list, from the rank to 16.
    pub fn size(&self) -> u8
        ensures { result ≡ self.now.size }
    {
        self.size
    }

    /// The matroids that no form may have as a minor, at most eight, in the order of their lines.
    pub fn forbid(&self) -> &[MinorItem]
        ensures names { minors_of result.now ≡ self.now.forbid }
        ensures few { length result.now ≤ 8 }
        ensures given { AreGivenBy (map given_as self.now.forbid) (map (λ item. item.matroid) result.now) }
    {
        self.forbid.as_slice()
    }

    /// The filters.
    pub fn filters(&self) -> &Filters
        ensures connected { result.now.connected ≡ self.now.connected }
        ensures three { result.now.three ≡ self.now.three_connected }
        ensures cosimple { result.now.cosimple ≡ self.now.cosimple }
        ensures distinct { result.now.distinct ≡ self.now.distinct }
        ensures has { wanted_of result.now ≡ self.now.has }
        ensures given { AreGivenBy (map given_as (option_to_list self.now.has)) (option_to_list (wanted_matroid result.now)) }
    {
        &self.filters
    }

    /// The request for the counts of a field's or a product's matroids without these minors, in version 1.
    pub(crate) fn counting(
        factors: Factors,
        rank: u8,
        size: u8,
        forbid: ArrayVec<MinorItem, 8>,
    ) -> Request
        requires limits { IsWithinLimits (counting_request factors rank size (minors_of forbid.items)) }
        requires of_version { IsRequestOfVersion (counting_request factors rank size (minors_of forbid.items)) }
        requires names { AreNames (counting_request factors rank size (minors_of forbid.items)) }
        requires given { AreGiven forbid.items }
        ensures { result ≡ counting_request factors rank size (minors_of forbid.items) }
    {
        factors.laws();
        Request {
            version: Version::One,
            factors,
            rank,
            size,
            mode: Mode::Linear,
            forbid,
            filters: Filters::new(),
            print: PrintMode::Counts,
        }
    }

    /// The same request up to another last size, from its rank to 16.
    pub fn with_size(mut self, size: u8) -> Request
        requires { IsSizeInRange self.rank size }
        ensures { result ≡ record self { size = size } }
    {
        self.size = size;
        self
    }

    /// What is printed of a level beside its numbers.
    pub fn print(&self) -> PrintMode
        ensures { result ≡ self.now.print }
    {
        self.print
    }

    /// Which moves count for equivalence.
    pub fn mode(&self) -> Mode
        ensures { result ≡ self.now.mode }
    {
        self.mode
    }

    /// The version of the request language, 1 or 2.
    pub fn version(&self) -> u8
        ensures { result ≡ self.now.version }
    {
        self.version.number()
    }
}

/// What a text asks for, in any limits.
#[derive(Drop)]
pub struct Asked {
    pub version: Version,
    pub factors: Factors,
    pub rank: u32,
    pub size: u32,
    pub mode: Mode,
    pub forbid: ArrayVec<MinorItem, 8>,
    pub filters: Filters,
    pub print: PrintMode,
}

/// The request for these values, where they are within the limits.
pub fn request_for(asked: Asked) -> Result<Request, Refusal>
    requires forbid { AreGiven asked.forbid.items }
    requires wanted { IsWantedGiven asked.filters }
    requires of_version { IsRequestOfVersion (asked_request asked) }
    requires names { AreNames (asked_request asked) }
    ensures request { IfOk result (λ request. request ≡ asked_request asked) }
    ensures limits { IfOk result (λ request. IsWithinLimits request) }
    ensures refused { IfErr result (λ why. IsLate asked.rank asked.factors asked.size why) }
{
    let Asked { rank, size, .. } = asked;
    if rank == 0 || rank > MOST_RANK {
        return Err(Refusal::Rank(rank));
    }
    if size < rank || size > MOST_SIZE {
        return Err(Refusal::Size(size));
    }
    let columns = column_count(rank as u8, &asked.factors);
    if columns > MOST_COLUMNS {
        return Err(Refusal::TooWide(columns));
    }
    Ok(Request {
        version: asked.version,
        factors: asked.factors,
        rank: rank as u8,
        size: size as u8,
        mode: asked.mode,
        forbid: asked.forbid,
        filters: asked.filters,
        print: asked.print,
    })
}
