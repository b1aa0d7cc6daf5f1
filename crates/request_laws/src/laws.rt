//! Laws over the definitions, each the contract of a function with an empty body.
ghost use Rattle.std.specs.Prelude.{◌≡◌, ℕ, List, Bool, ◌⊎◌};
ghost use Rattle.matroid_theory.specs.Level.{Family, Filters};
ghost use Rattle.formats.specs.Statement.{Statement, MinorName, IsMinorName};
ghost use Rattle.formats.specs.Minors.{given_as};
ghost use Rattle.formats.specs.Request.{Request, StandsFor};
ghost use Rattle.formats.specs.Levels.{Grows, Keeps, IsListingUpTo, IsListingCutOff};
ghost use Rattle.existence.specs.Exists.{HasMatroid};
ghost use Rattle.request_laws.specs.Starts.{IsSomeStart, HasSomeFault, IsSomeStartFor, HasSomeFaultFor};
ghost use Rattle.request_laws.specs.Answered.{StandsForSome, HasSomeRefusal, NamesMinors, HasFamily, HasFilters, HasLevelEntry, HasListing, IsFrontOfListing};

/// Each text stands for a request or has a refusal.
pub fn each_text_is_answered()
    ensures { (text : List ℕ) → StandsForSome text ⊎ HasSomeRefusal text }
{}

/// Each minor that a line can name has its matroid.
pub fn each_minor_has_its_matroid()
    ensures { (minor : MinorName) → IsMinorName minor → HasMatroid (given_as minor) }
{}

/// A request that a text stands for has minors that a line can name, and such a request grows exactly one family and has
/// exactly one list of filters. So what holds for every family that it grows holds for one.
pub fn each_request_grows_one_family()
    ensures names { (text : List ℕ) (q : Request) → StandsFor text q → NamesMinors q }
    ensures family { (q : Request) → NamesMinors q → HasFamily q }
    ensures one_family { (q : Request) (family other : Family) → Grows q family → Grows q other → family ≡ other }
    ensures filters { (q : Request) → NamesMinors q → HasFilters q }
    ensures one_filters { (q : Request) (filters other : Filters) → Keeps q filters → Keeps q other → filters ≡ other }
{}

/// Each request that a text stands for has a listing, which tells of each of its sizes. What is cut off, and what ends
/// after some of the levels, is a proper front of that listing.
pub fn each_request_has_a_listing()
    ensures listing { (text : List ℕ) (q : Request) → StandsFor text q → HasListing q }
    ensures entry { (q : Request) (n : ℕ) → NamesMinors q → HasLevelEntry q n }
    ensures cut { (text : List ℕ) (q : Request) (whole : ℕ) (written : List ℕ) →
        StandsFor text q → IsListingCutOff q whole written → IsFrontOfListing q written }
    ensures up_to { (text : List ℕ) (q : Request) (whole : ℕ) (written : List ℕ) →
        StandsFor text q → IsListingUpTo q whole written → IsFrontOfListing q written }
{}

/// Growth can start from a text, or the text has a fault of a listing. The same holds for growth to a wanted size, so a run that
/// resumes has an answer for each text.
pub fn each_text_is_a_start_or_has_a_fault()
    ensures text { (text : List ℕ) → IsSomeStart text ⊎ HasSomeFault text }
    ensures wanted { (wanted : ℕ) (text : List ℕ) → IsSomeStartFor wanted text ⊎ HasSomeFaultFor wanted text }
{}
