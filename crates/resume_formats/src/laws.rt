//! Laws over the definitions, each the contract of a function with an empty body.
ghost use Rattle.std.specs.Prelude.{◌≡◌, ◌≤◌, ℕ, List};
ghost use Rattle.formats.specs.Request.{Request, StandsFor};
ghost use Rattle.resume_formats.specs.Cut.{BeginsWithHead, IsCutListing, CanStart};
ghost use Rattle.resume_formats.specs.Fault.{HasFault, HasFaultFor};
ghost use Rattle.resume_formats.specs.Resumed.{CanResume};
ghost use Rattle.resume_formats.specs.declared.fault.LevelFault.{LevelFault};

/// A text begins with the head of at most one request, so it is a cut listing of at most one.
pub fn one_head()
    ensures head { (text : List ℕ) (q r : Request) → BeginsWithHead q text → BeginsWithHead r text → q ≡ r }
    ensures cut { (text : List ℕ) (q r : Request) → IsCutListing q text → IsCutListing r text → q ≡ r }
{}

/// A text has at most one fault, and none where growth can start from it. Growth can start in one way.
pub fn one_answer()
    ensures fault { (text : List ℕ) (v w : LevelFault) → HasFault text v → HasFault text w → v ≡ w }
    ensures never_both { (text : List ℕ) (q : Request) (n : ℕ) (why : LevelFault) → CanStart text q n → ¬ (HasFault text why) }
    ensures request { (text : List ℕ) (q r : Request) (m n : ℕ) → CanStart text q m → CanStart text r n → q ≡ r }
    ensures last { (text : List ℕ) (q r : Request) (m n : ℕ) → CanStart text q m → CanStart text r n → m ≡ n }
{}

/// The same for growth to a wanted size.
pub fn one_answer_for_a_size()
    ensures fault { (size : ℕ) (text : List ℕ) (v w : LevelFault) → HasFaultFor size text v → HasFaultFor size text w → v ≡ w }
    ensures never_both { (size : ℕ) (text : List ℕ) (q : Request) (why : LevelFault) → CanResume size text q → ¬ (HasFaultFor size text why) }
    ensures request { (size : ℕ) (text : List ℕ) (q r : Request) → CanResume size text q → CanResume size text r → q ≡ r }
{}
