/// Why growth can't start from a text: its first fault, in the order of the variants.
#[derive(Clone, Copy, Debug, PartialEq, Eq)]
pub enum LevelFault {
    /// It has more than 16,777,216 bytes.
    TooLong,
    /// It doesn't begin with the whole head of a request that has no filter and prints forms.
    Head,
    /// The listing of that request doesn't begin with the text. They part in this line, counted from 1.
    Differs(u32),
    /// No size is whole in it.
    NoLevel,
    /// The size that is wanted is below the greatest whole size, which is this one.
    Less(u8),
}

impl LevelFault {
    ghost use Rattle.std.specs.Prelude.{◌≡◌};
    ghost use Rattle.resume_formats.specs.Status.{fault_number};

    /// Its number, 1 to 5.
    pub fn number(&self) -> u8
        ensures { result ≡ fault_number self.now }
    {
        match self {
            LevelFault::TooLong => 1,
            LevelFault::Head => 2,
            LevelFault::Differs(_) => 3,
            LevelFault::NoLevel => 4,
            LevelFault::Less(_) => 5,
        }
    }
}
