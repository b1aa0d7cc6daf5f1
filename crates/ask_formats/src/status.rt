/// How asking ended.
#[derive(Clone, Copy, Debug, PartialEq, Eq)]
pub enum AskStatus {
    /// The whole answer line was written.
    Done,
    /// The words ask for nothing; nothing was written.
    Usage,
    /// The sink failed; a part of the answer line was written.
    WriteFault,
}

impl AskStatus {
    ghost use Rattle.std.specs.Prelude.{◌≡◌};
    ghost use Rattle.ask_formats.specs.Status.{status_number};

    /// The number that the program ends with: 0, 2 or 5.
    pub fn number(&self) -> u8
        ensures { result ≡ status_number self.now }
    {
        match self {
            AskStatus::Done => 0,
            AskStatus::Usage => 2,
            AskStatus::WriteFault => 5,
        }
    }
}
