use crate::LevelFault;

/// How a run that resumes ended.
#[derive(Clone, Copy, Debug, PartialEq, Eq)]
pub enum ResumeStatus {
    /// The whole listing was written.
    Done,
    /// The words of the command line aren't one number from 1 to 16; nothing was read or written.
    Usage,
    /// Growth can't start from the listing that was read; nothing was written.
    BadListing(LevelFault),
    /// The source failed; nothing was written.
    ReadFault,
    /// The sink failed; a part of the listing was written.
    WriteFault,
    /// There was no memory; what was written ends where a piece of the listing ends.
    NoMemory,
}

impl ResumeStatus {
    ghost use Rattle.std.specs.Prelude.{◌≡◌};
    ghost use Rattle.resume_formats.specs.Status.{status_number};

    /// The number that the program ends with: 0, or 2 to 6.
    pub fn number(&self) -> u8
        ensures { result ≡ status_number self.now }
    {
        match self {
            ResumeStatus::Done => 0,
            ResumeStatus::Usage => 2,
            ResumeStatus::BadListing(_) => 3,
            ResumeStatus::ReadFault => 4,
            ResumeStatus::WriteFault => 5,
            ResumeStatus::NoMemory => 6,
        }
    }
}
