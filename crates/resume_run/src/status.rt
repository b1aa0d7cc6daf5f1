// The texts of the statuses.
ghost use Rattle.std.specs.Prelude.{◌≡◌, ◌+◌, ◌≤◌, ◌++◌, codes, decimal, length};
ghost use Rattle.resume_formats.specs.Status.{fault_number, status_text};

use arrayvec::ArrayVec;
use itoa::Buffer;
use lister::Line;
use resume_formats::{LevelFault, ResumeStatus};

/// Appends bytes, for which there is room.
fn push_bytes(line: &mut Line, bytes: &[u8])
    requires { length line.old.items + length bytes.now ≤ 384 }
    ensures { line.new.items ≡ line.old.items ++ bytes.now }
{
    let done = line.try_extend_from_slice(bytes).is_ok();
    prove!(done);
}

/// These bytes.
fn line_from(bytes: &[u8]) -> Line
    requires { length bytes.now ≤ 384 }
    ensures { result.items ≡ bytes.now }
{
    let mut line = ArrayVec::new();
    push_bytes(&mut line, bytes);
    line
}

/// The text of a listing from which growth can't start.
fn refused_text(why: LevelFault) -> Line
    ensures { result.items ≡ codes "macek_resume: listing refused " ++ decimal (fault_number why) ++ codes "\n" }
{
    let mut buffer = Buffer::new();
    let mut line = line_from(b"macek_resume: listing refused ");
    push_bytes(&mut line, buffer.format(why.number()).as_bytes());
    push_bytes(&mut line, b"\n");
    line
}

/// The text of a status, as one line; no bytes for `Done`. It takes no memory.
#[tactic(auto, unfolding(resume_formats::specs::Status::status_text))]
pub fn resume_text(status: &ResumeStatus) -> Line
    ensures { result.items ≡ status_text status.now }
{
    match status {
        ResumeStatus::Done => line_from(b""),
        ResumeStatus::Usage => line_from(b"macek_resume: usage: N\n"),
        ResumeStatus::BadListing(why) => refused_text(*why),
        ResumeStatus::ReadFault => line_from(b"macek_resume: the listing could not be read\n"),
        ResumeStatus::WriteFault => line_from(b"macek_resume: the listing could not be written\n"),
        ResumeStatus::NoMemory => line_from(b"macek_resume: out of memory\n"),
    }
}
