// The two ends of a run over memory.
use outside::{MemorySink, MemorySource};
use std::alloc::{AllocError, Global};

/// How a source or a sink goes on.
#[derive(Clone, Copy)]
pub struct Flow {
    /// How many bytes it moves a call at most, where 0 counts as 1.
    pub most: usize,
    /// Which of its calls fails, counted from 1; 0 where none does.
    pub failing: u64,
}

impl Flow {
    /// All bytes at once, and no call fails.
    pub fn whole() -> Flow {
        Flow {
            most: 1 << 25,
            failing: 0,
        }
    }

    /// All bytes at once, and this call fails.
    pub fn failing_at(call: u64) -> Flow {
        Flow {
            most: 1 << 25,
            failing: call,
        }
    }
}

/// A source that gives this text, and a sink that holds nothing yet.
///
/// `AllocError` where there was no memory for them.
pub fn ends(
    alloc: Global,
    text: &[u8],
    reads: Flow,
    writes: Flow,
) -> Result<(MemorySource, MemorySink), AllocError> {
    let text = text.to_vec(alloc)?;
    let source = MemorySource::new(text, reads.most.max(1), vec![in alloc; reads.failing]?);
    let sink = MemorySink::new(alloc, writes.most.max(1), vec![in alloc; writes.failing]?);
    Ok((source, sink))
}
