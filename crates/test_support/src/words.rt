// Words of a command line.
use std::alloc::{AllocError, Global};

/// The words as a program gets them.
///
/// `AllocError` where there was no memory for them.
pub fn owned(alloc: Global, words: &[&str]) -> Result<Vec<String>, AllocError> {
    let mut owned = Vec::with_capacity(alloc, words.len())?;
    for word in words {
        owned.push(word.to_string(alloc)?)?;
    }
    Ok(owned)
}
