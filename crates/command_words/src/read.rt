//! The words of a command line, and what they ask for.
ghost use Rattle.std.specs.Prelude.{◌≡◌, ◌≤◌, List, IfOk, IfSome, MatchOption, None, false, map, string_bytes};
ghost use Rattle.formats.specs.Words.{Piece, IsCommand, StandsAtMacek, StandsAtAlone};
ghost use Rattle.command_words.specs.Asking.{IsAsked, StandsAtEither};

use crate::command::{has_dashes, parsed};
use crate::number::number_if;
use std::alloc::{AllocError, Global};

/// What the words of `macek` ask for.
#[derive(Clone, Copy, Debug, PartialEq, Eq)]
pub struct Asked {
    /// The number of workers, from 1 to 64, where it is named.
    pub workers: Option<u32>,
    /// The number of the sample, at most 15, where one is named.
    pub sample: Option<u8>,
}

/// What the words of `macek_alone` ask for.
#[derive(Clone, Copy, Debug, PartialEq, Eq)]
pub struct AskedAlone {
    /// The number of the sample, at most 15, where one is named.
    pub sample: Option<u8>,
    /// Whether the levels are to be grown in the orderly way.
    pub orderly: bool,
}

/// What the words ask for that one of the programs may take.
#[derive(Clone, Copy)]
struct AskedOfEither {
    workers: Option<u32>,
    sample: Option<u8>,
    orderly: bool,
}

/// What the words of `macek`, without the program's name, ask for: `--workers N` and `--sample K`, each at most once, in any
/// order. None where the words are anything else.
pub fn read_words(alloc: Global, words: &[String]) -> Result<Option<Asked>, AllocError>
    ensures reads { IfOk result (λ o. MatchOption o
        ((pieces : List Piece) → IsCommand StandsAtMacek (map (λ s. string_bytes s) words.now) pieces → ⊥)
        (λ asked. IsAsked StandsAtMacek (map (λ s. string_bytes s) words.now) asked.workers asked.sample false)) }
    ensures ranges { IfOk result (λ o. IfSome o
        (λ asked. IfSome asked.workers (λ n. (1 ≤ n) × (n ≤ 64)) × IfSome asked.sample (λ k. k ≤ 15))) }
{
    let Some(asked) = read_either(alloc, words)? else {
        return Ok(None);
    };
    if asked.orderly {
        return Ok(None);
    }
    Ok(Some(Asked {
        workers: asked.workers,
        sample: asked.sample,
    }))
}

/// What the words of `macek_alone`, without the program's name, ask for: `--sample K` and `--orderly`, each at most once, in
/// any order. None where the words are anything else.
pub fn read_alone(alloc: Global, words: &[String]) -> Result<Option<AskedAlone>, AllocError>
    ensures reads { IfOk result (λ o. MatchOption o
        ((pieces : List Piece) → IsCommand StandsAtAlone (map (λ s. string_bytes s) words.now) pieces → ⊥)
        (λ asked. IsAsked StandsAtAlone (map (λ s. string_bytes s) words.now) None asked.sample asked.orderly)) }
    ensures range { IfOk result (λ o. IfSome o (λ asked. IfSome asked.sample (λ k. k ≤ 15))) }
{
    let Some(asked) = read_either(alloc, words)? else {
        return Ok(None);
    };
    match asked.workers {
        Some(_) => Ok(None),
        None => Ok(Some(AskedAlone {
            sample: asked.sample,
            orderly: asked.orderly,
        })),
    }
}

/// What the words ask for, where each of them is one that one of the programs takes: the words of both programs are among
/// these. None where they are anything else.
fn read_either(alloc: Global, words: &[String]) -> Result<Option<AskedOfEither>, AllocError>
    ensures reads { IfOk result (λ o. MatchOption o
        ((pieces : List Piece) → IsCommand StandsAtEither (map (λ s. string_bytes s) words.now) pieces → ⊥)
        (λ asked. IsAsked StandsAtEither (map (λ s. string_bytes s) words.now) asked.workers asked.sample asked.orderly)) }
    ensures ranges { IfOk result (λ o. IfSome o
        (λ asked. IfSome asked.workers (λ n. (1 ≤ n) × (n ≤ 64)) × IfSome asked.sample (λ k. k ≤ 15))) }
{
    if has_dashes(words) {
        return Ok(None);
    }
    let Some(matches) = parsed(alloc, words)? else {
        return Ok(None);
    };
    let Some(workers) = number_if(matches.get_str("workers"), 1, 64) else {
        return Ok(None);
    };
    let Some(sample) = number_if(matches.get_str("sample"), 0, 15) else {
        return Ok(None);
    };
    Ok(Some(AskedOfEither {
        workers,
        sample: sample_number(sample),
        orderly: matches.get_flag("orderly"),
    }))
}

// The number of a sample.
fn sample_number(number: Option<u32>) -> Option<u8>
    requires { IfSome number (λ k. k ≤ 15) }
    ensures { result ≡ number }
{
    match number {
        Some(k) => Some(k as u8),
        None => None,
    }
}
