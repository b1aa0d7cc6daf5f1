//! Requests by a number.
ghost use Rattle.std.specs.Prelude.{◌≡◌, ◌+◌, ◌<◌, ◌≤◌, ◌++◌, length};
ghost use Rattle.formats.specs.Request.{StandsFor};
ghost use Rattle.formats.specs.Words.{sample_text};
ghost use Rattle.named_matroids.specs.Names.{named_by, IsSmallName};
ghost use Rattle.request_reader.specs.Requested.{minors_of, AreGiven};
ghost use Rattle.request_reader.specs.Samples.{where_named};

use crate::filters::Filters;
use crate::request::Request;
use arrayvec::ArrayVec;
use formats::PrintMode;
use matroid_theory::Mode;
use named_matroids::{MinorItem, Spelling, item_of};
use product_rep::Factors;
use request_lines::Version;

/// The request of a number from 0 to 15: the counts of rank 4 over GF(2) to size 15, where the bits of the number, from the
/// lowest, forbid `F7`, `F7*`, `K4` and `K5`.
pub fn sample_request(number: u8) -> Request
    requires { number ≤ 15 }
    ensures { StandsFor (sample_text number) result }
{
    let Some(factors) = Factors::of(&[2]) else {
        unreachable!()
    };
    let forbid = ArrayVec::new();
    let forbid = forbidding(forbid, number % 2 == 1, Spelling::Fano);
    let forbid = forbidding(forbid, number / 2 % 2 == 1, Spelling::FanoDual);
    let forbid = forbidding(forbid, number / 4 % 2 == 1, Spelling::KFour);
    let forbid = forbidding(forbid, number / 8 % 2 == 1, Spelling::KFive);
    Request::counting(factors, 4, 15, forbid)
}

/// The minors with one more, where it is asked for.
fn forbidding(
    forbid: ArrayVec<MinorItem, 8>,
    is_asked: bool,
    spelling: Spelling,
) -> ArrayVec<MinorItem, 8>
    requires room { length forbid.items < 8 }
    requires small { IsSmallName (named_by spelling) }
    requires given { AreGiven forbid.items }
    ensures names { minors_of result.items ≡ minors_of forbid.items ++ where_named is_asked (named_by spelling) }
    ensures given { AreGiven result.items }
    ensures room { length result.items ≤ length forbid.items + 1 }
{
    let mut forbid = forbid;
    if is_asked {
        forbid.push(item_of(spelling));
    }
    forbid
}
