// Rows of numbers, whose writes are counted.
ghost use Rattle.std.specs.Prelude.{◌≡◌, ◌<◌};

use link_set::{NoMemory, Rows, Steps};
use std::marker::Brand;
use std::sync::ledger::{Blank, Ledger};
use std::test::Fail;

// Pushes with a count of steps.
fn pushed<L: Ledger>(row: &mut Rows, to: u64, blank: Blank) -> Result<(), NoMemory>
    requires name { blank.name ≡ L.name }
    requires parts { blank.parts ≡ L.parts }
    requires some { 0 < blank.parts }
{
    let mut steps = Steps::<L>::start(blank);
    row.push(to, &mut steps)
}

#[test]
fn a_row(rt: HostRuntime) -> Result<(), Fail> {
    let mut row = Rows::made(rt.alloc(), 2, 5)?;
    row.reserve(1)?;
    pushed::<Brand>(&mut row, 7, Blank::new(1))?;
    assert_eq!(rt; row.len(), 3);
    assert_eq!(rt; row.get(1), Some(5));
    assert_eq!(rt; row.get(2), Some(7));
    assert_eq!(rt; row.get(3), None);
    Ok(())
}
