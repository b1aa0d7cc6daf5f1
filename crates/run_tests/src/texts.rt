// The texts of a listing below its head, and those of the statuses.
ghost use Rattle.std.specs.Prelude.{◌≡◌, IfOk};

use arrayvec::CapacityError;
use formats::{Refusal, Status, Word};
use lister::{end_text, form_text, level_text, refusal_text};
use product_rep::{Factors, ProductColumn, Rep};
use std::process::Abort;
use std::test::Fail;

#[test]
fn line_of_a_level(rt: HostRuntime) {
    assert_eq!(rt;
        level_text(16, 60, 9, 12_345).as_slice(),
        b"level 16 classes 60 listed 9 tried 12345\n".as_slice()
    );
    assert_eq!(rt; end_text().as_slice(), b"end\n".as_slice());
}

#[test]
fn line_of_a_form_over_a_product(rt: HostRuntime) -> Result<(), Fail> {
    let mut rep = Rep::unit(Factors::of(&[2, 3]).ok_or("no factors")?, 2);
    rep.push_column(&column(&[1, 1, 1, 2])?);
    assert_eq!(rt;
        form_text(&rep).as_slice(),
        b"10 01 11 | 10 01 12\n".as_slice()
    );
    Ok(())
}

#[test]
fn line_of_a_form_with_letters(rt: HostRuntime) -> Result<(), Fail> {
    let mut rep = Rep::unit(Factors::of(&[13]).ok_or("no factors")?, 2);
    rep.push_column(&column(&[1, 9])?);
    rep.push_column(&column(&[1, 10])?);
    rep.push_column(&column(&[1, 12])?);
    assert_eq!(rt; form_text(&rep).as_slice(), b"10 01 19 1a 1c\n".as_slice());
    Ok(())
}

// The status has this text.
fn tells(rt: &impl Abort, status: Status, text: &str) {
    assert_eq!(rt; refusal_text(&status).as_slice(), text.as_bytes());
}

#[test]
fn tells_of_a_status(rt: HostRuntime) {
    tells(&rt, Status::Done, "");
    tells(
        &rt,
        Status::Usage,
        "macek: usage: [--workers N] [--sample K]\n",
    );
    tells(
        &rt,
        Status::Refused(Refusal::Missing(Word::Size)),
        "macek: refused 4: no line size\n",
    );
    tells(
        &rt,
        Status::Refused(Refusal::TooWide(35_598_707_465_734)),
        "macek: refused 7: 35598707465734 columns are more than 1000000\n",
    );
    tells(
        &rt,
        Status::ReadFault,
        "macek: the input could not be read\n",
    );
    tells(&rt, Status::NoMemory, "macek: out of memory\n");
}

fn column(codes: &[u8]) -> Result<ProductColumn, CapacityError>
    ensures { IfOk result (λ column. column.items ≡ codes.now) }
{
    let mut column = ProductColumn::new();
    column.try_extend_from_slice(codes)?;
    Ok(column)
}
