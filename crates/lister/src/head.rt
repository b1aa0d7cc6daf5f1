ghost use Rattle.std.specs.Prelude.{◌≡◌, ◌+◌, ◌*◌, ◌≤◌, [], ◌∷◌, ◌++◌, false, IsTrue, length, map, option_to_list, codes};
ghost use Rattle.matroid_theory.specs.declared.Mode.TheVariants.{Semilinear};
ghost use Rattle.named_matroids.specs.Names.{named_by};
ghost use Rattle.formats.specs.Lines.{line_of_words};
ghost use Rattle.formats.specs.Statement.{VersionIs, FieldIs, RankIs, SizeIs, EquivalenceIs, Forbids, ListsWith, Prints, spelling};
ghost use Rattle.formats.specs.Listing.{where_set, is_semilinear, text_of_statements};
ghost use Rattle.formats.specs.Listing as listing;
ghost use Rattle.request_reader.specs.Filters.{wanted_of};
ghost use Rattle.request_reader.specs.Requested.{minors_of};

use crate::line::{Head, push_line};
use crate::name::name_of;
use arrayvec::ArrayVec;
use formats::PrintMode;
use itoa::Buffer;
use matroid_theory::Mode;
use named_matroids::MinorItem;
use product_rep::Factors;
use request_reader::{Filters, Request};

/// Appends the line of the factors.
fn push_field_line(head: &mut Head, factors: &Factors)
    requires { length head.old.items ≤ 900 }
    ensures bytes { head.new.items ≡ head.old.items ++ line_of_words (spelling (FieldIs factors.now)) }
    ensures short { length head.new.items ≤ length head.old.items + 40 }
{
    let mut first = Buffer::new();
    let mut second = Buffer::new();
    let mut third = Buffer::new();
    let count = factors.count();
    let field = b"field".as_slice();
    let q = first.format(factors.field(0).order()).as_bytes();
    if count == 1 {
        push_line(head, &[field, q]);
        return;
    }
    let r = second.format(factors.field(1).order()).as_bytes();
    if count == 2 {
        push_line(head, &[field, q, b"x", r]);
        return;
    }
    let s = third.format(factors.field(2).order()).as_bytes();
    push_line(head, &[field, q, b"x", r, b"x", s]);
}

/// Appends the line of the equivalence, where it isn't the linear one.
fn push_mode_line(head: &mut Head, mode: Mode)
    requires { length head.old.items ≤ 900 }
    ensures bytes { head.new.items ≡ head.old.items ++ text_of_statements (where_set (is_semilinear mode) (EquivalenceIs Semilinear)) }
    ensures short { length head.new.items ≤ length head.old.items + 23 }
{
    if matches!(mode, Mode::Semilinear) {
        push_line(head, &[b"equivalence".as_slice(), b"semilinear"]);
    }
}

/// Appends the line that forbids a minor.
fn push_forbid_line(head: &mut Head, item: &MinorItem)
    requires { length head.old.items ≤ 900 }
    ensures bytes { head.new.items ≡ head.old.items ++ line_of_words (spelling (Forbids (named_by item.now.spelling))) }
    ensures short { length head.new.items ≤ length head.old.items + 88 }
{
    let name = name_of(item.spelling());
    push_line(head, &[b"forbid".as_slice(), name.as_slice()]);
}

/// Appends the lines that forbid minors, in their order.
fn push_forbid_lines(head: &mut Head, items: &[MinorItem])
    requires { length head.old.items + 88 * length items.now ≤ 900 }
    ensures bytes { head.new.items ≡ head.old.items ++ text_of_statements (map Forbids (minors_of items.now)) }
    ensures short { length head.new.items ≤ length head.old.items + 88 * length items.now }
{
    for item in items {
        push_forbid_line(head, item);
    }
}

/// Appends the line of a filter, where it is set.
fn push_flag_line(head: &mut Head, is_set: bool, word: &[u8])
    requires room { length head.old.items ≤ 900 }
    requires word { length word.now ≤ 9 }
    ensures set { IsTrue is_set → head.new.items ≡ head.old.items ++ line_of_words (codes "filter" ∷ word.now ∷ []) }
    ensures unset { is_set ≡ false → head.new.items ≡ head.old.items }
    ensures short { length head.new.items ≤ length head.old.items + 17 }
{
    if is_set {
        push_line(head, &[b"filter".as_slice(), word]);
    }
}

/// Appends the line of the minor that a form must have, where there is one.
fn push_has_line(head: &mut Head, filters: &Filters)
    requires { length head.old.items ≤ 900 }
    ensures bytes { head.new.items ≡ head.old.items ++ text_of_statements (map ListsWith (option_to_list (wanted_of filters.now))) }
    ensures short { length head.new.items ≤ length head.old.items + 92 }
{
    if let Some(item) = &filters.has {
        let name = name_of(item.spelling());
        push_line(head, &[b"filter".as_slice(), b"has", name.as_slice()]);
    }
}

/// Appends the line that says what is printed of a level.
fn push_print_line(head: &mut Head, print: PrintMode)
    requires { length head.old.items ≤ 1000 }
    ensures { head.new.items ≡ head.old.items ++ text_of_statements (Prints print ∷ []) }
{
    let word = match print {
        PrintMode::Forms => b"forms".as_slice(),
        PrintMode::Counts => b"counts",
    };
    push_line(head, &[b"print".as_slice(), word]);
}

/// The lines of a head before that of the equivalence.
fn first_lines(version: u8, factors: &Factors, rank: u8, size: u8) -> Head
    ensures bytes { result.items ≡ codes "macek listing 1\n" ++ text_of_statements (VersionIs version ∷ FieldIs factors.now ∷ RankIs rank ∷ SizeIs size ∷ []) }
    ensures short { length result.items ≤ 100 }
{
    let mut version_text = Buffer::new();
    let mut rank_text = Buffer::new();
    let mut size_text = Buffer::new();
    let version = version_text.format(version).as_bytes();
    let rank = rank_text.format(rank).as_bytes();
    let size = size_text.format(size).as_bytes();
    let mut head = ArrayVec::new();
    push_line(&mut head, &[b"macek".as_slice(), b"listing", b"1"]);
    push_line(&mut head, &[b"version".as_slice(), version]);
    push_field_line(&mut head, factors);
    push_line(&mut head, &[b"rank".as_slice(), rank]);
    push_line(&mut head, &[b"size".as_slice(), size]);
    head
}

/// The head of a listing: what it lists, line by line.
pub fn head_text(request: &Request) -> Head
    ensures { result.items ≡ listing.head_text request.now }
{
    let mut head = first_lines(
        request.version(),
        &request.factors(),
        request.rank(),
        request.size(),
    );
    push_mode_line(&mut head, request.mode());
    push_forbid_lines(&mut head, request.forbid());
    let filters = request.filters();
    push_flag_line(&mut head, filters.connected, b"connected");
    push_flag_line(&mut head, filters.three, b"3conn");
    push_flag_line(&mut head, filters.cosimple, b"cosimple");
    push_flag_line(&mut head, filters.distinct, b"distinct");
    push_has_line(&mut head, filters);
    push_print_line(&mut head, request.print());
    head
}
