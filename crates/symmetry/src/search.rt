// The search for automorphisms.
//
// The matrix of a move that takes a standard representation to itself has multiples of its columns as columns: the images of the
// unit columns. They are chosen from the last row up. A column whose first row is the one just chosen then has a known image, which
// must be one of the columns but for scalars.
ghost use Rattle.std.specs.Prelude.{◌≡◌, ◌<◌, IfOk};

use crate::built::{move_by, unit_basis};
use crate::ground::{Codes, Ground, Scalars, ground_of};
use crate::scalings::add_scalings;
use crate::several::{MOST_MOVES, Symmetries};
use matroid_theory::Mode;
use product_rep::Rep;
use std::alloc::{AllocError, Global};

/// At least as many as three fields have tuples of scalars other than 0.
const MOST_SCALARS: u32 = 1728;

/// How many images of unit columns are tried for all moves of one representation.
const MOST_STEPS: u32 = 600;

/// How many of them for one move.
const MOST_STEPS_EACH: u32 = 150;

/// The images of the unit columns that are chosen so far, from the last row up.
#[derive(Drop)]
struct Chosen {
    basis: [Codes; 6],
    /// For each element whether its multiples are no images any more.
    taken: [bool; 16],
}

/// Moves of the mode that take the representation to itself, as many as a short search finds.
///
/// # Errors
///
/// `AllocError` where there was no memory for the moves.
pub fn find_symmetries(alloc: Global, rep: &Rep, mode: Mode) -> Result<Symmetries, AllocError>
    ensures parent { IfOk result (λ s. s.parent ≡ rep.now) }
    ensures mode { IfOk result (λ s. s.mode ≡ mode) }
{
    let mut found = Symmetries::none(alloc, rep, mode);
    let ground = ground_of(rep);
    add_scalings(rep, &ground, &mut found)?;
    let mut steps = MOST_STEPS;
    add_by_rows(rep, &ground, &mut steps, &mut found)?;
    Ok(found)
}

/// For each row and each element: adds a move that leaves the unit columns of later rows in place and takes that
/// of the row to the element. Such moves make all moves.
fn add_by_rows(
    rep: &Rep,
    ground: &Ground,
    steps: &mut u32,
    found: &mut Symmetries,
) -> Result<(), AllocError>
    ensures parent { found.new.parent ≡ found.old.parent }
    ensures mode { found.new.mode ≡ found.old.mode }
{
    for row in 0..ground.rank {
        add_by_row(rep, ground, row, steps, found)?;
    }
    Ok(())
}

/// For each element: adds a move that leaves the unit columns of later rows in place and takes that of the row to the element.
fn add_by_row(
    rep: &Rep,
    ground: &Ground,
    row: usize,
    steps: &mut u32,
    found: &mut Symmetries,
) -> Result<(), AllocError>
    requires { row < 6 }
    ensures parent { found.new.parent ≡ found.old.parent }
    ensures mode { found.new.mode ≡ found.old.mode }
{
    for element in 0..ground.size {
        let mut chosen = kept_after(ground, row);
        let given = (*steps).min(MOST_STEPS_EACH);
        let mut left = given;
        if found.len() < MOST_MOVES
            && tries_image(ground, &mut chosen, row, element, element == row, &mut left)
        {
            found.add(move_by(rep, ground, &chosen.basis))?;
        }
        *steps = steps.saturating_sub(given.saturating_sub(left));
    }
    Ok(())
}

/// The unit columns of the rows after this one as their own images.
fn kept_after(ground: &Ground, row: usize) -> Chosen
    requires { row < 6 }
{
    let mut taken = [false; 16];
    for i in row + 1..ground.rank {
        taken[i] = true;
    }
    Chosen {
        basis: unit_basis(ground),
        taken,
    }
}

/// Tries all elements as the image of the unit column of the row, and says whether the images of all earlier rows were found too.
#[cycle(search)]
fn tries_row(ground: &Ground, chosen: &mut Chosen, row: usize, steps: &mut u32) -> bool
    requires { row < 6 }
{
    for element in 0..ground.size {
        if tries_image(ground, chosen, row, element, false, steps) {
            return true;
        }
    }
    false
}

/// Tries all multiples of one element as the image of the unit column of the row, but for 1 where that is left out, and says whether
/// the images of all earlier rows were found too.
#[cycle(search)]
fn tries_image(
    ground: &Ground,
    chosen: &mut Chosen,
    row: usize,
    element: usize,
    no_unit: bool,
    steps: &mut u32,
) -> bool
    requires row { row < 6 }
    requires element { element < 16 }
{
    if chosen.taken[element] {
        return false;
    }
    let mut scalars = [1; 3];
    for number in 0..MOST_SCALARS {
        if *steps == 0 {
            return false;
        }
        *steps -= 1;
        if number > 0 || !no_unit {
            chosen.basis[row] = ground.multiple(&scalars, &ground.columns[element]);
            if keeps_columns(ground, &chosen.basis, row)
                && completes(ground, chosen, row, element, steps)
            {
                return true;
            }
        }
        let Some(next) = next_scalars(ground, row, &scalars) else {
            return false;
        };
        scalars = next;
    }
    false
}

/// Whether the images of all earlier rows were found, where the element is that of this row, and all images together are those of a
/// move.
#[cycle(search)]
fn completes(
    ground: &Ground,
    chosen: &mut Chosen,
    row: usize,
    element: usize,
    steps: &mut u32,
) -> bool
    requires row { row < 6 }
    requires element { element < 16 }
{
    if row == 0 {
        return permutes(ground, &chosen.basis);
    }
    chosen.taken[element] = true;
    let found = tries_row(ground, chosen, row - 1, steps);
    chosen.taken[element] = false;
    found
}

/// Whether each column is an image but for scalars.
fn permutes(ground: &Ground, basis: &[Codes; 6]) -> bool {
    let reached = images_of(ground, basis);
    for j in 0..ground.size {
        if !reached[j] {
            return false;
        }
    }
    true
}

/// Which columns are images but for scalars.
fn images_of(ground: &Ground, basis: &[Codes; 6]) -> [bool; 16] {
    let mut reached = [false; 16];
    for j in 0..ground.size {
        let image = ground.scaled(&ground.image(basis, 0, &ground.columns[j]));
        let place = ground.place_of(&image);
        if place < 16 {
            reached[place] = true;
        }
    }
    reached
}

/// The scalars that come next: all are tried where a column ties the row to later ones, else 1 alone.
fn next_scalars(ground: &Ground, row: usize, scalars: &Scalars) -> Option<Scalars>
    requires { row < 6 }
{
    if !ground.is_head[row] {
        return None;
    }
    let mut next = *scalars;
    for factor in 0..ground.count {
        if next[factor] < 200 && next[factor] + 1 < ground.fields[factor].order() {
            next[factor] += 1;
            return Some(next);
        }
        next[factor] = 1;
    }
    None
}

/// Whether the image of each column with its first code in the row is one of the columns but for scalars.
fn keeps_columns(ground: &Ground, basis: &[Codes; 6], row: usize) -> bool {
    for j in ground.rank..ground.size {
        if ground.heads[j] == row {
            let image = ground.scaled(&ground.image(basis, row, &ground.columns[j]));
            if ground.place_of(&image) == ground.size {
                return false;
            }
        }
    }
    true
}
