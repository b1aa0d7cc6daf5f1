// Moves that scale rows.
//
// Rows that no column ties together can be scaled apart: the columns that meet them are multiplied by the inverse.
ghost use Rattle.std.specs.Prelude.{◌≡◌, ◌<◌};

use crate::built::{move_by, unit_basis};
use crate::ground::{Codes, Ground, Part};
use crate::several::{MOST_MOVES, Symmetries};
use product_rep::Rep;
use std::alloc::AllocError;

/// For each row, its group: rows that a column ties together have one group.
type Groups = [usize; 6];

/// Adds moves that scale the rows of one group in one factor, for each group but that of the last row.
pub fn add_scalings(rep: &Rep, ground: &Ground, found: &mut Symmetries) -> Result<(), AllocError>
    ensures parent { found.new.parent ≡ found.old.parent }
    ensures mode { found.new.mode ≡ found.old.mode }
{
    let groups = groups_of(ground);
    for row in 0..ground.rank {
        if groups[row] == row && groups[ground.rank - 1] != row {
            add_scalings_of(rep, ground, &groups, row, found)?;
        }
    }
    Ok(())
}

/// The groups of the rows: each is the number of its first row.
fn groups_of(ground: &Ground) -> Groups {
    let mut groups = [0, 1, 2, 3, 4, 5];
    for j in ground.rank..ground.size {
        groups = tied_by(
            ground,
            &ground.columns[j].parts[0],
            ground.heads[j],
            &groups,
        );
    }
    groups
}

/// The groups after a column with these codes and this first row tied its rows together.
fn tied_by(ground: &Ground, codes: &Part, head: usize, groups: &Groups) -> Groups {
    let mut tied = *groups;
    for i in 0..ground.rank {
        if head < 6 && codes[i] != 0 {
            tied = joined(&tied, tied[head], tied[i]);
        }
    }
    tied
}

/// The groups after two of them were made one, of the lower number.
fn joined(groups: &Groups, a: usize, b: usize) -> Groups {
    let mut joined = *groups;
    for i in 0..6 {
        if joined[i] == a || joined[i] == b {
            joined[i] = a.min(b);
        }
    }
    joined
}

/// Adds moves that scale the rows of this group, in each factor.
fn add_scalings_of(
    rep: &Rep,
    ground: &Ground,
    groups: &Groups,
    group: usize,
    found: &mut Symmetries,
) -> Result<(), AllocError>
    ensures parent { found.new.parent ≡ found.old.parent }
    ensures mode { found.new.mode ≡ found.old.mode }
{
    for factor in 0..ground.count {
        add_scalings_in(rep, ground, groups, group, factor, found)?;
    }
    Ok(())
}

/// Adds the moves that scale the rows of this group in one factor.
fn add_scalings_in(
    rep: &Rep,
    ground: &Ground,
    groups: &Groups,
    group: usize,
    factor: usize,
    found: &mut Symmetries,
) -> Result<(), AllocError>
    requires { factor < 3 }
    ensures parent { found.new.parent ≡ found.old.parent }
    ensures mode { found.new.mode ≡ found.old.mode }
{
    for code in 2..ground.fields[factor].order() {
        if found.len() < MOST_MOVES {
            let basis = scaled_basis(ground, groups, group, factor, code);
            found.add(move_by(rep, ground, &basis))?;
        }
    }
    Ok(())
}

/// The unit columns, of which those of the group's rows are multiplied in one factor.
fn scaled_basis(
    ground: &Ground,
    groups: &Groups,
    group: usize,
    factor: usize,
    code: u8,
) -> [Codes; 6]
    requires { factor < 3 }
{
    let mut scalars = [1; 3];
    scalars[factor] = code;
    let mut basis = unit_basis(ground);
    for i in 0..6 {
        if groups[i] == group {
            basis[i] = ground.multiple(&scalars, &basis[i]);
        }
    }
    basis
}
