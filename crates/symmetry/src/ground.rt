// The columns of a representation, for the search.
//
// Nothing is said here of what is computed: each move that is found is checked. So codes that no column has count as 0.
ghost use Rattle.std.specs.Prelude.{◌≡◌, ◌<◌, ◌≤◌};

use field_tables::Field;
use product_rep::Rep;

/// The codes of a column in one factor, row by row; 0 after their end.
pub type Part = [u8; 6];

/// The codes of a column, factor by factor.
#[derive(Clone, Copy)]
pub struct Codes {
    pub parts: [Part; 3],
}

/// A code for each factor.
pub type Scalars = [u8; 3];

/// The columns of a representation.
#[derive(Drop)]
pub struct Ground {
    pub fields: [Field; 3],
    pub count: usize,
    pub rank: usize,
    pub size: usize,
    pub columns: [Codes; 16],
    /// For each column the first row at which it isn't 0; the rank where there is none.
    pub heads: [usize; 16],
    /// For each row whether it is the first of a column that isn't a unit column.
    pub is_head: [bool; 6],
    ghost some: { 0 < count },
    ghost few: { count ≤ 3 },
    ghost low: { rank ≤ 6 },
    ghost short: { size ≤ 16 },
}

/// The columns of the representation.
pub fn ground_of(rep: &Rep) -> Ground {
    rep.laws();
    let factors = rep.factors();
    let count = factors.count();
    let first = factors.field(0);
    let mut fields = [first; 3];
    for factor in 1..count {
        fields[factor] = factors.field(factor);
    }
    let columns = columns_of(rep);
    let heads = heads_of(rep, &columns);
    Ground {
        fields,
        count,
        rank: rep.rank(),
        size: rep.size(),
        columns,
        heads,
        is_head: marked(rep, &heads),
    }
}

/// The columns of the representation.
fn columns_of(rep: &Rep) -> [Codes; 16] {
    rep.laws();
    let count = rep.factors().count();
    let mut columns = [Codes::zero(); 16];
    for j in 0..rep.size() {
        columns[j] = codes_of(rep.column(j).as_slice(), count);
    }
    columns
}

/// The codes of so many factors, which stand row by row.
fn codes_of(column: &[u8], count: usize) -> Codes
    requires { count ≤ 3 }
{
    let mut codes = Codes::zero();
    for factor in 0..count {
        for i in 0..6 {
            let place = i * count + factor;
            if place < column.len() {
                codes.parts[factor][i] = column[place];
            }
        }
    }
    codes
}

/// For each column the first row at which it isn't 0; the rank where there is none.
fn heads_of(rep: &Rep, columns: &[Codes; 16]) -> [usize; 16] {
    rep.laws();
    let mut heads = [rep.rank(); 16];
    for j in 0..rep.size() {
        heads[j] = head_of(&columns[j].parts[0], rep.rank());
    }
    heads
}

/// The first of so many rows at which the codes aren't 0; their number where there is none.
fn head_of(codes: &Part, rank: usize) -> usize
    requires { rank ≤ 6 }
{
    for i in 0..rank {
        if codes[i] != 0 {
            return i;
        }
    }
    rank
}

/// Which rows are the first of columns that aren't unit columns.
fn marked(rep: &Rep, heads: &[usize; 16]) -> [bool; 6] {
    rep.laws();
    let mut is_head = [false; 6];
    for j in rep.rank()..rep.size() {
        if heads[j] < 6 {
            is_head[heads[j]] = true;
        }
    }
    is_head
}

/// The product of two codes.
fn product(field: Field, a: u8, b: u8) -> u8 {
    if a < field.order() && b < field.order() {
        field.mul(a, b)
    } else {
        0
    }
}

/// The sum of two codes.
fn sum(field: Field, a: u8, b: u8) -> u8 {
    if a < field.order() && b < field.order() {
        field.add(a, b)
    } else {
        0
    }
}

/// The code whose product with this is 1, and 0 for 0.
fn inverse(field: Field, a: u8) -> u8 {
    if a != 0 && a < field.order() {
        field.inv(a)
    } else {
        0
    }
}

impl Codes {
    /// The zero column.
    pub fn zero() -> Codes {
        Codes { parts: [[0; 6]; 3] }
    }
}

impl Ground {
    /// The column with the codes of each factor multiplied.
    pub fn multiple(&self, scalars: &Scalars, column: &Codes) -> Codes {
        let mut multiple = Codes::zero();
        for factor in 0..self.count {
            multiple.parts[factor] = self.multiple_in(
                factor,
                scalars[factor],
                &column.parts[factor],
            );
        }
        multiple
    }

    /// The codes of one factor multiplied.
    fn multiple_in(&self, factor: usize, scalar: u8, codes: &Part) -> Part
        requires { factor < 3 }
    {
        let field = self.fields[factor];
        let mut multiple = [0; 6];
        for i in 0..self.rank {
            multiple[i] = product(field, scalar, codes[i]);
        }
        multiple
    }

    /// The column scaled so that in each factor its first code that isn't 0 is 1.
    pub fn scaled(&self, column: &Codes) -> Codes {
        self.multiple(&self.leads(column), column)
    }

    /// For each factor the code that makes the first code of the column that isn't 0 a 1.
    pub fn leads(&self, column: &Codes) -> Scalars {
        let mut leads = [1; 3];
        for factor in 0..self.count {
            leads[factor] = self.lead_in(factor, &column.parts[factor]);
        }
        leads
    }

    /// The code that makes the first of the factor's codes that isn't 0 a 1; 1 where all are 0.
    fn lead_in(&self, factor: usize, codes: &Part) -> u8
        requires { factor < 3 }
    {
        for i in 0..self.rank {
            if codes[i] != 0 {
                return inverse(self.fields[factor], codes[i]);
            }
        }
        1
    }

    /// The column of the representation that this is; the size where it is none.
    pub fn place_of(&self, column: &Codes) -> usize
        ensures { result ≤ self.now.size }
    {
        for j in 0..self.size {
            if self.is_column(j, column) {
                return j;
            }
        }
        self.size
    }

    /// Whether this is column `j`.
    fn is_column(&self, j: usize, column: &Codes) -> bool
        requires { j < 16 }
    {
        for factor in 0..self.count {
            for i in 0..self.rank {
                if self.columns[j].parts[factor][i] != column.parts[factor][i] {
                    return false;
                }
            }
        }
        true
    }

    /// The matrix with the columns of the basis from one row on times the column.
    pub fn image(&self, basis: &[Codes; 6], from: usize, column: &Codes) -> Codes {
        let mut image = Codes::zero();
        for factor in 0..self.count {
            image.parts[factor] = self.image_in(factor, basis, from, &column.parts[factor]);
        }
        image
    }

    /// The codes of one factor of the matrix with the columns of the basis from one row on times the column.
    fn image_in(&self, factor: usize, basis: &[Codes; 6], from: usize, column: &Part) -> Part
        requires { factor < 3 }
    {
        let mut image = [0; 6];
        for k in from..self.rank {
            if column[k] != 0 {
                image = self.with_multiple_in(factor, &image, column[k], &basis[k].parts[factor]);
            }
        }
        image
    }

    /// The sum of codes of one factor and a multiple of other ones.
    fn with_multiple_in(&self, factor: usize, codes: &Part, scalar: u8, other: &Part) -> Part
        requires { factor < 3 }
    {
        let field = self.fields[factor];
        let mut total = *codes;
        for i in 0..self.rank {
            total[i] = sum(field, codes[i], product(field, scalar, other[i]));
        }
        total
    }
}
