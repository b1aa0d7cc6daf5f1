ghost use Rattle.std.specs.Prelude.{◌≡◌, ◌≤◌, ◌^◌, ◌-◌, map};
ghost use Rattle.formats.specs.Request.{product_of};
ghost use Rattle.formats.specs.Request.{column_count as column_count_lem, subsets as subsets_lem};

use product_rep::Factors;

// How many sets of `k` things `n` things have.
fn subsets(n: u8, k: u8) -> u64
    requires { n ≤ 6 }
    ensures value { result ≡ subsets_lem n k }
    ensures few { result ≤ 2 ^ n }
{
    if k == 0 {
        return 1;
    }
    if n == 0 {
        return 0;
    }
    subsets(n - 1, k - 1) + subsets(n - 1, k)
}

// How many entries other than 0 the fields have together.
fn entry_count(factors: &Factors) -> u64
    ensures value { result ≡ product_of (map (λ q. q - 1) factors.now) }
    ensures few { result ≤ 1728 }
{
    let mut entries = 1;
    for i in 0..factors.count() {
        entries *= u64::from(factors.field(i).order() - 1);
    }
    entries
}

/// How many normalised columns of `rank` entries there are.
pub fn column_count(rank: u8, factors: &Factors) -> u64
    requires { rank ≤ 6 }
    ensures { result ≡ column_count_lem rank factors.now }
{
    let entries = entry_count(factors);
    let mut count = 0;
    for s in 0..rank {
        count += subsets(rank, s + 1) * entries.pow(u32::from(s));
    }
    count
}
