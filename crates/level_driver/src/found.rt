// The keys of the forms found so far.
ghost use Rattle.std.specs.Prelude.{◌≡◌, ◌≤◌, [], IfOk, OnOk};
ghost use Rattle.std.specs.List.{AllZip};
ghost use Rattle.std.specs.List.Sorted.{IsStrictlySortedBy};
ghost use Rattle.std.specs.Cmp.Lexicographic.{slice_cmp};
ghost use Rattle.std.specs.Ordering.{nat_cmp};
ghost use Rattle.matroid_theory.specs.Rep.{IsStandard};
ghost use Rattle.form_key.specs.Packing.{IsPackedAs, packing};
ghost use Rattle.level_driver.specs.Children.{Adds};
ghost use Rattle.level_driver.specs.Keys.{HavePacking};

use crate::FormList;
use form_key::pack;
use link_set::Key;
use product_rep::{Factors, Rep};
use std::alloc::{AllocError, Global};
use std::collections::BTreeSet;
use std::marker::Model;

/// The forms found so far, each once. Contracts see their keys, in rising order.
#[derive(Drop)]
pub(crate) struct Found {
    keys: BTreeSet<Key>,
}

impl Model for Found {
    ghost use Rattle.std.specs.Prelude.{ℕ, List};

    ghost Value = { List (List ℕ) };

    ghost view = { λ s. s.keys.keys };
}

impl Found {
    /// No form. It takes no memory.
    pub(crate) fn new(alloc: Global) -> Found
        ensures { result ≡ [] }
    {
        Found {
            keys: BTreeSet::new(alloc),
        }
    }

    /// Adds a form, unless it is there.
    pub(crate) fn insert(&mut self, alloc: Global, form: &Rep) -> Result<(), AllocError>
        requires { IsStandard form.now }
        ensures { OnOk result (Adds self.old self.new (packing form.now)) }
    {
        self.keys.insert(pack(alloc, form)?)?;
        Ok(())
    }

    /// The forms, which all have this shape, in the order of their keys.
    pub(crate) fn to_list(
        &self,
        alloc: Global,
        factors: &Factors,
        rank: u8,
        size: u8,
    ) -> Result<FormList, AllocError>
        requires low { 1 ≤ rank }
        requires high { rank ≤ 6 }
        requires room { rank ≤ size }
        requires most { size ≤ 16 }
        requires packings { HavePacking (record { factors = factors.now; rank = rank; size = size }) self.now }
        ensures forms { IfOk result (λ forms. AllZip (λ M key. IsPackedAs (record { factors = factors.now; rank = rank; size = size }) key M) forms self.now) }
        ensures rising { IfOk result (λ _. IsStrictlySortedBy (slice_cmp nat_cmp) self.now) }
    {
        let mut forms = FormList::new(alloc);
        for key in &self.keys {
            forms.push_unpacked(factors, rank, size, key)?;
        }
        Ok(forms)
    }
}
