// Forms in a list.
ghost use Rattle.std.specs.Prelude.{◌≡◌, ◌≤◌, [], ◌∷◌, ◌++◌, length, slice_get, OnOk, OnErr, IfErr, MatchResult};
ghost use Rattle.std.specs.Option.{option_copied};
ghost use Rattle.matroid_theory.specs.Rep.{Rep as Matrices};
ghost use Rattle.form_key.specs.Packing.{IsPackedAs};

use form_key::unpack;
use link_set::Key;
use product_rep::{Factors, Rep};
use std::alloc::{AllocError, Global};
use std::marker::Model;

/// Forms, in a list. Contracts see a list of representations.
#[derive(Drop)]
pub struct FormList {
    forms: Vec<Rep>,
}

impl Model for FormList {
    ghost use Rattle.std.specs.Prelude.{List};
    ghost use Rattle.matroid_theory.specs.Rep.{Rep as Matrices};

    ghost Value = { List Matrices };

    ghost view = { λ s. s.forms.items };
}

impl FormList {
    /// The list of no form. It takes no memory.
    pub fn new(alloc: Global) -> FormList
        ensures { result ≡ [] }
    {
        FormList {
            forms: Vec::new(alloc),
        }
    }

    /// The number of forms.
    pub fn len(&self) -> usize
        ensures { result ≡ length self.now }
    {
        self.forms.len()
    }

    /// Form `i`, counted from 0, where there are so many.
    pub fn get(&self, i: usize) -> Option<&Rep>
        ensures { option_copied result ≡ slice_get self.now i }
    {
        self.forms.get(i)
    }

    /// Adds a form at the end.
    ///
    /// # Errors
    ///
    /// `AllocError` where there was no memory. The list is then as it was, and the form comes back.
    pub fn push(&mut self, form: Rep) -> Result<(), (AllocError, Rep)>
        ensures pushed { OnOk result (self.new ≡ self.old ++ form ∷ []) }
        ensures unchanged { OnErr result (self.new ≡ self.old) }
        ensures handed_back { IfErr result (λ e. e.1 ≡ form) }
    {
        match self.forms.push(form) {
            Ok(()) => Ok(()),
            Err(refused) => Err((AllocError, refused.value)),
        }
    }

    /// Adds at the end the standard representation of this shape that has this key.
    ///
    /// # Errors
    ///
    /// `AllocError` where there was no memory. The list is then as it was.
    pub fn push_unpacked(
        &mut self,
        factors: &Factors,
        rank: u8,
        size: u8,
        key: &Key,
    ) -> Result<(), AllocError>
        requires low { 1 ≤ rank }
        requires high { rank ≤ 6 }
        requires room { rank ≤ size }
        requires most { size ≤ 16 }
        requires packing { (M : Matrices) × IsPackedAs (record { factors = factors.now; rank = rank; size = size }) key.now M }
        ensures { MatchResult result
            (λ _. (M : Matrices) × IsPackedAs (record { factors = factors.now; rank = rank; size = size }) key.now M × (self.new ≡ self.old ++ M ∷ []))
            (λ _. self.new ≡ self.old) }
    {
        let Some(form) = unpack(factors.copy(), rank, size, key) else {
            unreachable!()
        };
        match self.push(form) {
            Ok(()) => Ok(()),
            Err((error, _)) => Err(error),
        }
    }

    /// The forms.
    pub(crate) fn as_slice(&self) -> &[Rep]
        ensures { result.now ≡ self.now }
    {
        &self.forms
    }
}
