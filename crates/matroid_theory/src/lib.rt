//! Represented matroids over products of finite fields, as definitions that the contracts of every crate cite.
//!
//! The definitions stand in `specs/`, one topic a file, in the words of Oxley's *Matroid Theory* (second edition). That they
//! mean what they should is shown by the laws of `matroid_laws`.
#![tactic(auto)]

/// Which moves make representations equivalent.
#[derive(Clone, Copy, Debug, PartialEq, Eq)]
pub enum Mode {
    /// Row operations, column scalars and a relabelling (Oxley, chapter 6).
    Linear,
    /// These, and a field automorphism for each factor.
    Semilinear,
}
