//! Trails, by which the search for a least form names an order of the elements with its scalars and later columns, and what
//! exchanging two elements, tying rows and placing a column do to them. The crate has definitions and lemmas alone.
#![tactic(auto)]
