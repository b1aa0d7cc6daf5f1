//! Tests of fields, columns, representations and matroids, of forms and extensions, and of the searches and the generation that
//! stand on them.
#![tactic(auto)]

#[cfg(test)]
mod both_searches;
#[cfg(test)]
mod build;
#[cfg(test)]
mod coefficients;
#[cfg(test)]
mod connections;
#[cfg(test)]
mod extensions;
#[cfg(test)]
mod fields;
#[cfg(test)]
mod forms;
#[cfg(test)]
mod isomorphisms;
#[cfg(test)]
mod lists;
#[cfg(test)]
mod matrices;
#[cfg(test)]
mod matroids;
#[cfg(test)]
mod minors;
#[cfg(test)]
mod moves;
#[cfg(test)]
mod names;
#[cfg(test)]
mod orderly_levels;
#[cfg(test)]
mod other_fields;
#[cfg(test)]
mod ranks;
#[cfg(test)]
mod representations;
