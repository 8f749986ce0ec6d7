//! Tests of the crates below the validator. They stand here, above what they test, since a crate with tests is proved twice.
#![tactic(auto)]

#[cfg(test)]
mod constraints;
#[cfg(test)]
mod crossings;
#[cfg(test)]
mod devices;
#[cfg(test)]
mod explanations;
#[cfg(test)]
mod graphs;
#[cfg(test)]
mod intervals;
#[cfg(test)]
mod names;
#[cfg(test)]
mod numbers;
#[cfg(test)]
mod plans;
#[cfg(test)]
mod reports;
#[cfg(test)]
mod searches;
#[cfg(test)]
mod tokens;
