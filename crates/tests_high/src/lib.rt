//! Tests that cross crates, above the program's: whole outputs of `run`, the planner, and plans in steps. There is no code here
//! beside the tests.
#![tactic(auto)]

#[cfg(test)]
mod edges;
#[cfg(test)]
mod farms;
#[cfg(test)]
mod lifts;
#[cfg(test)]
mod limits;
#[cfg(test)]
mod moving;
#[cfg(test)]
mod numeric;
#[cfg(test)]
mod planner;
#[cfg(test)]
mod plans;
#[cfg(test)]
mod runs;
#[cfg(test)]
mod stepped;
#[cfg(test)]
mod translations;
#[cfg(test)]
mod trials;
#[cfg(test)]
mod typing;
#[cfg(test)]
mod words;
