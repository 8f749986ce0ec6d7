//! The canonical text and the grammar together: what the printer writes of a tree, reads again as
//! the same tree, but for the places in the text.
#![tactic(auto)]

pub mod laws;
