//! Worked rows of texts, each a proved fact: tokens, the trees that texts spell and their canonical texts, and the lines
//! of plans. Each expected side was written by hand from the rules of the texts.

pub mod canon;
pub mod lines;
pub mod reading;
pub mod tokens;
