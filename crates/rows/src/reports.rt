//! Worked rows of reports, each a proved fact: the line of each verdict and of each refusal, and what moments write.

pub mod lines;
pub mod moments;
