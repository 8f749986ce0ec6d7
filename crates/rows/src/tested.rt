//! Worked rows of the lists of tests of `plus_cascade`, `plus_crossing`, `plus_settle` and `plus_timeline`, each a proved
//! fact: what is asked, in which order, and the first test that fails, one row for each kind of stop.

pub mod conditions;
pub mod entries;
pub mod rounds;
pub mod settling;
