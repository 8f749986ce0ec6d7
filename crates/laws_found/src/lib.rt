//! Laws of what a search finds: the plan that is written reads back as that plan, its calls name what they say, and `check` accepts it.
#![tactic(auto)]

pub mod accepted;
pub mod calls;
pub mod checked;
pub mod text;
