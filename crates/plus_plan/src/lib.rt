//! Plan texts, line by line: what each line says, and where it is no line.
#![tactic(auto)]

pub mod faults;
pub mod forms;
mod grammar;
pub mod laws;
pub mod lines;
mod pieces;
mod reader;
pub mod values;

pub use faults::PlanFault;
pub use forms::{Line, PlanForm, Time};
pub use lines::line_at;
pub use pieces::PlanReader;
pub use values::time_value;
