// Sheets: cells that are written, blotted out and read again for as long as anybody likes, each read judging exactly the marks then standing.
#![tactic(auto)]

mod calls;
mod faults;
mod marks;
mod runs;

pub use calls::{Call, Outcome, Step};
pub use faults::Fault;
pub use marks::Sheet;
pub use runs::work_sheet;
