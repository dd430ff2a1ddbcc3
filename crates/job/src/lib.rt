// Jobs: text lines in, answers out, every read judged by the marks that then stand on one sheet.
#![tactic(auto)]

mod answers;
mod codes;
mod faults;
mod runs;

pub use faults::Fault;
