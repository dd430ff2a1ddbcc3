// The table code: any short generator, for every alphabet.
#![tactic(auto)]

mod calls;
mod listing;
mod maker;
mod rows;
mod words;

pub use maker::Table;
