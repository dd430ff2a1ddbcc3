// Job lines: what a line of text asks for, or the field under which it is garbled.
#![tactic(auto)]

mod calls;
mod cuts;
mod names;
mod numbers;

pub use calls::parse_call;
pub use cuts::find_byte;
pub use names::{Name, parse_name};
