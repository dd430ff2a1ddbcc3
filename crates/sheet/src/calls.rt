// Calls: what may be asked of a sheet, and how it goes.
use crate::faults::Fault;
use code::Counts;

#[derive(Clone, Copy, PartialEq, Eq, Debug)]
pub enum Call {
    Put { place: usize, symbol: u16 },
    Blot { place: usize },
    Wipe,
    Read,
}

// A call, with the code that reads where it is a read.
#[derive(Drop)]
pub struct Step<'c, C> {
    pub call: Call,
    pub code: &'c C,
}

// Nothing after an accepted put, blot or wipe, and the counts after an accepted read.
pub type Outcome = Result<Option<Counts>, Fault>;
