// Codes: what every code is, what it shows, and what each call of it answers and leaves.
#![tactic(auto)]

ghost use Rattle.std.specs.Prelude.{◌≡◌};
ghost use Rattle.code.specs.Codes.{Codebook, Layout, Apart, Linear};
ghost use Rattle.code.specs.Calls.{answered, answered_working, answered_place, Reads, Judges, Encodes, TakesOut};

use alphabet::Alphabet;

mod cells;
mod refusals;

pub use cells::{BLANK, Content, Counts, check_cells, count, zero_front};
pub use refusals::{
    MAX_LENGTH, MAX_WORKING, Reason, Refusal, check_encode, check_lawful, check_read,
    check_take_out,
};

// A code over an alphabet. Its words are rows of n symbols, any two of which differ in at least d places.
// The calls that take cells check sizes and cells first, in the order of the refusals' numbers.
pub trait Code {
    type Symbols: Alphabet;

    // q, n, d, the working cells and the words
    ghost codebook: { Self → Codebook };

    // k and the places of the message symbols
    ghost layout: { Self → Layout };

    // n, or 4,097 where it is above 4,096
    fn length(&self) -> usize
        ensures { result ≡ answered (codebook self.now).n };

    // k, or 4,097 where it is above 4,096
    fn message_length(&self) -> usize
        ensures { result ≡ answered (layout self.now).k };

    // d, or 4,097 where it is above 4,096
    fn distance(&self) -> usize
        ensures { result ≡ answered (codebook self.now).d };

    // the number of working cells, or 16,385 where it is above 16,384 or n above 4,096
    fn working_cells(&self) -> usize
        ensures { result ≡ answered_working (codebook self.now) };

    // where message symbol i stands in a word; none where there is no such symbol, or n is above 4,096
    fn message_place(&self, i: usize) -> Option<usize>
        ensures { result ≡ answered_place (codebook self.now) (layout self.now) i };

    // Hands over the one word that costs less than d, with its counts.
    fn read(
        &self,
        received: &[u16],
        answer: &mut [u16],
        work: &mut [u16],
    ) -> Result<Counts, Refusal>
        ensures { Reads (codebook self.now) received.now answer.old answer.new work.old work.new result };

    // Says whether the cells are a word.
    fn lawful(&self, cells: &[u16], work: &mut [u16]) -> Result<bool, Refusal>
        ensures { Judges (codebook self.now) cells.now work.old work.new result };

    // Writes the one word that carries the message.
    fn encode(&self, message: &[u16], answer: &mut [u16], work: &mut [u16]) -> Result<(), Refusal>
        ensures { Encodes (codebook self.now) (layout self.now) message.now answer.old answer.new work.old work.new result };

    // Copies the symbols that stand at the message places.
    fn take_out(&self, word: &[u16], answer: &mut [u16]) -> Result<(), Refusal>
        ensures { TakesOut (codebook self.now) (layout self.now) word.now answer.old answer.new result };

    ghost apart: { (c : Self) → Apart (codebook c) };

    ghost linear: { (c : Self) → Linear (codebook c) (layout c) Self.Symbols.Alphabet.plus Self.Symbols.Alphabet.times };

    ghost symbols: { (c : Self) → (codebook c).q ≡ Self.Symbols.Alphabet.Q };
}
