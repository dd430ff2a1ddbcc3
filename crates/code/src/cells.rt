// Cells: what they may hold, how many of them differ from a word, and the working cells set back to zero.
ghost use Rattle.std.specs.Prelude.{min, ◌*◌, ◌^◌, ◌-◌, None, position, not, ◌≡◌, ℕ, ◌+◌, ◌<◌, ◌≤◌, true, ◌≢◌, length, IfOk, Ok, Err, OnOk, slice_index};
ghost use Rattle.code.specs.declared.refusals.Reason.TheVariants.{Misfit};
ghost use Rattle.code.specs.Cells.{good, Holds, wrongs, blanks, zeroed};
ghost use Rattle.code.specs.Refusals.{refusal, clean};

use crate::refusals::{Reason, Refusal};

// A cell that the scanner could not read: an erasure.
pub const BLANK: u16 = 65535;

// What cells are to hold: a word holds symbols only, and received cells symbols or blanks.
#[derive(Clone, Copy, PartialEq, Eq, Debug)]
pub enum Content {
    Word,
    Received,
}

// The number of wrong cells, e, and of blanks, s, of received cells against a word.
#[derive(Clone, Copy, PartialEq, Eq, Debug)]
pub struct Counts {
    pub wrong: usize,
    pub blank: usize,
}

impl Counts {
    // 2 for each wrong cell and 1 for each blank
    pub fn cost(self) -> usize
        ensures { result ≡ min (2 * self.wrong + self.blank) (2 ^ 64 - 1) }
    {
        self.wrong.saturating_mul(2).saturating_add(self.blank)
    }
}

impl Content {
    fn allows(self, q: u16, cell: u16) -> bool
        ensures { result ≡ good self q cell }
    {
        match self {
            Content::Word => cell < q,
            Content::Received => cell < q || cell == BLANK,
        }
    }
}

// Where the first cell stands that may not be there.
fn find_smudge(cells: &[u16], q: u16, content: Content) -> Option<usize>
    ensures first { result ≡ position (λ cell. not (good content q cell)) cells.now }
    ensures passed { result ≡ None → Holds content q cells.now }
{
    cells.iter().position(|cell| !content.allows(q, *cell))
}

// The first cell that may not stand there is a smudge.
pub fn check_cells(cells: &[u16], q: u16, content: Content) -> Result<(), Refusal>
    ensures is { result ≡ clean (good content q) cells.now }
    ensures passed { OnOk result (Holds content q cells.now) }
{
    match find_smudge(cells, q, content) {
        Some(at) => Err(Reason::Smudge.at(at)),
        None => Ok(()),
    }
}

// Counts the wrong cells and the blanks; a word of another length is a misfit.
pub fn count(received: &[u16], word: &[u16]) -> Result<Counts, Refusal>
    ensures is { elim result [ Ok c ↦ (length received.now ≡ length word.now) × (c.wrong ≡ wrongs received.now word.now) × (c.blank ≡ blanks received.now) | Err e ↦ (length received.now ≢ length word.now) × (e ≡ refusal Misfit 0) ] }
    ensures few { IfOk result (λ c. c.wrong + c.blank ≤ length received.now) }
{
    if received.len() != word.len() {
        return Err(Reason::Misfit.at(0));
    }
    let mut wrong = 0;
    let mut blank = 0;
    for (cell, symbol) in received.iter().zip(word) {
        if *cell == BLANK {
            blank += 1;
        } else if cell != symbol {
            wrong += 1;
        }
    }
    Ok(Counts { wrong, blank })
}

// Sets the first cells to zero, or all where there are fewer.
pub fn zero_front(cells: &mut [u16], count: usize)
    ensures { cells.new ≡ zeroed count cells.old }
{
    let end = count.min(cells.len());
    cells[0..end].fill(0);
}
