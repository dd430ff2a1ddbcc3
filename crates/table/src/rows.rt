// A table whose numbers keep their limits.
ghost use Rattle.std.specs.Prelude.{◌≡◌, ◌+◌, ◌*◌, ◌^◌, ◌≤◌, true, false, length, Some, None};
ghost use Rattle.table.specs.Tables.{tabulable};

use alphabet::Alphabet;
use std::marker::PhantomData;

// The longest message, the most check symbols, and the most messages.
const MAX_MESSAGE: usize = 8;

const MAX_CHECKS: usize = 16;

const MAX_MESSAGES: usize = 65536;

// The longest word, and the most coefficients.
pub(crate) const MAX_WORD: usize = MAX_MESSAGE + MAX_CHECKS;

pub(crate) const MAX_COEFFICIENTS: usize = MAX_MESSAGE * MAX_CHECKS;

// How many messages of k symbols there are, where k and m keep their limits.
pub(crate) fn message_count<S: Alphabet>(k: usize, m: usize) -> Option<usize>
    ensures { elim result [ Some n ↦ (tabulable S.Alphabet.Q k m ≡ true) × (n ≡ S.Alphabet.Q ^ k) × (1 ≤ k) × (k ≤ 8) × (1 ≤ m) × (m ≤ 16) | None ↦ tabulable S.Alphabet.Q k m ≡ false ] }
{
    if !(1..=MAX_MESSAGE).contains(&k) || !(1..=MAX_CHECKS).contains(&m) {
        return None;
    }
    let mut count: usize = 1;
    for _ in 0..k {
        count *= usize::from(S::Q);
        if count > MAX_MESSAGES {
            return None;
        }
    }
    Some(count)
}

// k message symbols, m check symbols, and the coefficients row by row; what stands behind them does not count.
#[derive(Drop)]
pub(crate) struct Rows<'t, S: Alphabet> {
    pub(crate) k: usize,
    pub(crate) m: usize,
    pub(crate) messages: usize,
    pub(crate) coefficients: &'t [u16],
    pub(crate) symbols: PhantomData<S>,
    ghost some: { (1 ≤ k) × (1 ≤ m) },
    ghost few: { (k ≤ 8) × (m ≤ 16) },
    ghost counted: { messages ≡ S.Alphabet.Q ^ k },
    ghost table: { k * m ≤ length coefficients.now },
}

impl<S: Alphabet> Rows<'_, S> {
    // The length of a word.
    pub(crate) fn length(&self) -> usize
        ensures { result ≡ self.now.k + self.now.m }
    {
        self.k + self.m
    }
}
