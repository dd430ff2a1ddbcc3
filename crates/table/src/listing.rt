// All words of a table, one after another: one running word, in which a message symbol and its row change at a time.
ghost use Rattle.std.specs.Prelude.{◌≡◌, ℕ, ◌+◌, ◌%◌, ◌^◌, ◌<◌, ◌≤◌, ◌≢◌, ◌==◌, not, count_by, length, slice_index};
ghost use Rattle.code.specs.Cells.{wrongs, blanks};
ghost use Rattle.table.specs.Tables.{Tabled, coefficient, number};
ghost use Rattle.table.specs.Rows.{generator_of};
ghost use Rattle.table.specs.Surveys.{Surveyed};

use crate::rows::Rows;
use alphabet::Alphabet;
use code::{Counts, count};

// The table's distance, and the counts of the received cells against the nearest word.
#[derive(Clone, Copy, PartialEq, Eq, Debug)]
pub(crate) struct Survey {
    pub distance: usize,
    pub counts: Counts,
}

// The number of symbols that are not 0.
fn weigh(word: &[u16]) -> usize
    ensures { result ≡ count_by (λ x. not (x == 0)) word.now }
{
    let mut weight = 0;
    for symbol in word {
        if *symbol != 0 {
            weight += 1;
        }
    }
    weight
}

// The counts of the received cells against a word of their length.
fn compare(received: &[u16], word: &[u16]) -> Counts
    requires { length received.now ≡ length word.now }
    ensures wrong { result.wrong ≡ wrongs received.now word.now }
    ensures blank { result.blank ≡ blanks received.now }
    ensures few { result.wrong + result.blank ≤ length received.now }
{
    count(received, word).unwrap()
}

impl<S: Alphabet> Rows<'_, S> {
    // Adds so many times row i to the check symbols.
    fn add_row(&self, checks: &mut [u16], change: u16, i: usize)
        requires sized { length checks.old ≡ self.now.m }
        requires inside { i < self.now.k }
        ensures { (j : ℕ) → j < self.now.m → slice_index checks.new j ≡ S.Alphabet.plus (slice_index checks.old j % S.Alphabet.Q) (S.Alphabet.times (change % S.Alphabet.Q) (coefficient (generator_of self.now) i j) % S.Alphabet.Q) }
    {
        let row = self.row(i);
        for (j, check) in checks.iter_mut().enumerate() {
            *check = S::add(*check, S::multiply(change, row[j]));
        }
    }

    // The word of the message with another symbol at place i: each check symbol changes by the symbol's change times its coefficient.
    fn change_symbol(&self, word: &mut [u16], i: usize, symbol: u16)
        requires tabled { Tabled (generator_of self.now) word.old }
        requires inside { i < self.now.k }
        requires symbol { symbol < S.Alphabet.Q }
        ensures tabled { Tabled (generator_of self.now) word.new }
        ensures here { slice_index word.new i ≡ symbol }
        ensures others { (j : ℕ) → j < self.now.k → j ≢ i → slice_index word.new j ≡ slice_index word.old j }
    {
        let change = S::add(symbol, S::negate(word[i]));
        word[i] = symbol;
        self.add_row(&mut word[self.k..], change, i);
    }

    // The word of the next message, counting in base q from the first symbol on.
    fn advance(&self, word: &mut [u16])
        requires { Tabled (generator_of self.now) word.old }
        ensures tabled { Tabled (generator_of self.now) word.new }
        ensures next { number S.Alphabet.Q self.now.k (λ i. slice_index word.old i) + 1 < S.Alphabet.Q ^ self.now.k → number S.Alphabet.Q self.now.k (λ i. slice_index word.new i) ≡ number S.Alphabet.Q self.now.k (λ i. slice_index word.old i) + 1 }
    {
        for i in 0..self.k {
            let next = word[i] + 1;
            if next < S::Q {
                self.change_symbol(word, i, next);
                return;
            }
            self.change_symbol(word, i, 0);
        }
    }

    // Goes through all words once, for the least weight and for the word that costs least. The running word stands in `word`, and the nearest one is left in `nearest`.
    pub(crate) fn survey(&self, received: &[u16], word: &mut [u16], nearest: &mut [u16]) -> Survey
        requires received { length received.now ≡ self.now.k + self.now.m }
        requires word { length word.old ≡ self.now.k + self.now.m }
        requires nearest { length nearest.old ≡ self.now.k + self.now.m }
        ensures { Surveyed (generator_of self.now) received.now nearest.new result }
    {
        word.fill(0);
        nearest.fill(0);
        let mut distance = self.length();
        let mut counts = compare(received, nearest);
        for _ in 1..self.messages {
            self.advance(word);
            distance = distance.min(weigh(word));
            let tried = compare(received, word);
            if tried.cost() < counts.cost() {
                counts = tried;
                nearest.copy_from_slice(word);
            }
        }
        Survey { distance, counts }
    }
}
