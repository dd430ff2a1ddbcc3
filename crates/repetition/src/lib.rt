// The repetition code: words of n equal symbols, n from 1 to 64.
#![tactic(auto)]

ghost use Rattle.std.specs.Prelude.{◌↔◌, IsTrue, EachIndex, slice_index, Some, None, ◌≡◌, ◌≤◌, true, false, T, Ok, Err};
ghost use Rattle.code.specs.Calls.{Reads, Judges, Encodes, TakesOut};
ghost use Rattle.code.specs.Refusals.{refusal};
ghost use Rattle.code.specs.declared.refusals.Reason.TheVariants.{Unset};
ghost use Rattle.trivial.specs.Limits.{limited, limited_layout};
ghost use Rattle.repetition.specs.Repeats.{repeats, first, repeatable};
ghost use Rattle.trivial.specs.LimitsLemmas.{limited_apart, limited_linear};
ghost use Rattle.repetition.specs.RepeatsLemmas.{repeats_apart, at_least_one, repeats_linear};
ghost use Rattle.alphabet.proofs.Symbols.{zero_in};
ghost use Rattle.std.proofs.Common.{rules};

use alphabet::Alphabet;
use code::{
    Code, Content, Counts, Reason, Refusal, check_cells, check_encode, check_lawful, check_read,
    check_take_out, count,
};
use std::marker::PhantomData;
use trivial::Trivial;

mod votes;

const MAX_REPEATS: usize = 64;

const WORKING_CELLS: usize = 0;

// n equal symbols. A value with another n means the trivial code.
#[derive(Clone, Copy, PartialEq, Eq, Debug, Drop)]
pub struct Repetition<S> {
    pub n: usize,
    pub symbols: PhantomData<S>,
}

// The same where n keeps its limits.
#[derive(Drop)]
struct Repeats<S> {
    n: usize,
    symbols: PhantomData<S>,
    ghost low: { 1 ≤ n },
    ghost high: { n ≤ 64 },
}

fn is_repeatable(n: usize) -> bool
    ensures is { result ≡ repeatable n }
    ensures limits { T result → (1 ≤ n) × (n ≤ 64) }
{
    (1..=MAX_REPEATS).contains(&n)
}

impl<S: Alphabet> Repetition<S> {
    pub fn new(n: usize) -> Result<Repetition<S>, Refusal>
        ensures { elim result [ Ok c ↦ (repeatable n ≡ true) × (c.n ≡ n) | Err e ↦ (repeatable n ≡ false) × (e ≡ refusal Unset 0) ] }
    {
        if !is_repeatable(n) {
            return Err(Reason::Unset.at(0));
        }
        Ok(Repetition {
            n,
            symbols: PhantomData,
        })
    }

    fn proper(&self) -> Option<Repeats<S>>
        ensures { elim result [ Some c ↦ (repeatable self.now.n ≡ true) × (c.n ≡ self.now.n) | None ↦ repeatable self.now.n ≡ false ] }
    {
        if !is_repeatable(self.n) {
            return None;
        }
        Some(Repeats {
            n: self.n,
            symbols: PhantomData,
        })
    }
}

impl<S: Alphabet> Repeats<S> {
    // A symbol costs less than n where it stands in more than half of the cells that could be read, so only the elected one is counted.
    fn read(
        &self,
        received: &[u16],
        answer: &mut [u16],
        work: &mut [u16],
    ) -> Result<Counts, Refusal>
        ensures { Reads (repeats S.Alphabet.Q self.now.n) received.now answer.old answer.new work.old work.new result }
    {
        check_read(self.n, WORKING_CELLS, received, answer, work)?;
        check_cells(received, S::Q, Content::Received)?;
        let symbol = votes::elect(received);
        let word = [symbol; MAX_REPEATS];
        let counts = count(received, &word[0..self.n])?;
        if counts.cost() >= self.n {
            return Err(Reason::Lost.at(0));
        }
        answer.fill(symbol);
        Ok(counts)
    }

    fn lawful(&self, cells: &[u16], work: &mut [u16]) -> Result<bool, Refusal>
        ensures { Judges (repeats S.Alphabet.Q self.now.n) cells.now work.old work.new result }
    {
        check_lawful(self.n, WORKING_CELLS, cells, work)?;
        check_cells(cells, S::Q, Content::Word)?;
        Ok(holds_only(cells, cells[0]))
    }

    fn encode(&self, message: &[u16], answer: &mut [u16], work: &mut [u16]) -> Result<(), Refusal>
        ensures { Encodes (repeats S.Alphabet.Q self.now.n) first message.now answer.old answer.new work.old work.new result }
    {
        check_encode(self.n, 1, WORKING_CELLS, message, answer, work)?;
        check_cells(message, S::Q, Content::Word)?;
        answer.fill(message[0]);
        Ok(())
    }

    fn take_out(&self, word: &[u16], answer: &mut [u16]) -> Result<(), Refusal>
        ensures { TakesOut (repeats S.Alphabet.Q self.now.n) first word.now answer.old answer.new result }
    {
        check_take_out(self.n, 1, WORKING_CELLS, word, answer)?;
        check_cells(word, S::Q, Content::Word)?;
        answer[0] = word[0];
        Ok(())
    }
}

// Whether each of the cells holds the symbol.
fn holds_only(cells: &[u16], symbol: u16) -> bool
    ensures { IsTrue result ↔ EachIndex cells.now (λ i. slice_index cells.now i ≡ symbol) }
{
    cells.iter().all(|cell| *cell == symbol)
}

impl<S: Alphabet> Code for Repetition<S> {
    type Symbols = S;

    ghost codebook = { λ c. limited (repeatable c.n) S.Alphabet.Q (repeats S.Alphabet.Q c.n) };

    ghost layout = { λ c. limited_layout (repeatable c.n) first };

    ghost apart = { λ c.
        limited_apart (repeatable c.n) S.Alphabet.Q (repeats S.Alphabet.Q c.n) (zero_in S.Alphabet.ring)
        (λ e. repeats_apart S.Alphabet.Q c.n (at_least_one c.n e)) };

    ghost linear = { λ c.
        limited_linear (repeatable c.n) (repeats S.Alphabet.Q c.n) first S.Alphabet.ring
        (λ e. repeats_linear c.n S.Alphabet.ring (at_least_one c.n e)) };

    ghost symbols = { Prim.search rules };

    fn length(&self) -> usize {
        self.proper().map_or(1, |code| code.n)
    }

    fn message_length(&self) -> usize {
        self.proper().map_or(0, |_| 1)
    }

    // two different words differ everywhere
    fn distance(&self) -> usize {
        self.length()
    }

    fn working_cells(&self) -> usize {
        WORKING_CELLS
    }

    fn message_place(&self, i: usize) -> Option<usize> {
        (is_repeatable(self.n) && i == 0).then_some(0)
    }

    fn read(
        &self,
        received: &[u16],
        answer: &mut [u16],
        work: &mut [u16],
    ) -> Result<Counts, Refusal> {
        match self.proper() {
            Some(code) => code.read(received, answer, work),
            None => Trivial::<S>::CODE.read(received, answer, work),
        }
    }

    fn lawful(&self, cells: &[u16], work: &mut [u16]) -> Result<bool, Refusal> {
        match self.proper() {
            Some(code) => code.lawful(cells, work),
            None => Trivial::<S>::CODE.lawful(cells, work),
        }
    }

    fn encode(&self, message: &[u16], answer: &mut [u16], work: &mut [u16]) -> Result<(), Refusal> {
        match self.proper() {
            Some(code) => code.encode(message, answer, work),
            None => Trivial::<S>::CODE.encode(message, answer, work),
        }
    }

    fn take_out(&self, word: &[u16], answer: &mut [u16]) -> Result<(), Refusal> {
        match self.proper() {
            Some(code) => code.take_out(word, answer),
            None => Trivial::<S>::CODE.take_out(word, answer),
        }
    }
}
