// The sum code: words of n symbols that add up to 0, n from 2 to 64.
#![tactic(auto)]

ghost use Rattle.std.specs.Prelude.{Some, None, ◌≡◌, ◌≤◌, true, false, T, Ok, Err};
ghost use Rattle.code.specs.Calls.{Reads, Judges, Encodes, TakesOut};
ghost use Rattle.code.specs.Refusals.{refusal};
ghost use Rattle.code.specs.declared.refusals.Reason.TheVariants.{Unset};
ghost use Rattle.trivial.specs.Limits.{limited, limited_layout};
ghost use Rattle.sum.specs.Balance.{balances, but_last, summable};
ghost use Rattle.alphabet.proofs.Symbols.{zero_in};
ghost use Rattle.trivial.specs.LimitsLemmas.{limited_apart, limited_linear};
ghost use Rattle.sum.specs.BalanceLemmas.{at_least_two, balances_apart, balances_linear};
ghost use Rattle.std.proofs.Common.{rules};

use alphabet::Alphabet;
use code::{
    Code, Content, Counts, Reason, Refusal, check_cells, check_encode, check_lawful, check_read,
    check_take_out,
};
use scans::{add_symbols, scan_cells};
use std::marker::PhantomData;
use trivial::Trivial;

mod scans;

const MAX_SUMMANDS: usize = 64;

const WORKING_CELLS: usize = 0;

// n symbols that add up to 0. A value with another n means the trivial code.
#[derive(Clone, Copy, PartialEq, Eq, Debug, Drop)]
pub struct Sum<S> {
    pub n: usize,
    pub symbols: PhantomData<S>,
}

// The same where n keeps its limits.
#[derive(Drop)]
struct Balances<S> {
    n: usize,
    symbols: PhantomData<S>,
    ghost low: { 2 ≤ n },
    ghost high: { n ≤ 64 },
}

fn is_summable(n: usize) -> bool
    ensures is { result ≡ summable n }
    ensures limits { T result → (2 ≤ n) × (n ≤ 64) }
{
    (2..=MAX_SUMMANDS).contains(&n)
}

impl<S: Alphabet> Sum<S> {
    pub fn new(n: usize) -> Result<Sum<S>, Refusal>
        ensures { elim result [ Ok c ↦ (summable n ≡ true) × (c.n ≡ n) | Err e ↦ (summable n ≡ false) × (e ≡ refusal Unset 0) ] }
    {
        if !is_summable(n) {
            return Err(Reason::Unset.at(0));
        }
        Ok(Sum {
            n,
            symbols: PhantomData,
        })
    }

    fn proper(&self) -> Option<Balances<S>>
        ensures { elim result [ Some c ↦ (summable self.now.n ≡ true) × (c.n ≡ self.now.n) | None ↦ summable self.now.n ≡ false ] }
    {
        if !is_summable(self.n) {
            return None;
        }
        Some(Balances {
            n: self.n,
            symbols: PhantomData,
        })
    }
}

impl<S: Alphabet> Balances<S> {
    // The distance is 2: a word comes back where nothing is wrong and at most one cell is blank, whose symbol the others tell.
    fn read(
        &self,
        received: &[u16],
        answer: &mut [u16],
        work: &mut [u16],
    ) -> Result<Counts, Refusal>
        ensures { Reads (balances S.Alphabet.plus S.Alphabet.Q self.now.n) received.now answer.old answer.new work.old work.new result }
    {
        check_read(self.n, WORKING_CELLS, received, answer, work)?;
        check_cells(received, S::Q, Content::Received)?;
        let Some(scan) = scan_cells::<S>(received) else {
            return Err(Reason::Lost.at(0));
        };
        match scan.hole {
            Some(hole) => {
                answer.copy_from_slice(received);
                answer[hole] = S::negate(scan.total);
                Ok(Counts { wrong: 0, blank: 1 })
            }
            None if scan.total == 0 => {
                answer.copy_from_slice(received);
                Ok(Counts { wrong: 0, blank: 0 })
            }
            None => Err(Reason::Lost.at(0)),
        }
    }

    fn lawful(&self, cells: &[u16], work: &mut [u16]) -> Result<bool, Refusal>
        ensures { Judges (balances S.Alphabet.plus S.Alphabet.Q self.now.n) cells.now work.old work.new result }
    {
        check_lawful(self.n, WORKING_CELLS, cells, work)?;
        check_cells(cells, S::Q, Content::Word)?;
        Ok(add_symbols::<S>(cells) == 0)
    }

    fn encode(&self, message: &[u16], answer: &mut [u16], work: &mut [u16]) -> Result<(), Refusal>
        ensures { Encodes (balances S.Alphabet.plus S.Alphabet.Q self.now.n) (but_last self.now.n) message.now answer.old answer.new work.old work.new result }
    {
        let k = self.n - 1;
        check_encode(self.n, k, WORKING_CELLS, message, answer, work)?;
        check_cells(message, S::Q, Content::Word)?;
        answer[0..k].copy_from_slice(message);
        answer[k] = S::negate(add_symbols::<S>(message));
        Ok(())
    }

    fn take_out(&self, word: &[u16], answer: &mut [u16]) -> Result<(), Refusal>
        ensures { TakesOut (balances S.Alphabet.plus S.Alphabet.Q self.now.n) (but_last self.now.n) word.now answer.old answer.new result }
    {
        let k = self.n - 1;
        check_take_out(self.n, k, WORKING_CELLS, word, answer)?;
        check_cells(word, S::Q, Content::Word)?;
        answer.copy_from_slice(&word[0..k]);
        Ok(())
    }
}

impl<S: Alphabet> Code for Sum<S> {
    type Symbols = S;

    ghost codebook = { λ c. limited (summable c.n) S.Alphabet.Q (balances S.Alphabet.plus S.Alphabet.Q c.n) };

    ghost layout = { λ c. limited_layout (summable c.n) (but_last c.n) };

    ghost apart = { λ c.
        limited_apart (summable c.n) S.Alphabet.Q (balances S.Alphabet.plus S.Alphabet.Q c.n) (zero_in S.Alphabet.ring)
        (λ e. balances_apart S.Alphabet.ring c.n (at_least_two c.n e)) };

    ghost linear = { λ c.
        limited_linear (summable c.n) (balances S.Alphabet.plus S.Alphabet.Q c.n) (but_last c.n) S.Alphabet.ring
        (λ e. balances_linear S.Alphabet.ring c.n (at_least_two c.n e)) };

    ghost symbols = { Prim.search rules };

    fn length(&self) -> usize {
        self.proper().map_or(1, |code| code.n)
    }

    fn message_length(&self) -> usize {
        self.proper().map_or(0, |code| code.n - 1)
    }

    fn distance(&self) -> usize {
        self.proper().map_or(1, |_| 2)
    }

    fn working_cells(&self) -> usize {
        WORKING_CELLS
    }

    fn message_place(&self, i: usize) -> Option<usize> {
        (i < self.message_length()).then_some(i)
    }

    fn read(
        &self,
        received: &[u16],
        answer: &mut [u16],
        work: &mut [u16],
    ) -> Result<Counts, Refusal> {
        match self.proper() {
            Some(code) => code.read(received, answer, work),
            None => Trivial::<S>::CODE.read(received, answer, work),
        }
    }

    fn lawful(&self, cells: &[u16], work: &mut [u16]) -> Result<bool, Refusal> {
        match self.proper() {
            Some(code) => code.lawful(cells, work),
            None => Trivial::<S>::CODE.lawful(cells, work),
        }
    }

    fn encode(&self, message: &[u16], answer: &mut [u16], work: &mut [u16]) -> Result<(), Refusal> {
        match self.proper() {
            Some(code) => code.encode(message, answer, work),
            None => Trivial::<S>::CODE.encode(message, answer, work),
        }
    }

    fn take_out(&self, word: &[u16], answer: &mut [u16]) -> Result<(), Refusal> {
        match self.proper() {
            Some(code) => code.take_out(word, answer),
            None => Trivial::<S>::CODE.take_out(word, answer),
        }
    }
}
