// The trivial code, whose only word is a single zero: what a code means whose numbers break its limits.
#![tactic(auto)]

ghost use Rattle.trivial.specs.Limits.{trivial, no_message};
ghost use Rattle.trivial.specs.LimitsLemmas.{trivial_linear};
ghost use Rattle.std.proofs.Common.{rules};

use alphabet::Alphabet;
use code::{
    Code, Content, Counts, Reason, Refusal, check_cells, check_encode, check_lawful, check_read,
    check_take_out,
};
use std::marker::PhantomData;

const LENGTH: usize = 1;

const MESSAGE_LENGTH: usize = 0;

const DISTANCE: usize = 1;

const WORKING_CELLS: usize = 0;

#[derive(Clone, Copy, PartialEq, Eq, Debug, Drop)]
pub struct Trivial<S> {
    pub symbols: PhantomData<S>,
}

impl<S: Alphabet> Trivial<S> {
    pub const CODE: Trivial<S> = Trivial {
        symbols: PhantomData,
    };
}

impl<S: Alphabet> Code for Trivial<S> {
    type Symbols = S;

    ghost codebook = { λ c. trivial S.Alphabet.Q };

    ghost layout = { λ c. no_message };

    ghost apart = { Prim.search rules };

    ghost linear = { λ c. trivial_linear S.Alphabet.ring };

    ghost symbols = { Prim.search rules };

    fn length(&self) -> usize {
        LENGTH
    }

    fn message_length(&self) -> usize {
        MESSAGE_LENGTH
    }

    fn distance(&self) -> usize {
        DISTANCE
    }

    fn working_cells(&self) -> usize {
        WORKING_CELLS
    }

    fn message_place(&self, i: usize) -> Option<usize> {
        None
    }

    fn read(
        &self,
        received: &[u16],
        answer: &mut [u16],
        work: &mut [u16],
    ) -> Result<Counts, Refusal> {
        check_read(LENGTH, WORKING_CELLS, received, answer, work)?;
        check_cells(received, S::Q, Content::Received)?;
        if received[0] != 0 {
            return Err(Reason::Lost.at(0));
        }
        answer[0] = 0;
        Ok(Counts { wrong: 0, blank: 0 })
    }

    fn lawful(&self, cells: &[u16], work: &mut [u16]) -> Result<bool, Refusal> {
        check_lawful(LENGTH, WORKING_CELLS, cells, work)?;
        check_cells(cells, S::Q, Content::Word)?;
        Ok(cells[0] == 0)
    }

    fn encode(&self, message: &[u16], answer: &mut [u16], work: &mut [u16]) -> Result<(), Refusal> {
        check_encode(LENGTH, MESSAGE_LENGTH, WORKING_CELLS, message, answer, work)?;
        check_cells(message, S::Q, Content::Word)?;
        answer.fill(0);
        Ok(())
    }

    fn take_out(&self, word: &[u16], answer: &mut [u16]) -> Result<(), Refusal> {
        check_take_out(LENGTH, MESSAGE_LENGTH, WORKING_CELLS, word, answer)?;
        check_cells(word, S::Q, Content::Word)
    }
}
