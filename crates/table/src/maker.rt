// A table holds its coefficients itself; its maker fills a table that the caller lends.
ghost use Rattle.std.specs.Prelude.{◌≡◌, ℕ, ◌-◌, ◌*◌, ◌++◌, true, false, length, replicate, Some, None, Ok, Err};
ghost use Rattle.table.specs.Makers.{fillable};
ghost use Rattle.table.specs.Tables.{tabulable, generator};
ghost use Rattle.table.specs.Rows.{generator_of};

use crate::rows::{MAX_COEFFICIENTS, Rows, message_count};
use alphabet::Alphabet;
use code::{Content, Reason, Refusal, check_cells};
use std::marker::PhantomData;

// k message symbols, m check symbols, and the k times m coefficients row by row; what stands behind them does not count.
// Numbers that break a limit mean the trivial code, and a coefficient at or above q counts as its remainder.
#[derive(Clone, Copy, PartialEq, Eq, Debug, Drop)]
pub struct Table<S> {
    pub k: usize,
    pub m: usize,
    pub rows: [u16; MAX_COEFFICIENTS],
    pub symbols: PhantomData<S>,
}

impl<S: Alphabet> Table<S> {
    // The table before it is filled. It means the trivial code.
    pub const EMPTY: Table<S> = Table {
        k: 0,
        m: 0,
        rows: [0; MAX_COEFFICIENTS],
        symbols: PhantomData,
    };

    // The table, where its numbers keep their limits.
    pub(crate) fn proper(&self) -> Option<Rows<'_, S>>
        ensures { elim result [ Some rows ↦ (tabulable S.Alphabet.Q self.now.k self.now.m ≡ true) × (generator_of rows ≡ generator S.Alphabet.Q S.Alphabet.plus S.Alphabet.times self.now.k self.now.m self.now.rows) | None ↦ tabulable S.Alphabet.Q self.now.k self.now.m ≡ false ] }
    {
        let messages = message_count::<S>(self.k, self.m)?;
        Some(Rows {
            k: self.k,
            m: self.m,
            messages,
            coefficients: &self.rows,
            symbols: PhantomData,
        })
    }

    // Fills the table, or leaves it as it was.
    pub fn fill(&mut self, k: usize, m: usize, coefficients: &[u16]) -> Result<(), Refusal>
        ensures is { result ≡ fillable S.Alphabet.Q k m coefficients.now }
        ensures table { elim result [ Ok u ↦ (self.new.k ≡ k) × (self.new.m ≡ m) × (self.new.rows ≡ coefficients.now ++ replicate (128 - k * m) 0) | Err e ↦ self.new ≡ self.old ] }
    {
        message_count::<S>(k, m).ok_or(Reason::Unset.at(0))?;
        if coefficients.len() != k * m {
            return Err(Reason::Misfit.at(0));
        }
        check_cells(coefficients, S::Q, Content::Word)?;
        let mut rows = [0; MAX_COEFFICIENTS];
        rows[..k * m].copy_from_slice(coefficients);
        *self = Table {
            k,
            m,
            rows,
            symbols: PhantomData,
        };
        Ok(())
    }
}
