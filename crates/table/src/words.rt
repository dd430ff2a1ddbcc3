// The words of a table: a message followed by its check symbols.
ghost use Rattle.std.specs.Prelude.{◌≡◌, ℕ, ◌+◌, ◌*◌, ◌<◌, ◌↔◌, IsTrue, length, slice_index};
ghost use Rattle.table.specs.Tables.{Message, Checks, check};
ghost use Rattle.table.specs.Rows.{generator_of};

use crate::rows::Rows;
use alphabet::Alphabet;

impl<S: Alphabet> Rows<'_, S> {
    // The coefficients of message symbol i.
    pub(crate) fn row(&self, i: usize) -> &[u16]
        requires { i < self.now.k }
        ensures sized { length result.now ≡ self.now.m }
        ensures row { (j : ℕ) → j < self.now.m → slice_index result.now j ≡ slice_index self.now.coefficients.now (i * self.now.m + j) }
    {
        &self.coefficients[i * self.m..(i + 1) * self.m]
    }

    // Check symbol j of the message.
    fn check_symbol(&self, message: &[u16], j: usize) -> u16
        requires message { Message (generator_of self.now) message.now }
        requires inside { j < self.now.m }
        ensures { result ≡ check (generator_of self.now) (λ i. slice_index message.now i) j }
    {
        let mut sum = 0;
        for (symbol, row) in message.iter().zip(self.coefficients.chunks_exact(self.m)) {
            sum = S::add(sum, S::multiply(*symbol, row[j]));
        }
        sum
    }

    // Whether these are the check symbols of the message.
    pub(crate) fn agree(&self, message: &[u16], checks: &[u16]) -> bool
        requires message { Message (generator_of self.now) message.now }
        requires checks { length checks.now ≡ self.now.m }
        ensures { IsTrue result ↔ Checks (generator_of self.now) message.now checks.now }
    {
        checks
            .iter()
            .enumerate()
            .all(|(j, symbol)| *symbol == self.check_symbol(message, j))
    }

    // Writes the check symbols of the message.
    pub(crate) fn write_checks(&self, message: &[u16], checks: &mut [u16])
        requires message { Message (generator_of self.now) message.now }
        requires checks { length checks.old ≡ self.now.m }
        ensures { Checks (generator_of self.now) message.now checks.new }
    {
        for (j, symbol) in checks.iter_mut().enumerate() {
            *symbol = self.check_symbol(message, j);
        }
    }
}
