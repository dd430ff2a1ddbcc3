// The calls of a table code.
ghost use Rattle.std.specs.Prelude.{◌≡◌, ◌+◌, ◌≤◌, true, length};
ghost use Rattle.code.specs.Cells.{good};
ghost use Rattle.code.specs.declared.cells.Content.TheVariants.{Received};
ghost use Rattle.code.specs.Refusals.{clean};
ghost use Rattle.code.specs.Calls.{answered, reads, Reads, Judges, Encodes, TakesOut};
ghost use Rattle.trivial.specs.Limits.{limited, limited_layout};
ghost use Rattle.table.specs.Tables.{generator, tables, front, tabulable, Least, Generator};
ghost use Rattle.table.specs.Rows.{generator_of};
ghost use Rattle.trivial.specs.LimitsLemmas.{limited_apart, limited_linear};
ghost use Rattle.table.specs.Numbers.{at_least_one};
ghost use Rattle.alphabet.proofs.Symbols.{zero_in};
ghost use Rattle.table.specs.Laws.{tables_apart, tables_linear};
ghost use Rattle.std.proofs.Common.{rules};

use crate::maker::Table;
use crate::rows::{MAX_WORD, Rows};
use alphabet::Alphabet;
use code::{
    Code, Content, Counts, Reason, Refusal, check_cells, check_encode, check_lawful, check_read,
    check_take_out, zero_front,
};
use trivial::Trivial;

impl<S: Alphabet> Rows<'_, S> {
    // The least weight of a word of a nonzero message.
    fn distance(&self) -> usize
        ensures is { result ≡ (tables (generator_of self.now)).d }
        ensures lightest { Least (generator_of self.now) result }
        ensures short { result ≤ self.now.k + self.now.m }
    {
        let n = self.length();
        let zero = [0; MAX_WORD];
        let mut word = [0; MAX_WORD];
        let mut nearest = [0; MAX_WORD];
        self.survey(&zero[..n], &mut word[..n], &mut nearest[..n])
            .distance
    }

    // A read past its sizes; the running word stands in `word`.
    fn read_nearest(
        &self,
        received: &[u16],
        answer: &mut [u16],
        word: &mut [u16],
    ) -> Result<Counts, Refusal>
        requires received { length received.now ≡ self.now.k + self.now.m }
        requires answer { length answer.old ≡ self.now.k + self.now.m }
        requires word { length word.old ≡ self.now.k + self.now.m }
        ensures { reads (clean (good Received S.Alphabet.Q) received.now) (tables (generator_of self.now)) received.now answer.old answer.new result }
    {
        check_cells(received, S::Q, Content::Received)?;
        let mut buffer = [0; MAX_WORD];
        let nearest = &mut buffer[..self.length()];
        let survey = self.survey(received, word, nearest);
        if survey.counts.cost() >= survey.distance {
            return Err(Reason::Lost.at(0));
        }
        answer.copy_from_slice(nearest);
        Ok(survey.counts)
    }

    fn read(
        &self,
        received: &[u16],
        answer: &mut [u16],
        work: &mut [u16],
    ) -> Result<Counts, Refusal>
        ensures { Reads (tables (generator_of self.now)) received.now answer.old answer.new work.old work.new result }
    {
        let n = self.length();
        check_read(n, n, received, answer, work)?;
        let verdict = self.read_nearest(received, answer, &mut work[..n]);
        zero_front(work, n);
        verdict
    }

    fn judge(&self, cells: &[u16], work: &mut [u16]) -> Result<bool, Refusal>
        ensures { Judges (tables (generator_of self.now)) cells.now work.old work.new result }
    {
        let n = self.length();
        check_lawful(n, n, cells, work)?;
        zero_front(work, n);
        check_cells(cells, S::Q, Content::Word)?;
        let (message, checks) = cells.split_at(self.k);
        Ok(self.agree(message, checks))
    }

    fn encode(&self, message: &[u16], answer: &mut [u16], work: &mut [u16]) -> Result<(), Refusal>
        ensures { Encodes (tables (generator_of self.now)) (front self.now.k) message.now answer.old answer.new work.old work.new result }
    {
        let n = self.length();
        check_encode(n, self.k, n, message, answer, work)?;
        zero_front(work, n);
        check_cells(message, S::Q, Content::Word)?;
        answer[..self.k].copy_from_slice(message);
        self.write_checks(message, &mut answer[self.k..]);
        Ok(())
    }

    fn take_out(&self, word: &[u16], answer: &mut [u16]) -> Result<(), Refusal>
        ensures { TakesOut (tables (generator_of self.now)) (front self.now.k) word.now answer.old answer.new result }
    {
        let n = self.length();
        check_take_out(n, self.k, n, word, answer)?;
        check_cells(word, S::Q, Content::Word)?;
        answer.copy_from_slice(&word[..self.k]);
        Ok(())
    }
}

impl<S: Alphabet> Code for Table<S> {
    type Symbols = S;

    ghost codebook = { λ c. limited (tabulable S.Alphabet.Q c.k c.m) S.Alphabet.Q (tables (generator S.Alphabet.Q S.Alphabet.plus S.Alphabet.times c.k c.m c.rows)) };

    ghost layout = { λ c. limited_layout (tabulable S.Alphabet.Q c.k c.m) (front c.k) };

    ghost apart = { λ c.
        let s : Generator = generator S.Alphabet.Q S.Alphabet.plus S.Alphabet.times c.k c.m c.rows in
        limited_apart (tabulable s.q s.k s.m) s.q (tables s) (zero_in S.Alphabet.ring)
        (λ e. tables_apart s S.Alphabet.ring (at_least_one s.q s.k s.m e)) };

    ghost linear = { λ c.
        let s : Generator = generator S.Alphabet.Q S.Alphabet.plus S.Alphabet.times c.k c.m c.rows in
        limited_linear (tabulable s.q s.k s.m) (tables s) (front s.k) S.Alphabet.ring
        (λ e. tables_linear s S.Alphabet.ring) };

    ghost symbols = { Prim.search rules };

    fn length(&self) -> usize {
        self.proper().map_or(1, |rows| rows.length())
    }

    fn message_length(&self) -> usize {
        self.proper().map_or(0, |rows| rows.k)
    }

    fn distance(&self) -> usize
        ensures is { result ≡ answered (limited (tabulable S.Alphabet.Q self.now.k self.now.m) S.Alphabet.Q (tables (generator S.Alphabet.Q S.Alphabet.plus S.Alphabet.times self.now.k self.now.m self.now.rows))).d }
        ensures lightest { tabulable S.Alphabet.Q self.now.k self.now.m ≡ true → Least (generator S.Alphabet.Q S.Alphabet.plus S.Alphabet.times self.now.k self.now.m self.now.rows) result }
    {
        self.proper().map_or(1, |rows| rows.distance())
    }

    fn working_cells(&self) -> usize {
        self.proper().map_or(0, |rows| rows.length())
    }

    fn message_place(&self, i: usize) -> Option<usize> {
        (i < self.message_length()).then_some(i)
    }

    fn read(
        &self,
        received: &[u16],
        answer: &mut [u16],
        work: &mut [u16],
    ) -> Result<Counts, Refusal> {
        match self.proper() {
            Some(rows) => rows.read(received, answer, work),
            None => Trivial::<S>::CODE.read(received, answer, work),
        }
    }

    fn lawful(&self, cells: &[u16], work: &mut [u16]) -> Result<bool, Refusal> {
        match self.proper() {
            Some(rows) => rows.judge(cells, work),
            None => Trivial::<S>::CODE.lawful(cells, work),
        }
    }

    fn encode(&self, message: &[u16], answer: &mut [u16], work: &mut [u16]) -> Result<(), Refusal> {
        match self.proper() {
            Some(rows) => rows.encode(message, answer, work),
            None => Trivial::<S>::CODE.encode(message, answer, work),
        }
    }

    fn take_out(&self, word: &[u16], answer: &mut [u16]) -> Result<(), Refusal> {
        match self.proper() {
            Some(rows) => rows.take_out(word, answer),
            None => Trivial::<S>::CODE.take_out(word, answer),
        }
    }
}
