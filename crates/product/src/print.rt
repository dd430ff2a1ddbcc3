// Encoding a message: its rows by one code, at the message places of the other, then each column by that one.
ghost use Rattle.std.specs.Prelude.{◌≡◌, ℕ, ◌*◌, ◌<◌, ◌≤◌, ◌≢◌, length};
ghost use Rattle.code.specs.Cells.{good};
ghost use Rattle.code.specs.declared.cells.Content.TheVariants.{Word};
ghost use Rattle.code.specs.Codes.{taken};
ghost use Rattle.algebra.specs.Grids.{row, column};
ghost use Rattle.code.specs.Calls.{encodes};
ghost use Rattle.code.specs.Refusals.{clean};
ghost use Rattle.algebra.specs.Parts.{Ready, Symbols, Printed};

use crate::pick::{message_length_of, place_in};
use crate::read::{length_of, put_column};
use crate::whole::Product;
use alphabet::Alphabet;
use code::{Code, Content, Refusal, check_cells};

// Encodes one line.
fn encode_line<C: Code>(code: &C, message: &[u16], line: &mut [u16], rest: &mut [u16])
    requires ready { Ready (C.Code.codebook code.now) (length line.old) (length rest.old) }
    requires long { length message.now ≡ (C.Code.layout code.now).k }
    requires symbols { Symbols (C.Code.codebook code.now).q message.now }
    ensures { Printed (C.Code.codebook code.now) (C.Code.layout code.now) message.now line.new }
{
    let _ = code.encode(message, line, rest);
}

// Copies the message places of column j.
fn take_places<C: Code>(code: &C, grid: &[u16], n2: usize, j: usize, line: &mut [u16])
    requires numbers { ((C.Code.codebook code.now).n ≤ 4096) × (length line.old ≡ (C.Code.layout code.now).k) }
    requires fits { (length grid.now ≡ (C.Code.codebook code.now).n * n2) × (length grid.now ≤ 4096) }
    requires within { j < n2 }
    ensures { line.new ≡ taken (C.Code.layout code.now) (column (C.Code.codebook code.now).n n2 grid.now j) }
{
    for (l, cell) in line.iter_mut().enumerate() {
        *cell = grid[place_in(code, l) * n2 + j];
    }
}

// Encodes column j from its message places.
fn encode_column<C: Code>(
    code: &C,
    n2: usize,
    j: usize,
    grid: &mut [u16],
    line: &mut [u16],
    word: &mut [u16],
    rest: &mut [u16],
)
    requires ready { Ready (C.Code.codebook code.now) (length word.old) (length rest.old) }
    requires long { length line.old ≡ (C.Code.layout code.now).k }
    requires fits { (length grid.old ≡ length word.old * n2) × (length grid.old ≤ 4096) }
    requires within { j < n2 }
    requires symbols { Symbols (C.Code.codebook code.now).q (taken (C.Code.layout code.now) (column (length word.old) n2 grid.old j)) }
    ensures here { Printed (C.Code.codebook code.now) (C.Code.layout code.now) (taken (C.Code.layout code.now) (column (length word.old) n2 grid.old j)) (column (length word.old) n2 grid.new j) }
    ensures others { (k : ℕ) → k < n2 → k ≢ j → column (length word.old) n2 grid.new k ≡ column (length word.old) n2 grid.old k }
{
    take_places(code, grid, n2, j, line);
    encode_line(code, line, word, rest);
    put_column(word, n2, j, grid);
}

// Encodes each column.
fn encode_columns<C: Code>(
    code: &C,
    n2: usize,
    grid: &mut [u16],
    line: &mut [u16],
    word: &mut [u16],
    rest: &mut [u16],
)
    requires ready { Ready (C.Code.codebook code.now) (length word.old) (length rest.old) }
    requires long { length line.old ≡ (C.Code.layout code.now).k }
    requires fits { (length grid.old ≡ length word.old * n2) × (length grid.old ≤ 4096) }
    requires symbols { (j : ℕ) → j < n2 → Symbols (C.Code.codebook code.now).q (taken (C.Code.layout code.now) (column (length word.old) n2 grid.old j)) }
    ensures { (j : ℕ) → j < n2 → Printed (C.Code.codebook code.now) (C.Code.layout code.now) (taken (C.Code.layout code.now) (column (length word.old) n2 grid.old j)) (column (length word.old) n2 grid.new j) }
{
    for j in 0..n2 {
        encode_column(code, n2, j, grid, line, word, rest);
    }
}

impl<A: Code, B: Code<Symbols = A::Symbols>> Product<A, B> {
    // Encodes each row of the message into the row at its place.
    fn encode_rows(&self, message: &[u16], grid: &mut [u16], rest: &mut [u16])
        requires ready { Ready (B.Code.codebook self.now.rows) (B.Code.codebook self.now.rows).n (length rest.old) }
        requires long { length message.now ≡ (⟦<Product<A, B> as Code>⟧.layout self.now).k }
        requires fits { (length grid.old ≡ (⟦<Product<A, B> as Code>⟧.codebook self.now).n) × (length grid.old ≤ 4096) }
        requires symbols { Symbols (⟦<Product<A, B> as Code>⟧.codebook self.now).q message.now }
        ensures { (l : ℕ) → l < (A.Code.layout self.now.columns).k → Printed (B.Code.codebook self.now.rows) (B.Code.layout self.now.rows) (row (B.Code.layout self.now.rows).k message.now l) (row (B.Code.codebook self.now.rows).n grid.new ((A.Code.layout self.now.columns).place l)) }
    {
        let n2 = length_of(&self.rows);
        let k2 = message_length_of(&self.rows);
        for l in 0..message_length_of(&self.columns) {
            let start = l * k2;
            let from = place_in(&self.columns, l) * n2;
            encode_line(
                &self.rows,
                &message[start..start + k2],
                &mut grid[from..from + n2],
                rest,
            );
        }
    }

    // Encodes a message of symbols.
    fn encode_grid(&self, message: &[u16], answer: &mut [u16], work: &mut [u16])
        requires ready { Ready (⟦<Product<A, B> as Code>⟧.codebook self.now) (length answer.old) (length work.old) }
        requires long { length message.now ≡ (⟦<Product<A, B> as Code>⟧.layout self.now).k }
        requires symbols { Symbols (⟦<Product<A, B> as Code>⟧.codebook self.now).q message.now }
        ensures { Printed (⟦<Product<A, B> as Code>⟧.codebook self.now) (⟦<Product<A, B> as Code>⟧.layout self.now) message.now answer.new }
    {
        let n1 = length_of(&self.columns);
        let n2 = length_of(&self.rows);
        let (line, tail) = work.split_at_mut(message_length_of(&self.columns));
        let (word, rest) = tail.split_at_mut(n1);
        self.encode_rows(message, answer, rest);
        encode_columns(&self.columns, n2, answer, line, word, rest);
    }

    // Checks the message, and encodes it.
    pub(crate) fn print(
        &self,
        message: &[u16],
        answer: &mut [u16],
        work: &mut [u16],
    ) -> Result<(), Refusal>
        requires ready { Ready (⟦<Product<A, B> as Code>⟧.codebook self.now) (length answer.old) (length work.old) }
        requires long { length message.now ≡ (⟦<Product<A, B> as Code>⟧.layout self.now).k }
        ensures { encodes (clean (good Word (⟦<Product<A, B> as Code>⟧.codebook self.now).q) message.now) (⟦<Product<A, B> as Code>⟧.codebook self.now) (⟦<Product<A, B> as Code>⟧.layout self.now) message.now answer.old answer.new result }
    {
        check_cells(message, A::Symbols::Q, Content::Word)?;
        self.encode_grid(message, answer, work);
        Ok(())
    }
}
