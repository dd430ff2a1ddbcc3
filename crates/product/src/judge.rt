// Whether a grid is a word of the product.
ghost use Rattle.std.specs.Prelude.{◌≡◌, ℕ, ◌+◌, ◌*◌, ◌≤◌, length};
ghost use Rattle.code.specs.Cells.{good};
ghost use Rattle.code.specs.declared.cells.Content.TheVariants.{Word};
ghost use Rattle.algebra.specs.Grids.{row};
ghost use Rattle.code.specs.Calls.{judges};
ghost use Rattle.code.specs.Refusals.{clean};
ghost use Rattle.algebra.specs.Parts.{Ready, Symbols, Says};

use crate::read::{columns_lawful, length_of};
use crate::whole::Product;
use alphabet::Alphabet;
use code::{Code, Content, Refusal, check_cells};

// Whether a line is a word.
pub(crate) fn line_lawful<C: Code>(code: &C, cells: &[u16], rest: &mut [u16]) -> bool
    requires ready { Ready (C.Code.codebook code.now) (length cells.now) (length rest.old) }
    requires symbols { Symbols (C.Code.codebook code.now).q cells.now }
    ensures { Says result ((C.Code.codebook code.now).Word cells.now) }
{
    code.lawful(cells, rest).unwrap_or(false)
}

// Whether each row of the grid is a word.
fn rows_lawful<C: Code>(code: &C, grid: &[u16], n2: usize, rest: &mut [u16]) -> bool
    requires ready { Ready (C.Code.codebook code.now) n2 (length rest.old) }
    requires symbols { Symbols (C.Code.codebook code.now).q grid.now }
    ensures { Says result ((i : ℕ) → i * n2 + n2 ≤ length grid.now → (C.Code.codebook code.now).Word (row n2 grid.now i)) }
{
    for line in grid.chunks_exact(n2) {
        if !line_lawful(code, line, rest) {
            return false;
        }
    }
    true
}

impl<A: Code, B: Code<Symbols = A::Symbols>> Product<A, B> {
    // Whether the grid is a word of the product.
    fn grid_lawful(&self, cells: &[u16], work: &mut [u16]) -> bool
        requires ready { Ready (⟦<Product<A, B> as Code>⟧.codebook self.now) (length cells.now) (length work.old) }
        requires symbols { Symbols (⟦<Product<A, B> as Code>⟧.codebook self.now).q cells.now }
        ensures { Says result ((⟦<Product<A, B> as Code>⟧.codebook self.now).Word cells.now) }
    {
        let n2 = length_of(&self.rows);
        columns_lawful(&self.columns, cells, n2, work) && rows_lawful(&self.rows, cells, n2, work)
    }

    // Checks the cells, and judges.
    pub(crate) fn judge(&self, cells: &[u16], work: &mut [u16]) -> Result<bool, Refusal>
        requires ready { Ready (⟦<Product<A, B> as Code>⟧.codebook self.now) (length cells.now) (length work.old) }
        ensures { judges (clean (good Word (⟦<Product<A, B> as Code>⟧.codebook self.now).q) cells.now) (⟦<Product<A, B> as Code>⟧.codebook self.now) cells.now result }
    {
        check_cells(cells, A::Symbols::Q, Content::Word)?;
        Ok(self.grid_lawful(cells, work))
    }
}
