// The product of two codes is a code.
ghost use Rattle.std.specs.Prelude.{◌≡◌, ◌*◌, ◌≤◌};
ghost use Rattle.code.specs.Calls.{answered};
ghost use Rattle.algebra.specs.Grids.{grids, laid};
ghost use Rattle.algebra.proofs.Products.{product_apart};
ghost use Rattle.algebra.proofs.Encoded.{product_linear};
ghost use Rattle.std.proofs.Common.{rules};

use code::{
    Code, Counts, MAX_LENGTH, MAX_WORKING, Refusal, check_encode, check_lawful, check_read,
    check_take_out, zero_front,
};

// Columns are words of the first code and rows words of the second.
#[derive(Clone, Copy, PartialEq, Eq, Debug, Drop)]
pub struct Product<A, B> {
    pub(crate) columns: A,
    pub(crate) rows: B,
}

impl<A: Code, B: Code<Symbols = A::Symbols>> Product<A, B> {
    // Both codes have one alphabet: a product over two alphabets does not compile.
    pub fn new(columns: A, rows: B) -> Product<A, B>
        ensures columns { result.columns ≡ columns }
        ensures rows { result.rows ≡ rows }
    {
        Product { columns, rows }
    }
}

// The product of two numbers as a code answers them, answered so too.
fn answer_product(x: usize, y: usize) -> usize
    requires { (x ≤ 4097) × (y ≤ 4097) }
    ensures { result ≡ answered (x * y) }
{
    (x * y).min(MAX_LENGTH + 1)
}

impl<A: Code, B: Code<Symbols = A::Symbols>> Code for Product<A, B> {
    type Symbols = A::Symbols;

    ghost codebook = { λ c. grids (A.Code.codebook c.columns) (B.Code.codebook c.rows) };

    ghost layout = { λ c. laid (B.Code.codebook c.rows) (A.Code.layout c.columns) (B.Code.layout c.rows) };

    ghost apart = { λ c. product_apart _ _ (A.Code.apart c.columns) (B.Code.apart c.rows) };

    ghost linear = { λ c.
        product_linear A.Symbols.Alphabet.ring
        (A.Code.symbols c.columns) (B.Code.symbols c.rows)
        (A.Code.apart c.columns) (B.Code.apart c.rows)
        (A.Code.linear c.columns) (B.Code.linear c.rows) };

    ghost symbols = { Prim.search rules };

    fn length(&self) -> usize {
        answer_product(self.columns.length(), self.rows.length())
    }

    fn message_length(&self) -> usize {
        answer_product(self.columns.message_length(), self.rows.message_length())
    }

    fn distance(&self) -> usize {
        answer_product(self.columns.distance(), self.rows.distance())
    }

    fn working_cells(&self) -> usize {
        if self.length() > MAX_LENGTH {
            return MAX_WORKING + 1;
        }
        let n1 = self.columns.length();
        let n2 = self.rows.length();
        let w = self.columns.working_cells().max(self.rows.working_cells());
        (n1 * n2 + n2 + 2 * n1.max(n2) + w).min(MAX_WORKING + 1)
    }

    fn message_place(&self, i: usize) -> Option<usize> {
        if self.length() > MAX_LENGTH {
            return None;
        }
        self.combine_places(i)
    }

    fn read(
        &self,
        received: &[u16],
        answer: &mut [u16],
        work: &mut [u16],
    ) -> Result<Counts, Refusal> {
        let n = self.length();
        let working = self.working_cells();
        check_read(n, working, received, answer, work)?;
        let verdict = self.attempt(received, answer, &mut work[..working]);
        zero_front(work, working);
        verdict
    }

    fn lawful(&self, cells: &[u16], work: &mut [u16]) -> Result<bool, Refusal> {
        let n = self.length();
        let w = self.working_cells();
        check_lawful(n, w, cells, work)?;
        let verdict = self.judge(cells, &mut work[..w]);
        zero_front(work, w);
        verdict
    }

    fn encode(&self, message: &[u16], answer: &mut [u16], work: &mut [u16]) -> Result<(), Refusal> {
        let n = self.length();
        let k = self.message_length();
        let w = self.working_cells();
        check_encode(n, k, w, message, answer, work)?;
        let verdict = self.print(message, answer, &mut work[..w]);
        zero_front(work, w);
        verdict
    }

    fn take_out(&self, word: &[u16], answer: &mut [u16]) -> Result<(), Refusal> {
        let n = self.length();
        let k = self.message_length();
        let w = self.working_cells();
        check_take_out(n, k, w, word, answer)?;
        self.take(word, answer)
    }
}
