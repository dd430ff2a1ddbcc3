// Reads of the same cells by the two products of three codes, which agree.
ghost use Rattle.std.specs.Prelude.{◌≡◌, Ok};
ghost use Rattle.code.specs.Calls.{read_checks, Reads};
ghost use Rattle.algebra.specs.Agreement.{Agree};

use crate::whole::Product;
use code::{Code, Counts, Refusal};

// Reads the cells on (A ⊗ B) ⊗ C and on A ⊗ (B ⊗ C). Where the three codes are the same and neither read is refused by a size or a cell, verdict, counts and word are equal.
pub fn both_ways<A: Code, B: Code<Symbols = A::Symbols>, C: Code<Symbols = A::Symbols>>(
    left: &Product<Product<A, B>, C>,
    right: &Product<A, Product<B, C>>,
    received: &[u16],
    first: &mut [u16],
    second: &mut [u16],
    work: &mut [u16],
    spare: &mut [u16],
) -> (Result<Counts, Refusal>, Result<Counts, Refusal>)
    ensures left { Reads (⟦<Product<Product<A, B>, C> as Code>⟧.codebook left.now) received.now first.old first.new work.old work.new result.0 }
    ensures right { Reads (⟦<Product<A, Product<B, C>> as Code>⟧.codebook right.now) received.now second.old second.new spare.old spare.new result.1 }
    ensures same { left.now.columns.columns ≡ right.now.columns → left.now.columns.rows ≡ right.now.rows.columns → left.now.rows ≡ right.now.rows.rows → read_checks (⟦<Product<Product<A, B>, C> as Code>⟧.codebook left.now) received.now first.old work.old ≡ Ok tt → read_checks (⟦<Product<A, Product<B, C>> as Code>⟧.codebook right.now) received.now second.old spare.old ≡ Ok tt → Agree first.new second.new result.0 result.1 }
{
    let one = left.read(received, first, work);
    let two = right.read(received, second, spare);
    (one, two)
}
