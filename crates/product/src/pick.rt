// The message places of a product, and what stands at them.
ghost use Rattle.std.specs.Prelude.{◌≡◌, ◌<◌, ◌≤◌, length, IfSome};
ghost use Rattle.code.specs.Codes.{taken};
ghost use Rattle.code.specs.Cells.{good};
ghost use Rattle.code.specs.declared.cells.Content.TheVariants.{Word};
ghost use Rattle.code.specs.Calls.{answered_place, takes};
ghost use Rattle.code.specs.Refusals.{clean};

use crate::read::length_of;
use crate::whole::Product;
use alphabet::Alphabet;
use code::{Code, Content, Refusal, check_cells};

// The number of message symbols of a code that is known to be small.
pub(crate) fn message_length_of<C: Code>(code: &C) -> usize
    requires { (C.Code.codebook code.now).n ≤ 4096 }
    ensures { (result ≡ (C.Code.layout code.now).k) × (result ≤ 4096) }
{
    code.message_length()
}

// The place of message symbol i of a code that is known to be small.
pub(crate) fn place_in<C: Code>(code: &C, i: usize) -> usize
    requires { ((C.Code.codebook code.now).n ≤ 4096) × (i < (C.Code.layout code.now).k) }
    ensures { (result ≡ (C.Code.layout code.now).place i) × (result < (C.Code.codebook code.now).n) }
{
    code.message_place(i).unwrap_or(0)
}

impl<A: Code, B: Code<Symbols = A::Symbols>> Product<A, B> {
    // The place of message symbol i, combined from the factors' places: absent where either is.
    pub(crate) fn combine_places(&self, i: usize) -> Option<usize>
        requires { (⟦<Product<A, B> as Code>⟧.codebook self.now).n ≤ 4096 }
        ensures is { result ≡ answered_place (⟦<Product<A, B> as Code>⟧.codebook self.now) (⟦<Product<A, B> as Code>⟧.layout self.now) i }
        ensures inside { IfSome result (λ p. p < (⟦<Product<A, B> as Code>⟧.codebook self.now).n) }
    {
        let n2 = length_of(&self.rows);
        let k2 = message_length_of(&self.rows);
        let up = self.columns.message_place(i.checked_div(k2)?)?;
        let along = self.rows.message_place(i % k2)?;
        Some(up * n2 + along)
    }

    // Copies what stands at the message places.
    fn pick(&self, word: &[u16], answer: &mut [u16])
        requires small { (⟦<Product<A, B> as Code>⟧.codebook self.now).n ≤ 4096 }
        requires long { length word.now ≡ (⟦<Product<A, B> as Code>⟧.codebook self.now).n }
        requires tray { length answer.old ≡ (⟦<Product<A, B> as Code>⟧.layout self.now).k }
        ensures { answer.new ≡ taken (⟦<Product<A, B> as Code>⟧.layout self.now) word.now }
    {
        for (i, cell) in answer.iter_mut().enumerate() {
            if let Some(place) = self.combine_places(i) {
                *cell = word[place];
            }
        }
    }

    // Checks the cells, and copies what stands at the message places.
    pub(crate) fn take(&self, word: &[u16], answer: &mut [u16]) -> Result<(), Refusal>
        requires small { (⟦<Product<A, B> as Code>⟧.codebook self.now).n ≤ 4096 }
        requires long { length word.now ≡ (⟦<Product<A, B> as Code>⟧.codebook self.now).n }
        requires tray { length answer.old ≡ (⟦<Product<A, B> as Code>⟧.layout self.now).k }
        ensures { takes (clean (good Word (⟦<Product<A, B> as Code>⟧.codebook self.now).q) word.now) (⟦<Product<A, B> as Code>⟧.layout self.now) word.now answer.old answer.new result }
    {
        check_cells(word, A::Symbols::Q, Content::Word)?;
        self.pick(word, answer);
        Ok(())
    }
}
