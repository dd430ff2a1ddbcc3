// Alphabets: the symbols 0 .. q - 1 with an addition, a negation and a multiplication that obey the laws of a commutative ring.
#![tactic(auto)]

ghost use Rattle.std.specs.Prelude.{◌≡◌, ℕ, ◌%◌};
ghost use Rattle.alphabet.specs.Rings.{Ring};

mod polynomials;
mod remainders;

pub use polynomials::Sixteen;
pub use remainders::{Bits, Digits, Modulus, Residues};

// A kind of symbols. Every operation belongs to the kind, so no value of it is needed; an operand at or above q counts as its remainder on division by q.
pub trait Alphabet {
    // q, the number of symbols
    const Q: u16;

    ghost Q: { ℕ };

    ghost plus: { ℕ → ℕ → ℕ };

    ghost minus: { ℕ → ℕ };

    ghost times: { ℕ → ℕ → ℕ };

    // Q, as a call
    fn size() -> u16
        ensures { result ≡ Q };

    fn add(a: u16, b: u16) -> u16
        ensures { result ≡ plus (a % Q) (b % Q) };

    fn negate(a: u16) -> u16
        ensures { result ≡ minus (a % Q) };

    fn multiply(a: u16, b: u16) -> u16
        ensures { result ≡ times (a % Q) (b % Q) };

    ghost ring: { Ring Q plus minus times };
}
