// The alphabet of sixteen: polynomials over two elements of degree below 4, multiplied with remainder on division by x^4 + x + 1.
ghost use Rattle.std.specs.Prelude.{◌≡◌, ◌%◌, ◌<◌, bit_xor};
ghost use Rattle.alphabet.specs.Polynomials.{product, Remainder, field_product};
ghost use Rattle.alphabet.specs.Shifts.{raised, part};
ghost use Rattle.alphabet.specs.Field.{sixteen};

use crate::Alphabet;

// The four bits of a symbol are the coefficients, the lowest bit the constant.
#[derive(Clone, Copy, PartialEq, Eq, Debug)]
pub struct Sixteen;

// x^4 + x + 1
const MODULUS: u16 = 0b10011;

// x times the polynomial
fn raise(a: u16) -> u16
    requires { a < 16 }
    ensures is { result ≡ raised a }
    ensures below { result < 16 }
{
    let shifted = a << 1;
    if shifted < 16 {
        shifted
    } else {
        shifted ^ MODULUS
    }
}

// the polynomial where the lowest bit is set, else nothing
fn pick(bits: u16, a: u16) -> u16
    ensures { result ≡ part bits a }
{
    if bits & 1 == 1 { a } else { 0 }
}

impl Alphabet for Sixteen {
    const Q: u16 = 16;

    ghost Q = { 16 };

    ghost plus = { bit_xor };

    ghost minus = { λ a. a };

    ghost times = { field_product };

    ghost ring = { sixteen };

    fn size() -> u16
        ensures is { result ≡ 16 }
        ensures constant { ⟦<Sixteen as Alphabet>⟧.Q ≡ result }
    {
        Self::Q
    }

    fn add(a: u16, b: u16) -> u16 {
        (a % Self::Q) ^ (b % Self::Q)
    }

    // over two elements every polynomial is its own negative
    fn negate(symbol: u16) -> u16 {
        symbol % Self::Q
    }

    fn multiply(a: u16, b: u16) -> u16
        ensures is { result ≡ field_product (a % 16) (b % 16) }
        ensures remainder { Remainder (product (a % 16) (b % 16)) result }
    {
        let one = a % Self::Q;
        let two = raise(one);
        let four = raise(two);
        let eight = raise(four);
        let b = b % Self::Q;
        (pick(b, one) ^ pick(b >> 1, two)) ^ (pick(b >> 2, four) ^ pick(b >> 3, eight))
    }
}
