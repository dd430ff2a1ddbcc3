// The alphabets that calculate with remainders on division by q: two bits, ten digits, and one for every other modulus.
ghost use Rattle.std.specs.Prelude.{◌≡◌, ℕ, ◌≤◌};
ghost use Rattle.alphabet.specs.Remainders.{plus_mod, minus_mod, times_mod};
ghost use Rattle.std.proofs.Common.{lit≤};
ghost use Rattle.alphabet.specs.Modular.{remainders};

use crate::Alphabet;
use std::marker::PhantomData;

// A number of symbols by which the remainders on division are an alphabet.
pub trait Modulus {
    const MODULUS: u16;

    ghost MODULUS: { ℕ };

    ghost low: { 2 ≤ MODULUS };

    ghost high: { MODULUS ≤ 256 };
}

#[derive(Clone, Copy, PartialEq, Eq, Debug)]
pub struct Bits;

#[derive(Clone, Copy, PartialEq, Eq, Debug)]
pub struct Digits;

impl Modulus for Bits {
    const MODULUS: u16 = 2;

    ghost MODULUS = { 2 };

    ghost low = { lit≤ tt };

    ghost high = { lit≤ tt };
}

impl Modulus for Digits {
    const MODULUS: u16 = 10;

    ghost MODULUS = { 10 };

    ghost low = { lit≤ tt };

    ghost high = { lit≤ tt };
}

// The alphabet of the remainders on division by a modulus.
#[derive(Clone, Copy, PartialEq, Eq, Debug)]
pub struct Residues<M> {
    modulus: PhantomData<M>,
}

impl<M: Modulus> Alphabet for Residues<M> {
    const Q: u16 = M::MODULUS;

    ghost Q = { M.MODULUS };

    ghost plus = { plus_mod M.MODULUS };

    ghost minus = { minus_mod M.MODULUS };

    ghost times = { times_mod M.MODULUS };

    ghost ring = { remainders M.MODULUS M.low M.high };

    fn size() -> u16
        ensures is { result ≡ M.MODULUS }
        ensures constant { ⟦<Residues<M> as Alphabet>⟧.Q ≡ result }
    {
        M::MODULUS
    }

    fn add(a: u16, b: u16) -> u16 {
        let q = M::MODULUS;
        (a % q + b % q) % q
    }

    fn negate(a: u16) -> u16 {
        let q = M::MODULUS;
        (q - a % q) % q
    }

    fn multiply(a: u16, b: u16) -> u16 {
        let q = M::MODULUS;
        (a % q) * (b % q) % q
    }
}

// Bits and Digits are alphabets by impls of their own, since a constant or an array's length may name the constant of such an impl, and none of an impl for every modulus.
impl Alphabet for Bits {
    const Q: u16 = <Bits as Modulus>::MODULUS;

    ghost Q = { 2 };

    ghost plus = { plus_mod 2 };

    ghost minus = { minus_mod 2 };

    ghost times = { times_mod 2 };

    ghost ring = { remainders 2 (lit≤ tt) (lit≤ tt) };

    fn size() -> u16
        ensures is { result ≡ 2 }
        ensures constant { ⟦<Bits as Alphabet>⟧.Q ≡ result }
    {
        Self::Q
    }

    fn add(a: u16, b: u16) -> u16 {
        Residues::<Self>::add(a, b)
    }

    fn negate(a: u16) -> u16 {
        Residues::<Self>::negate(a)
    }

    fn multiply(a: u16, b: u16) -> u16 {
        Residues::<Self>::multiply(a, b)
    }
}

impl Alphabet for Digits {
    const Q: u16 = <Digits as Modulus>::MODULUS;

    ghost Q = { 10 };

    ghost plus = { plus_mod 10 };

    ghost minus = { minus_mod 10 };

    ghost times = { times_mod 10 };

    ghost ring = { remainders 10 (lit≤ tt) (lit≤ tt) };

    fn size() -> u16
        ensures is { result ≡ 10 }
        ensures constant { ⟦<Digits as Alphabet>⟧.Q ≡ result }
    {
        Self::Q
    }

    fn add(a: u16, b: u16) -> u16 {
        Residues::<Self>::add(a, b)
    }

    fn negate(a: u16) -> u16 {
        Residues::<Self>::negate(a)
    }

    fn multiply(a: u16, b: u16) -> u16 {
        Residues::<Self>::multiply(a, b)
    }
}
