// The codes that the first line of a job may name.
ghost use Rattle.std.specs.Prelude.{◌≡◌};
ghost use Rattle.job.specs.Jobs.{trip_rows};

use alphabet::{Bits, Digits, Sixteen};
use product::Product;
use repetition::Repetition;
use std::marker::PhantomData;
use sum::Sum;
use table::Table;

// The binary table of length 7 that carries 4 symbols, row by row.
const TRIP_ROWS: [u16; 12] = [1, 0, 1, 1, 1, 1, 1, 1, 0, 0, 1, 1];

fn trip_table() -> Table<Bits>
    ensures k { result.k ≡ 4 }
    ensures m { result.m ≡ 3 }
    ensures rows { result.rows ≡ trip_rows }
{
    let mut table = Table::EMPTY;
    let _ = table.fill(4, 3, &TRIP_ROWS);
    table
}

// A repetition code of n symbols without the maker's test, which could fail: each n below keeps the limits.
fn repetition_code<S>(n: usize) -> Repetition<S>
    ensures { result.n ≡ n }
{
    Repetition {
        n,
        symbols: PhantomData,
    }
}

// A sum code of n symbols in the same way.
fn sum_code<S>(n: usize) -> Sum<S>
    ensures { result.n ≡ n }
{
    Sum {
        n,
        symbols: PhantomData,
    }
}

pub(crate) fn trip_code() -> Product<Table<Bits>, Sum<Bits>>
    ensures k { result.columns.k ≡ 4 }
    ensures m { result.columns.m ≡ 3 }
    ensures table { result.columns.rows ≡ trip_rows }
    ensures rows { result.rows.n ≡ 4 }
{
    Product::new(trip_table(), sum_code(4))
}

pub(crate) fn fare_code() -> Product<Repetition<Digits>, Sum<Digits>>
    ensures columns { result.columns.n ≡ 3 }
    ensures rows { result.rows.n ≡ 4 }
{
    Product::new(repetition_code(3), sum_code(4))
}

pub(crate) fn shift_code() -> Product<
    Product<Repetition<Sixteen>, Sum<Sixteen>>,
    Repetition<Sixteen>,
>
    ensures first { result.columns.columns.n ≡ 2 }
    ensures second { result.columns.rows.n ≡ 3 }
    ensures third { result.rows.n ≡ 2 }
{
    Product::new(
        Product::new(repetition_code(2), sum_code(3)),
        repetition_code(2),
    )
}
