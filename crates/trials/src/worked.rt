// Worked examples of the alphabets, and of rows that come back or are lost.
use crate::calls::Trial;
use alphabet::{Alphabet, Bits, Digits, Sixteen};
use code::{BLANK, Counts, Reason, Refusal};
use repetition::Repetition;
use std::test::Fail;
use sum::Sum;
use table::Table;

#[test]
fn symbols(rt: HostRuntime) {
    assert_eq!(rt; Sixteen::multiply(9, 9), 13);
    assert_eq!(rt; Sixteen::multiply(7, 11), 4);
    assert_eq!(rt; Sixteen::multiply(8, 2), 3);
    assert_eq!(rt; Sixteen::add(9, 13), 4);
    assert_eq!(rt; Digits::add(7, 8), 5);
    assert_eq!(rt; Digits::multiply(4, 5), 0);
    assert_eq!(rt; Digits::negate(3), 7);
    assert_eq!(rt; Bits::add(1, 1), 0);
}

// The number of symbols, where a constant is asked for.
const TEN: u16 = <Digits as Alphabet>::Q;

#[test]
fn constants(rt: HostRuntime) {
    let two = [0u8; <Bits as Alphabet>::Q as usize];
    let sixteen = [0u8; <Sixteen as Alphabet>::Q as usize];
    assert_eq!(rt; [two.len(), usize::from(TEN), sixteen.len()], [2, 10, 16]);
}

#[test]
fn numbers_at_and_above_q_count_as_their_remainders(rt: HostRuntime) {
    assert_eq!(rt; Digits::add(17, 65535), 2);
    assert_eq!(rt; Digits::negate(10), 0);
    assert_eq!(rt; Sixteen::multiply(25, 9), 13);
    assert_eq!(rt; Bits::multiply(65535, 3), 1);
}

#[test]
fn repeated_rows(rt: HostRuntime) -> Result<(), Fail> {
    let three = Trial::new(&rt, rt.alloc(), Repetition::<Digits>::new(3)?);
    three.reads_as(&[4, 4, 7], &[4, 4, 4], Counts { wrong: 1, blank: 0 })?;
    three.reads_as(
        &[4, BLANK, BLANK],
        &[4, 4, 4],
        Counts { wrong: 0, blank: 2 },
    )?;
    three.reads_as(&[0, 9, 0], &[0, 0, 0], Counts { wrong: 1, blank: 0 })?;
    three.read_fails(&[4, 7, BLANK], (3, 0), Reason::Lost.at(0))?;
    three.read_fails(&[BLANK, BLANK, BLANK], (3, 1), Reason::Lost.at(0))?;
    three.read_fails(&[1, 2, 3], (3, 0), Reason::Lost.at(0))?;
    three.encodes_as(&[4], &[4, 4, 4])?;
    let one = Trial::new(&rt, rt.alloc(), Repetition::<Bits>::new(1)?);
    one.reads_as(&[1], &[1], Counts { wrong: 0, blank: 0 })?;
    one.read_fails(&[BLANK], (1, 0), Reason::Lost.at(0))
}

#[test]
fn balanced_rows(rt: HostRuntime) -> Result<(), Fail> {
    let five = Trial::new(&rt, rt.alloc(), Sum::<Digits>::new(5)?);
    let word = [1, 2, 3, 4, 0];
    five.reads_as(&[1, 2, BLANK, 4, 0], &word, Counts { wrong: 0, blank: 1 })?;
    five.reads_as(&[1, 2, 3, 4, BLANK], &word, Counts { wrong: 0, blank: 1 })?;
    five.reads_as(&word, &word, Counts { wrong: 0, blank: 0 })?;
    five.read_fails(&[1, 2, 3, 4, 1], (5, 0), Reason::Lost.at(0))?;
    five.read_fails(&[1, BLANK, BLANK, 4, 0], (5, 3), Reason::Lost.at(0))?;
    five.encodes_as(&[1, 2, 3, 4], &word)?;
    let four = Trial::new(&rt, rt.alloc(), Sum::<Sixteen>::new(4)?);
    let word = [9, 13, 7, 3];
    four.encodes_as(&[9, 13, 7], &word)?;
    four.reads_as(&[BLANK, 13, 7, 3], &word, Counts { wrong: 0, blank: 1 })
}

// The binary code of length 7 that carries 4 symbols.
pub(crate) fn seven_four() -> Result<Table<Bits>, Refusal> {
    let mut table = Table::EMPTY;
    table.fill(4, 3, &[1, 0, 1, 1, 1, 1, 1, 1, 0, 0, 1, 1])?;
    Ok(table)
}

#[test]
fn table_rows(rt: HostRuntime) -> Result<(), Fail> {
    let code = Trial::new(&rt, rt.alloc(), seven_four()?);
    code.has_numbers([7, 4, 3, 7]);
    let word = [1, 0, 1, 1, 0, 0, 0];
    code.encodes_as(&[1, 0, 1, 1], &word)?;
    let blotted = [BLANK, BLANK, 1, 1, 0, 0, 0];
    code.reads_as(&blotted, &word, Counts { wrong: 0, blank: 2 })?;
    let misread = [1, 0, 1, 1, 0, 1, 0];
    code.reads_as(&misread, &word, Counts { wrong: 1, blank: 0 })?;
    code.read_fails(&[BLANK, 0, 1, 1, 0, 0, 1], (7, 7), Reason::Lost.at(0))
}
