// Edges: numbers at the limits of the makers, sizes one off, cells that are no symbols, places past the message.
use crate::calls::Trial;
use alphabet::{Alphabet, Bits, Digits, Sixteen};
use code::{BLANK, Code, Counts, Reason, Refusal};
use repetition::Repetition;
use std::fmt::Debug;
use std::marker::PhantomData;
use std::process::Abort;
use std::test::Fail;
use sum::Sum;
use table::Table;
use trivial::Trivial;

#[test]
fn makers(rt: HostRuntime) -> Result<(), Fail> {
    for n in [0, 65, usize::MAX] {
        assert_eq!(rt; Repetition::<Bits>::new(n), Err(Reason::Unset.at(0)), "{n}");
    }
    for n in [0, 1, 65] {
        assert_eq!(rt; Sum::<Digits>::new(n), Err(Reason::Unset.at(0)), "{n}");
    }
    for n in [1, 64] {
        let code = Trial::new(&rt, rt.alloc(), Repetition::<Bits>::new(n)?);
        code.has_numbers([n, 1, n, 0]);
    }
    for (n, k) in [(2, 1), (64, 63)] {
        let code = Trial::new(&rt, rt.alloc(), Sum::<Digits>::new(n)?);
        code.has_numbers([n, k, 2, 0]);
    }
    Ok(())
}

#[test]
fn places(rt: HostRuntime) -> Result<(), Fail> {
    let equal = Trial::new(&rt, rt.alloc(), Repetition::<Bits>::new(7)?);
    equal.has_places(&[(0, Some(0)), (1, None)]);
    let balanced = Trial::new(&rt, rt.alloc(), Sum::<Bits>::new(7)?);
    balanced.has_places(&[(0, Some(0)), (5, Some(5)), (6, None), (usize::MAX, None)]);
    Ok(())
}

// The code of one zero, whatever it is called.
fn is_trivial<R: Abort, C: Code>(code: &Trial<'_, R, C>) -> Result<(), Fail> {
    code.has_numbers([1, 0, 1, 0]);
    code.has_places(&[(0, None)]);
    let counts = Counts { wrong: 0, blank: 0 };
    code.reads_as(&[0], &[0], counts)?;
    code.read_fails(&[1], (1, 0), Reason::Lost.at(0))?;
    code.read_fails(&[BLANK], (1, 2), Reason::Lost.at(0))?;
    code.read_fails(&[300], (1, 2), Reason::Smudge.at(0))?;
    code.read_fails(&[], (0, 0), Reason::Misfit.at(0))?;
    code.read_fails(&[0], (2, 0), Reason::WrongTray.at(0))?;
    code.is_lawful(&[1], false)?;
    code.lawful_fails(&[BLANK], 0, Reason::Smudge.at(0))?;
    code.encodes_as(&[], &[0])?;
    code.encode_fails(&[0], (1, 0), Reason::Misfit.at(0))?;
    code.take_out_fails(&[0], 1, Reason::WrongTray.at(0))
}

#[test]
fn numbers_that_break_a_limit(rt: HostRuntime) -> Result<(), Fail> {
    let heap = rt.alloc();
    is_trivial(&Trial::new(&rt, heap, Trivial::<Bits>::CODE))?;
    for n in [0, 65] {
        let symbols = PhantomData;
        is_trivial(&Trial::new(&rt, heap, Repetition::<Digits> { n, symbols }))?;
    }
    for n in [1, 65] {
        let symbols = PhantomData;
        is_trivial(&Trial::new(&rt, heap, Sum::<Sixteen> { n, symbols }))?;
    }
    Ok(())
}

// Sizes one off and smudges, of any code over Digits with words of four symbols and messages of at most three.
fn refuses_sizes<R: Abort, C: Code>(code: &Trial<'_, R, C>) -> Result<(), Fail> {
    code.read_fails(&[0, 0, 0], (5, 0), Reason::Misfit.at(0))?;
    code.read_fails(&[0, 0, 0, 0, 400], (4, 0), Reason::Misfit.at(0))?;
    code.read_fails(&[0, 0, 0, 400], (3, 0), Reason::WrongTray.at(0))?;
    code.read_fails(&[0, 0, 0, 0], (5, 7), Reason::WrongTray.at(0))?;
    code.lawful_fails(&[0, 0, 0], 0, Reason::Misfit.at(0))?;
    code.lawful_fails(&[0, 0, 0, 0, 400], 3, Reason::Misfit.at(0))?;
    code.take_out_fails(&[0, 0, 0], 9, Reason::Misfit.at(0))?;
    code.take_out_fails(&[0, 0, 0, 400], 9, Reason::WrongTray.at(0))
}

// Cells that may not stand there, of such a code with messages of k symbols that asks for so many working cells.
fn refuses_cells<R: Abort, C: Code>(
    code: &Trial<'_, R, C>,
    k: usize,
    desk: u8,
) -> Result<(), Fail> {
    let desk = usize::from(desk);
    code.read_fails(&[10, BLANK, 0, 11], (4, desk), Reason::Smudge.at(0))?;
    code.read_fails(&[9, BLANK, 0, 65534], (4, desk + 2), Reason::Smudge.at(3))?;
    code.lawful_fails(&[9, BLANK, 0, 11], desk + 1, Reason::Smudge.at(1))?;
    code.take_out_fails(&[9, 9, 9, BLANK], k, Reason::Smudge.at(3))?;
    code.take_out_fails(&[10, 9, 9, 10], k, Reason::Smudge.at(0))
}

#[test]
fn sizes_and_cells(rt: HostRuntime) -> Result<(), Fail> {
    let equal = Trial::new(&rt, rt.alloc(), Repetition::<Digits>::new(4)?);
    refuses_sizes(&equal)?;
    refuses_cells(&equal, 1, 0)?;
    equal.encode_fails(&[1, 2], (4, 0), Reason::Misfit.at(0))?;
    equal.encode_fails(&[10], (3, 0), Reason::WrongTray.at(0))?;
    equal.encode_fails(&[10], (4, 1), Reason::Smudge.at(0))?;
    equal.is_lawful(&[3, 3, 3, 4], false)?;
    let balanced = Trial::new(&rt, rt.alloc(), Sum::<Digits>::new(4)?);
    refuses_sizes(&balanced)?;
    refuses_cells(&balanced, 3, 0)?;
    balanced.encode_fails(&[1, 2], (4, 0), Reason::Misfit.at(0))?;
    balanced.encode_fails(&[1, 2, 10], (5, 0), Reason::WrongTray.at(0))?;
    balanced.encode_fails(&[1, 2, BLANK], (4, 1), Reason::Smudge.at(2))?;
    balanced.is_lawful(&[3, 3, 3, 2], false)
}

// A table that is not filled stays as it was.
fn no_table<S: Alphabet + Copy + PartialEq + Debug>(
    rt: &impl Abort,
    k: usize,
    m: usize,
    coefficients: &[u16],
    refusal: Refusal,
) {
    let before = Table::<S> {
        k: 3,
        m: 7,
        rows: [9; 128],
        symbols: PhantomData,
    };
    let mut table = before;
    assert_eq!(rt; table.fill(k, m, coefficients), Err(refusal));
    assert_eq!(rt; table, before);
}

fn is_table<S: Alphabet>(rt: &impl Abort, k: usize, m: usize, coefficients: &[u16], d: usize) {
    let mut table = Table::<S>::EMPTY;
    assert_eq!(rt; table.fill(k, m, coefficients), Ok(()));
    assert_eq!(rt; table.length(), k.saturating_add(m));
    assert_eq!(rt; table.message_length(), k);
    assert_eq!(rt; table.distance(), d);
    assert_eq!(rt; table.working_cells(), table.length());
}

#[test]
fn tables(rt: HostRuntime) {
    let ones = [1; 128];
    is_table::<Digits>(&rt, 4, 1, &[1, 1, 1, 1], 2);
    no_table::<Digits>(&rt, 5, 1, &[1, 1, 1, 1, 1], Reason::Unset.at(0));
    is_table::<Sixteen>(&rt, 1, 16, &ones[0..16], 17);
    no_table::<Sixteen>(&rt, 5, 1, &ones[0..5], Reason::Unset.at(0));
    is_table::<Bits>(&rt, 8, 16, &ones, 2);
    no_table::<Bits>(&rt, 9, 1, &ones[0..9], Reason::Unset.at(0));
    no_table::<Bits>(&rt, 0, 1, &[], Reason::Unset.at(0));
    no_table::<Bits>(&rt, 1, 0, &[], Reason::Unset.at(0));
    no_table::<Bits>(&rt, 1, 17, &ones[0..17], Reason::Unset.at(0));
    no_table::<Bits>(&rt, 9, 17, &[2], Reason::Unset.at(0));
    no_table::<Bits>(&rt, 2, 2, &[1, 1, 1], Reason::Misfit.at(0));
    no_table::<Bits>(&rt, 2, 2, &[2, 1, 1, 1, 1], Reason::Misfit.at(0));
    no_table::<Bits>(&rt, 2, 2, &[2, 1, 1, 2], Reason::Smudge.at(0));
    no_table::<Bits>(&rt, 2, 2, &[1, 1, 1, BLANK], Reason::Smudge.at(3));
}

#[test]
fn table_sizes_and_cells(rt: HostRuntime) -> Result<(), Fail> {
    let mut table = Table::<Digits>::EMPTY;
    is_trivial(&Trial::new(&rt, rt.alloc(), table))?;
    table.fill(2, 2, &[1, 2, 3, 4])?;
    let code = Trial::new(&rt, rt.alloc(), table);
    code.has_numbers([4, 2, 2, 4]);
    refuses_sizes(&code)?;
    code.read_fails(&[0, 0, 0, 400], (4, 3), Reason::Cramped.at(0))?;
    code.lawful_fails(&[0, 0, 0, 400], 3, Reason::Cramped.at(0))?;
    code.encode_fails(&[400, 0], (4, 3), Reason::Cramped.at(0))?;
    refuses_cells(&code, 2, 4)?;
    code.encode_fails(&[9, 10], (4, 4), Reason::Smudge.at(1))?;
    code.has_places(&[(1, Some(1)), (2, None)]);
    code.encodes_as(&[1, 1], &[1, 1, 4, 6])?;
    code.is_lawful(&[1, 1, 4, 7], false)
}
