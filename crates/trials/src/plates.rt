// Plates: products of codes on worked examples, and at the edges of their sizes.
use crate::calls::Trial;
use crate::worked::seven_four;
use alphabet::{Bits, Digits, Sixteen};
use code::{BLANK, Code, Counts, Reason, Refusal};
use product::{Product, both_ways};
use repetition::Repetition;
use std::test::Fail;
use sum::Sum;

fn fare_code() -> Result<Product<Repetition<Digits>, Sum<Digits>>, Refusal> {
    Ok(Product::new(Repetition::new(3)?, Sum::new(4)?))
}

const FARE: [u16; 12] = [1, 2, 3, 4, 1, 2, 3, 4, 1, 2, 3, 4];

#[test]
fn digit_plates(rt: HostRuntime) -> Result<(), Fail> {
    let code = Trial::new(&rt, rt.alloc(), fare_code()?);
    code.has_numbers([12, 3, 6, 24]);
    code.encodes_as(&[1, 2, 3], &FARE)?;
    let spoiled = [9, 2, 3, 4, 9, 2, BLANK, 4, 1, 2, 3, 4];
    code.reads_as(&spoiled, &FARE, Counts { wrong: 2, blank: 1 })?;
    let lost = [9, 2, 3, 4, 8, 2, 3, 4, 7, 2, 3, 4];
    code.read_fails(&lost, (12, 24), Reason::Lost.at(0))?;
    code.is_lawful(&[1, 2, 3, 4, 1, 2, 3, 4, 1, 2, 4, 3], false)?;
    code.is_lawful(&[1, 2, 3, 5, 1, 2, 3, 5, 1, 2, 3, 5], false)
}

#[test]
fn plate_places(rt: HostRuntime) -> Result<(), Fail> {
    let code = Product::new(Sum::<Digits>::new(3)?, Sum::new(5)?);
    assert_eq!(rt; code.message_length(), 8);
    Trial::new(&rt, rt.alloc(), code).has_places(&[
        (0, Some(0)),
        (3, Some(3)),
        (4, Some(5)),
        (7, Some(8)),
        (8, None),
        (usize::MAX, None),
    ]);
    Ok(())
}

#[test]
fn plate_sizes_and_cells(rt: HostRuntime) -> Result<(), Fail> {
    let code = Trial::new(&rt, rt.alloc(), fare_code()?);
    code.read_fails(&FARE[0..11], (11, 23), Reason::Misfit.at(0))?;
    code.read_fails(&FARE, (13, 23), Reason::WrongTray.at(0))?;
    code.read_fails(&FARE, (12, 23), Reason::Cramped.at(0))?;
    let smudged = [1, 2, 3, 4, 1, 2, BLANK, 4, 1, 2, 3, 10];
    code.read_fails(&smudged, (12, 24), Reason::Smudge.at(11))?;
    code.lawful_fails(&smudged, 23, Reason::Cramped.at(0))?;
    code.lawful_fails(&smudged, 30, Reason::Smudge.at(6))?;
    code.encode_fails(&[1, 2], (12, 24), Reason::Misfit.at(0))?;
    code.encode_fails(&[1, 2, 10], (12, 25), Reason::Smudge.at(2))?;
    code.take_out_fails(&FARE, 4, Reason::WrongTray.at(0))?;
    code.take_out_fails(&smudged, 3, Reason::Smudge.at(6))
}

// Two wrong cells in each of two columns: the columns are read wrongly, and correcting columns and then rows would leave nine wrong cells.
#[test]
fn four_errors_in_a_square(rt: HostRuntime) -> Result<(), Fail> {
    let table = seven_four()?;
    let code = Trial::new(&rt, rt.alloc(), Product::new(table, table));
    code.has_numbers([49, 16, 9, 77]);
    let mut spoiled = [0; 49];
    for place in [8, 9, 15, 16] {
        spoiled[place] = 1;
    }
    code.reads_as(&spoiled, &[0; 49], Counts { wrong: 4, blank: 0 })?;
    spoiled[48] = BLANK;
    code.read_fails(&spoiled, (49, 77), Reason::Lost.at(0))
}

#[test]
fn large_plates(rt: HostRuntime) -> Result<(), Fail> {
    let row = Repetition::<Bits>::new(64)?;
    let square = Product::new(row, row);
    let large = Trial::new(&rt, rt.alloc(), square);
    large.has_numbers([4096, 1, 4096, 4288]);
    let mut spoiled = [1; 4096];
    spoiled[0] = 0;
    spoiled[4095] = BLANK;
    large.reads_as(&spoiled, &[1; 4096], Counts { wrong: 1, blank: 1 })?;
    let oversize = Product::new(square, Repetition::new(2)?);
    let oversize = Trial::new(&rt, rt.alloc(), oversize);
    oversize.has_numbers([4097, 1, 4097, 16385]);
    oversize.has_places(&[(0, None)]);
    oversize.read_fails(&[1], (3, 0), Reason::Oversize.at(0))?;
    oversize.lawful_fails(&[1], 0, Reason::Oversize.at(0))?;
    oversize.encode_fails(&[1, 1], (3, 0), Reason::Oversize.at(0))?;
    oversize.take_out_fails(&[1], 7, Reason::Oversize.at(0))
}

#[test]
fn both_bracketings(rt: HostRuntime) -> Result<(), Fail> {
    let (two, three) = (Repetition::<Sixteen>::new(2)?, Sum::new(3)?);
    let first = Product::new(Product::new(two, three), two);
    let last = Product::new(two, Product::new(three, two));
    let left = Trial::new(&rt, rt.alloc(), first);
    let right = Trial::new(&rt, rt.alloc(), last);
    left.has_numbers([12, 2, 8, 41]);
    right.has_numbers([12, 2, 8, 44]);
    let word = [9, 9, 13, 13, 4, 4, 9, 9, 13, 13, 4, 4];
    left.encodes_as(&[9, 13], &word)?;
    right.encodes_as(&[9, 13], &word)?;
    let spoiled = [1, 9, BLANK, 13, 4, 4, 9, 15, 13, 13, 4, BLANK];
    let counts = Counts { wrong: 2, blank: 2 };
    left.reads_as(&spoiled, &word, counts)?;
    right.reads_as(&spoiled, &word, counts)?;
    right.read_fails(&spoiled, (12, 42), Reason::Cramped.at(0))?;
    let (mut one, mut two) = ([0; 12], [0; 12]);
    let (mut work, mut spare) = ([7; 42], [7; 44]);
    let verdicts = both_ways(
        &first, &last, &spoiled, &mut one, &mut two, &mut work, &mut spare,
    );
    assert_eq!(rt; verdicts, (Ok(counts), Ok(counts)));
    assert_eq!(rt; (one, two), (word, word));
    let mut kept = [0; 42];
    kept[41] = 7;
    assert_eq!(rt; work, kept);
    assert_eq!(rt; spare, [0; 44]);
    Ok(())
}
