// The course: messages are printed as rows and plates, spoiled and read again, and each step is shown.
#![tactic(auto)]

use alphabet::{Bits, Digits, Sixteen};
use faults::Fault;
use lesson::{Lesson, blank, exercise_both_ways, wrong};
use product::Product;
use repetition::Repetition;
use sum::Sum;
use table::Table;

mod drawing;
mod faults;
mod lesson;

fn repetition_rows(rt: &HostRuntime) -> Result<(), Fault> {
    let five = Lesson {
        rt,
        title: "Repetition 5 over Digits",
        code: &Repetition::<Digits>::new(5)?,
        width: 5,
    };
    five.exercise(&[4], &[wrong(1, 7), blank(3)])?;
    let three = Lesson {
        rt,
        title: "Repetition 3 over Digits",
        code: &Repetition::<Digits>::new(3)?,
        width: 3,
    };
    three.exercise(&[4], &[wrong(1, 7), blank(2)])
}

fn sum_rows(rt: &HostRuntime) -> Result<(), Fault> {
    let five = Lesson {
        rt,
        title: "Sum 5 over Digits",
        code: &Sum::<Digits>::new(5)?,
        width: 5,
    };
    five.exercise(&[1, 2, 3, 4], &[blank(2)])?;
    five.exercise(&[1, 2, 3, 4], &[wrong(4, 1)])?;
    let four = Lesson {
        rt,
        title: "Sum 4 over Sixteen",
        code: &Sum::<Sixteen>::new(4)?,
        width: 4,
    };
    four.exercise(&[9, 13, 7], &[blank(0)])
}

// The binary code of length 7 that carries 4 symbols.
fn seven_four() -> Result<Table<Bits>, Fault> {
    let mut table = Table::EMPTY;
    table.fill(4, 3, &[1, 0, 1, 1, 1, 1, 1, 1, 0, 0, 1, 1])?;
    Ok(table)
}

fn table_rows(rt: &HostRuntime) -> Result<(), Fault> {
    let table = Lesson {
        rt,
        title: "Table over Bits, rows 101, 111, 110, 011",
        code: &seven_four()?,
        width: 7,
    };
    table.exercise(&[1, 0, 1, 1], &[blank(0), blank(1)])?;
    table.exercise(&[1, 0, 1, 1], &[blank(0), wrong(6, 1)])
}

fn digit_plates(rt: &HostRuntime) -> Result<(), Fault> {
    let fare = Lesson {
        rt,
        title: "Columns repetition 3, rows sum 4, over Digits",
        code: &Product::new(Repetition::<Digits>::new(3)?, Sum::new(4)?),
        width: 4,
    };
    fare.exercise(&[1, 2, 3], &[wrong(0, 9), wrong(4, 9), blank(6)])?;
    fare.exercise(&[1, 2, 3], &[wrong(0, 9), wrong(4, 8), wrong(8, 7)])
}

fn bit_plates(rt: &HostRuntime) -> Result<(), Fault> {
    let trip = Lesson {
        rt,
        title: "Columns of the table, rows sum 4, over Bits",
        code: &Product::new(seven_four()?, Sum::new(4)?),
        width: 4,
    };
    let message = [1, 0, 1, 0, 0, 1, 1, 1, 0, 1, 1, 1];
    let spoils = [wrong(5, 1), wrong(6, 0), blank(16), blank(17)];
    trip.exercise(&message, &spoils[0..3])?;
    trip.exercise(&message, &spoils)
}

fn plates_of_plates(rt: &HostRuntime) -> Result<(), Fault> {
    let (two, three) = (Repetition::<Sixteen>::new(2)?, Sum::new(3)?);
    let title = "Repetition 2, sum 3 and repetition 2 over Sixteen";
    let left = Lesson {
        rt,
        title,
        code: &Product::new(Product::new(two, three), two),
        width: 2,
    };
    let right = Lesson {
        rt,
        title,
        code: &Product::new(two, Product::new(three, two)),
        width: 2,
    };
    let spoils = [wrong(0, 1), wrong(7, 15), blank(2), blank(11), wrong(5, 0)];
    exercise_both_ways(&left, &right, &[9, 13], &spoils[0..4])?;
    exercise_both_ways(&left, &right, &[9, 13], &spoils)
}

fn main(rt: HostRuntime) -> Result<(), Fault> {
    println!(rt; "Exercise one: a spoiled row comes back, or is lost.")?;
    println!(rt; "")?;
    repetition_rows(&rt)?;
    sum_rows(&rt)?;
    table_rows(&rt)?;
    println!(rt; "The same with plates.")?;
    println!(rt; "")?;
    digit_plates(&rt)?;
    bit_plates(&rt)?;
    println!(rt; "Exercise two: plates built of plates, in both bracketings.")?;
    println!(rt; "")?;
    plates_of_plates(&rt)
}
