// One exercise: a message is printed, spoiled, foretold and read.
ghost use Rattle.std.specs.Prelude.{◌<◌};

use crate::drawing::{show_counts, show_forecast, show_plate, show_refusal, show_row};
use crate::faults::Fault;
use code::{BLANK, Code, Counts, Refusal, count};
use forecast::foresee;
use product::{Product, both_ways};
use std::alloc::{AllocError, Global};

// A cell that is to hold something else than was printed.
#[derive(Clone, Copy, PartialEq, Eq, Debug)]
pub(crate) struct Spoil {
    place: usize,
    cell: u16,
}

pub(crate) fn wrong(place: usize, cell: u16) -> Spoil {
    Spoil { place, cell }
}

pub(crate) fn blank(place: usize) -> Spoil {
    Spoil { place, cell: BLANK }
}

// The received cells: what was printed, with some cells spoiled.
fn spoil_cells(heap: Global, printed: &[u16], spoils: &[Spoil]) -> Result<Vec<u16>, AllocError> {
    let mut cells = printed.to_vec(heap)?;
    for spoil in spoils {
        if let Some(cell) = cells.get_mut(spoil.place) {
            *cell = spoil.cell;
        }
    }
    Ok(cells)
}

// A code that is taught, and how wide its plates are drawn; a row is a plate of one line.
#[derive(Drop)]
pub(crate) struct Lesson<'l, C> {
    pub(crate) rt: &'l HostRuntime,
    pub(crate) title: &'l str,
    pub(crate) code: &'l C,
    pub(crate) width: usize,
    ghost wide: { 0 < width },
}

impl<C: Code> Lesson<'_, C> {
    fn encode(&self, message: &[u16]) -> Result<Vec<u16>, Fault> {
        let heap = self.rt.alloc();
        let mut work = vec![in heap; 0u16; self.code.working_cells()]?;
        let mut printed = vec![in heap; 0u16; self.code.length()]?;
        self.code.encode(message, &mut printed, &mut work)?;
        Ok(printed)
    }

    // Prints a message, spoils the plate, and says beforehand what must become of it. The cells are as they were received.
    fn send(&self, message: &[u16], spoils: &[Spoil]) -> Result<Vec<u16>, Fault> {
        show_row(self.rt, "message", message)?;
        let printed = self.encode(message)?;
        let received = spoil_cells(self.rt.alloc(), &printed, spoils)?;
        show_plate(self.rt, "printed", &printed, &printed, self.width)?;
        show_plate(self.rt, "received", &received, &printed, self.width)?;
        let counts = count(&received, &printed)?;
        let forecast = foresee(self.code, &printed, &received)?;
        show_forecast(self.rt, counts, self.code.distance(), forecast)?;
        Ok(received)
    }

    fn show_word(&self, word: &[u16], counts: Counts) -> Result<(), Fault> {
        let mut message = vec![in self.rt.alloc(); 0u16; self.code.message_length()]?;
        self.code.take_out(word, &mut message)?;
        show_plate(self.rt, "read as", word, word, self.width)?;
        show_counts(self.rt, counts)?;
        Ok(show_row(self.rt, "message", &message)?)
    }

    fn show_verdict(&self, word: &[u16], verdict: Result<Counts, Refusal>) -> Result<(), Fault> {
        match verdict {
            Ok(counts) => self.show_word(word, counts),
            Err(refusal) => Ok(show_refusal(self.rt, refusal)?),
        }
    }

    pub(crate) fn exercise(&self, message: &[u16], spoils: &[Spoil]) -> Result<(), Fault> {
        let (n, k, d) = (
            self.code.length(),
            self.code.message_length(),
            self.code.distance(),
        );
        println!(self.rt; "{}: n = {n}, k = {k}, d = {d}", self.title)?;
        let received = self.send(message, spoils)?;
        let heap = self.rt.alloc();
        let mut word = vec![in heap; 0u16; n]?;
        let mut work = vec![in heap; 0u16; self.code.working_cells()]?;
        let verdict = self.code.read(&received, &mut word, &mut work);
        self.show_verdict(&word, verdict)?;
        Ok(println!(self.rt; "")?)
    }
}

// An exercise with plates of three codes, read in both bracketings.
pub(crate) fn exercise_both_ways<
    A: Code,
    B: Code<Symbols = A::Symbols>,
    C: Code<Symbols = A::Symbols>,
>(
    left: &Lesson<'_, Product<Product<A, B>, C>>,
    right: &Lesson<'_, Product<A, Product<B, C>>>,
    message: &[u16],
    spoils: &[Spoil],
) -> Result<(), Fault> {
    let rt = left.rt;
    let (n, d) = (left.code.length(), left.code.distance());
    let (w, v) = (left.code.working_cells(), right.code.working_cells());
    println!(rt;
        "{}: n = {n}, d = {d}, working cells {w} and {v}",
        left.title
    )?;
    let received = left.send(message, spoils)?;
    let mut first = vec![in rt.alloc(); 0u16; n]?;
    let mut second = vec![in rt.alloc(); 0u16; n]?;
    let mut work = vec![in rt.alloc(); 0u16; w]?;
    let mut spare = vec![in rt.alloc(); 0u16; v]?;
    let (one, two) = both_ways(
        left.code,
        right.code,
        &received,
        &mut first,
        &mut second,
        &mut work,
        &mut spare,
    );
    println!(rt; "  the first two taken together:")?;
    left.show_verdict(&first, one)?;
    println!(rt; "  the last two taken together:")?;
    right.show_verdict(&second, two)?;
    Ok(println!(rt; "")?)
}
