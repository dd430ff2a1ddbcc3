// Plates drawn as grids, and verdicts put into words.
ghost use Rattle.std.specs.Prelude.{◌<◌};

use code::{BLANK, Counts, Refusal};
use forecast::Forecast;
use std::{fmt, io};

// Cells in a row, with a mark before each that is not what was printed.
#[derive(Clone, Copy)]
struct Row<'c> {
    cells: &'c [u16],
    printed: &'c [u16],
}

impl fmt::Display for Row<'_> {
    fn fmt<W: fmt::Write>(&self, f: &mut fmt::Formatter<W>) -> fmt::Result {
        for (cell, printed) in self.cells.iter().zip(self.printed) {
            if *cell == BLANK {
                write!(f, "   _")?;
            } else if cell == printed {
                write!(f, "{cell:>4}")?;
            } else if *cell < 10 {
                write!(f, "  !{cell}")?;
            } else {
                write!(f, " !{cell}")?;
            }
        }
        Ok(())
    }
}

fn print_row(rt: &HostRuntime, label: &str, row: Row<'_>) -> io::Result<()> {
    println!(rt; "  {label:<9}{row}")
}

// Cells in one row beside their label.
pub(crate) fn show_row(rt: &HostRuntime, label: &str, cells: &[u16]) -> io::Result<()> {
    let printed = cells;
    print_row(rt, label, Row { cells, printed })
}

// Cells in rows of the given width, with a mark at each that differs from what was printed.
pub(crate) fn show_plate(
    rt: &HostRuntime,
    label: &str,
    cells: &[u16],
    printed: &[u16],
    width: usize,
) -> io::Result<()>
    requires { 0 < width }
{
    let rows = cells.chunks(width).zip(printed.chunks(width));
    for (i, (cells, printed)) in rows.enumerate() {
        let label = if i == 0 { label } else { "" };
        print_row(rt, label, Row { cells, printed })?;
    }
    Ok(())
}

pub(crate) fn show_forecast(
    rt: &HostRuntime,
    counts: Counts,
    d: usize,
    forecast: Forecast,
) -> io::Result<()> {
    let Counts { wrong, blank } = counts;
    let cost = counts.cost();
    let meaning = match forecast {
        Forecast::Returns => "it must come back",
        Forecast::GetsLost => "it must be lost",
        Forecast::Uncertain => "nothing is certain",
    };
    println!(rt; "  {wrong} wrong and {blank} blank cost {cost}, and d is {d}: {meaning}")
}

pub(crate) fn show_counts(rt: &HostRuntime, counts: Counts) -> io::Result<()> {
    println!(rt; "  with {} wrong and {} blank", counts.wrong, counts.blank)
}

pub(crate) fn show_refusal(rt: &HostRuntime, refusal: Refusal) -> io::Result<()> {
    println!(rt;
        "  refused: {} {}",
        refusal.reason.number(),
        refusal.reason.word()
    )
}
