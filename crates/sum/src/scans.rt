// One pass over cells: what the symbols add up to, and where the one blank stands.
ghost use Rattle.std.specs.Prelude.{◌≡◌, ℕ, ◌<◌, ◌≤◌, true, length, slice_index, Some, None};
ghost use Rattle.alphabet.specs.Sums.{added};
ghost use Rattle.code.specs.Cells.{Holds, blanks};
ghost use Rattle.code.specs.declared.cells.Content.TheVariants.{Word, Received};
ghost use Rattle.sum.specs.Scans.{Scanned, tally};

use alphabet::Alphabet;
use code::BLANK;

// The sum of the symbols that could be read, and the place of the blank if there is one.
#[derive(Clone, Copy, PartialEq, Eq, Debug)]
pub(crate) struct Scan {
    pub total: u16,
    pub hole: Option<usize>,
}

// None where two cells are blank.
pub(crate) fn scan_cells<S: Alphabet>(received: &[u16]) -> Option<Scan>
    requires { Holds Received S.Alphabet.Q received.now }
    ensures { elim result [ Some s ↦ Scanned S.Alphabet.plus received.now (length received.now) (tally s) | None ↦ 2 ≤ blanks received.now ] }
{
    let mut scan = Scan {
        total: 0,
        hole: None,
    };
    for (i, cell) in received.iter().enumerate() {
        if *cell != BLANK {
            scan.total = S::add(scan.total, *cell);
        } else if scan.hole.is_some() {
            return None;
        } else {
            scan.hole = Some(i);
        }
    }
    Some(scan)
}

pub(crate) fn add_symbols<S: Alphabet>(cells: &[u16]) -> u16
    requires { Holds Word S.Alphabet.Q cells.now }
    ensures { result ≡ added S.Alphabet.plus (length cells.now) (λ i. slice_index cells.now i) }
{
    let mut total = 0;
    for cell in cells {
        total = S::add(total, *cell);
    }
    total
}
