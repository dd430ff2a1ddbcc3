// The sheet: a slice of lent cells on which symbols are put and blotted out, for the code that it was opened for.
ghost use Rattle.std.specs.Prelude.{◌≡◌, ◌<◌, ◌≤◌, length, OnOk};
ghost use Rattle.sheet.specs.declared.calls.Call.TheVariants.{Put, Blot, Wipe};
ghost use Rattle.sheet.specs.Runs.{opening, opened, putting, blotting, Passes};

use crate::faults::Fault;
use alphabet::Alphabet;
use code::{BLANK, Code, Counts, MAX_LENGTH, MAX_WORKING, Reason};

// The first n of the lent cells are the sheet's: all of them, or none where it could not be opened.
#[derive(Drop)]
pub struct Sheet<'a> {
    cells: &'a mut [u16],
    q: u16,
    n: usize,
    ghost within: { n ≤ length cells.now },
}

impl<'a> Sheet<'a> {
    ghost use Rattle.sheet.specs.Sheets.{symbols, places, lender, marks, Opened, Becomes};

    // Whether a sheet for the code may be opened over the cells.
    pub fn check_open<C: Code>(code: &C, cells: &[u16]) -> Result<(), Fault>
        ensures { result ≡ opening (C.Code.codebook code.now).n (C.Code.codebook code.now).working (length cells.now) }
    {
        let n = code.length();
        if n > MAX_LENGTH || code.working_cells() > MAX_WORKING {
            return Err(Fault::Sheet(Reason::Oversize.at(0)));
        }
        if cells.len() != n {
            return Err(Fault::Sheet(Reason::Misfit.at(0)));
        }
        Ok(())
    }

    // How many of the cells a sheet takes: all, or none where it may not be opened.
    fn taken<C: Code>(code: &C, cells: &[u16]) -> usize
        ensures is { result ≡ opened (C.Code.codebook code.now).n (C.Code.codebook code.now).working (length cells.now) }
        ensures within { result ≤ length cells.now }
    {
        Sheet::check_open(code, cells).map_or(0, |()| cells.len())
    }

    // A sheet with every cell blank, or one that takes no cells where it may not be opened.
    pub fn open<C: Code>(code: &C, cells: &'a mut [u16]) -> Sheet<'a>
        ensures is { Opened (C.Code.codebook code.now) cells.old result }
        ensures lender { lender result ≡ cells.entry.ghost_name }
    {
        let q = C::Symbols::Q;
        let n = Sheet::taken(code, cells);
        cells[..n].fill(BLANK);
        Sheet { cells, q, n }
    }

    fn check_place(&self, place: usize) -> Result<(), Fault>
        ensures is { result ≡ blotting (places self.now) place }
        ensures passed { OnOk result (place < places self.now) }
    {
        if place >= self.n {
            return Err(Fault::Sheet(Reason::OffSheet.at(place)));
        }
        Ok(())
    }

    pub fn put(&mut self, place: usize, symbol: u16) -> Result<(), Fault>
        ensures is { result ≡ putting (symbols self.old) (places self.old) place symbol }
        ensures becomes { Becomes (Put place symbol) self.old self.new }
    {
        self.check_place(place)?;
        if symbol >= self.q {
            return Err(Fault::Sheet(Reason::Smudge.at(place)));
        }
        self.cells[place] = symbol;
        Ok(())
    }

    pub fn blot(&mut self, place: usize) -> Result<(), Fault>
        ensures is { result ≡ blotting (places self.old) place }
        ensures becomes { Becomes (Blot place) self.old self.new }
    {
        self.check_place(place)?;
        self.cells[place] = BLANK;
        Ok(())
    }

    pub fn wipe(&mut self)
        ensures { Becomes Wipe self.old self.new }
    {
        self.cells[..self.n].fill(BLANK);
    }

    // What stands on the sheet.
    pub fn marks(&self) -> &[u16]
        ensures { result.now ≡ marks self.now }
    {
        &self.cells[..self.n]
    }

    // The read of the given code, which need not be the one that the sheet was opened for.
    pub fn read<C: Code>(
        &self,
        code: &C,
        answer: &mut [u16],
        work: &mut [u16],
    ) -> Result<Counts, Fault>
        ensures { Passes (C.Code.codebook code.now) (marks self.now) answer.old answer.new work.old work.new result }
    {
        Ok(code.read(self.marks(), answer, work)?)
    }
}
