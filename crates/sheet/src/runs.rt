// Runs: whole lists of calls on one sheet, each read judging the marks that stand when its turn comes.
ghost use Rattle.std.specs.Prelude.{◌≡◌, length, OnOk};
ghost use Rattle.sheet.specs.Marks.{Marked, OneRowStands};
ghost use Rattle.code.specs.Refusals.{then};
ghost use Rattle.sheet.specs.Runs.{opening, Goes, noting, runs, works};
ghost use Rattle.sheet.specs.Sheets.{symbols, places, all_cells, marks, Same, Becomes};

use crate::calls::{Call, Outcome, Step};
use crate::faults::Fault;
use crate::marks::Sheet;
use code::{Code, Reason};

fn check_outcomes<C>(steps: &[Step<'_, C>], outcomes: &[Outcome]) -> Result<(), Fault>
    ensures is { result ≡ noting (length steps.now) (length outcomes.now) }
    ensures passed { OnOk result (length outcomes.now ≡ length steps.now) }
{
    if outcomes.len() != steps.len() {
        return Err(Fault::Sheet(Reason::WrongTray.at(0)));
    }
    Ok(())
}

impl Sheet<'_> {
    // Makes one call, and says how it went. The code is the one that a read is by.
    pub fn call<C: Code>(
        &mut self,
        call: Call,
        code: &C,
        answer: &mut [u16],
        work: &mut [u16],
    ) -> Outcome
        ensures goes { Goes (C.Code.codebook code.now) (symbols self.old) (places self.old) (marks self.old) call result answer.old answer.new work.old work.new }
        ensures becomes { Becomes call self.old self.new }
        ensures history { Marked (symbols self.old) (places self.old) call (marks self.old) (marks self.new) }
    {
        match call {
            Call::Put { place, symbol } => self.put(place, symbol).map(|()| None),
            Call::Blot { place } => self.blot(place).map(|()| None),
            Call::Wipe => {
                self.wipe();
                Ok(None)
            }
            Call::Read => self.read(code, answer, work).map(Some),
        }
    }

    // Makes the calls in their order, and notes how each went. The answer and working cells are lent to one read after the other.
    pub fn run<C: Code>(
        &mut self,
        steps: &[Step<'_, C>],
        outcomes: &mut [Outcome],
        answer: &mut [u16],
        work: &mut [u16],
    ) -> Result<(), Fault>
        ensures is { result ≡ noting (length steps.now) (length outcomes.old) }
        ensures ran { runs result C.Code.codebook (symbols self.old) (places self.old) steps.now (all_cells self.old) (all_cells self.new) outcomes.old outcomes.new answer.old answer.new work.old work.new }
        ensures same { Same self.old self.new }
    {
        check_outcomes(steps, outcomes)?;
        for (i, step) in steps.iter().enumerate() {
            outcomes[i] = self.call(step.call, step.code, answer, work);
        }
        Ok(())
    }
}

// The whole of a sheet's work: it is opened over the cells for one code, and the calls are made in their order, each read by the code given with it.
pub fn work_sheet<O: Code, C: Code>(
    opened_for: &O,
    cells: &mut [u16],
    steps: &[Step<'_, C>],
    outcomes: &mut [Outcome],
    answer: &mut [u16],
    work: &mut [u16],
) -> Result<(), Fault>
    ensures is { result ≡ then (opening (O.Code.codebook opened_for.now).n (O.Code.codebook opened_for.now).working (length cells.old)) (noting (length steps.now) (length outcomes.old)) }
    ensures worked { works result C.Code.codebook (O.Code.codebook opened_for.now).q (O.Code.codebook opened_for.now).n steps.now cells.old cells.new outcomes.old outcomes.new answer.old answer.new work.old work.new }
    ensures pinned { OneRowStands }
{
    Sheet::check_open(opened_for, cells)?;
    check_outcomes(steps, outcomes)?;
    let mut sheet = Sheet::open(opened_for, cells);
    sheet.run(steps, outcomes, answer, work)
}
