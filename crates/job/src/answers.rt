// Answers: what a line prints.
ghost use Rattle.std.specs.Prelude.{◌≡◌, ◌++◌, string_bytes, OnOk};
ghost use Rattle.std.specs.List.{flat_map};
ghost use Rattle.job.specs.Answers.{tabbed, printed};

use crate::faults::Fault;
use code::{Counts, Refusal};
use std::alloc::AllocError;
use std::fmt::Write;

// Nothing after an accepted put, blot or wipe, and the counts after an accepted read.
pub type Outcome = Result<Option<Counts>, Fault>;

// Writes the symbols, each after a tab.
fn print_symbols(out: &mut String, message: &[u16]) -> Result<(), AllocError>
    ensures { OnOk result (string_bytes out.new ≡ string_bytes out.old ++ flat_map tabbed message.now) }
{
    for symbol in message {
        write!(out, "\t{symbol}")?;
    }
    Ok(())
}

// Writes what line `number` prints, given how it went and the message that was read. A line that prints nothing needs no memory, so it can't fail.
pub(crate) fn print_answer(
    out: &mut String,
    number: usize,
    outcome: Outcome,
    message: &[u16],
) -> Result<(), AllocError>
    ensures bytes { OnOk result (string_bytes out.new ≡ string_bytes out.old ++ printed number outcome message.now) }
    ensures quiet { outcome ≡ Ok None → result ≡ Ok tt }
{
    match outcome {
        Ok(None) => Ok(()),
        Ok(Some(Counts { wrong, blank })) => {
            write!(out, "WORD\t{wrong}\t{blank}")?;
            print_symbols(out, message)?;
            writeln!(out)
        }
        Err(fault) => {
            let layer = fault.layer();
            let Refusal { reason, place } = fault.refusal();
            let reason = reason.number();
            writeln!(out, "NO\t{number}\t{layer}\t{reason}\t{place}")
        }
    }
}

#[cfg(test)]
mod tests {
    use super::print_answer;
    use crate::faults::Fault;
    use code::{Counts, Reason};
    use std::test::Fail;

    #[test]
    fn prints_lines(rt: HostRuntime) -> Result<(), Fail> {
        let mut out = String::new(rt.alloc());
        let off_sheet = Fault::Sheet(sheet::Fault::Sheet(Reason::OffSheet.at(12)));
        let lost = Fault::Sheet(sheet::Fault::Code(Reason::Lost.at(0)));
        let read = Counts { wrong: 0, blank: 5 };
        print_answer(&mut out, 9, Err(off_sheet), &[])?;
        print_answer(&mut out, 10, Ok(Some(read)), &[1, 2, 3])?;
        print_answer(&mut out, 11, Ok(None), &[])?;
        print_answer(&mut out, 12, Err(Fault::Text(Reason::Garbled.at(3))), &[])?;
        print_answer(&mut out, 13, Err(lost), &[])?;
        let wanted =
            "NO\t9\tsheet\t7\t12\nWORD\t0\t5\t1\t2\t3\nNO\t12\ttext\t9\t3\nNO\t13\tcode\t6\t0\n";
        assert_eq!(rt; out.as_str(), wanted);
        Ok(())
    }
}
