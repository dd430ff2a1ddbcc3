// Sheets: every refusal of every call with its place, what stands afterwards, and reads by other codes.
use alphabet::{Bits, Digits};
use code::{BLANK, Code, Counts, Reason};
use product::Product;
use repetition::Repetition;
use sheet::{Call, Fault, Sheet, Step, work_sheet};
use std::process::Abort;
use std::test::Fail;
use sum::Sum;

#[test]
fn faults(rt: HostRuntime) {
    let refusal = Reason::Smudge.at(7);
    for (fault, layer) in [
        (Fault::Code(refusal), "code"),
        (Fault::Sheet(refusal), "sheet"),
    ] {
        assert_eq!(rt; fault.layer(), layer);
        assert_eq!(rt; fault.refusal(), refusal);
    }
}

#[test]
fn puts_and_blots(rt: HostRuntime) -> Result<(), Fail> {
    let code = Sum::<Digits>::new(3)?;
    let mut cells = [777; 3];
    Sheet::check_open(&code, &cells)?;
    let mut sheet = Sheet::open(&code, &mut cells);
    assert_eq!(rt; sheet.marks(), [BLANK, BLANK, BLANK].as_slice());
    sheet.put(0, 0)?;
    sheet.put(2, 9)?;
    for (place, symbol, reason) in [
        (3, 0, Reason::OffSheet),
        (3, 10, Reason::OffSheet),
        (usize::MAX, 0, Reason::OffSheet),
        (2, 10, Reason::Smudge),
        (0, BLANK, Reason::Smudge),
    ] {
        let fault = Fault::Sheet(reason.at(place));
        assert_eq!(rt; sheet.put(place, symbol), Err(fault));
    }
    assert_eq!(rt; sheet.blot(3), Err(Fault::Sheet(Reason::OffSheet.at(3))));
    assert_eq!(rt; sheet.marks(), [0, BLANK, 9].as_slice());
    sheet.put(2, 4)?;
    sheet.blot(0)?;
    sheet.blot(1)?;
    assert_eq!(rt; sheet.marks(), [BLANK, BLANK, 4].as_slice());
    sheet.wipe();
    assert_eq!(rt; sheet.marks(), [BLANK, BLANK, BLANK].as_slice());
    Ok(())
}

// A sheet that cannot be opened has no places.
fn open_fails<C: Code>(rt: &impl Abort, code: &C, cells: &mut [u16], reason: Reason) {
    let fault = Fault::Sheet(reason.at(0));
    assert_eq!(rt; Sheet::check_open(code, cells), Err(fault));
    let mut sheet = Sheet::open(code, cells);
    assert_eq!(rt; sheet.marks(), [].as_slice());
    let fault = Fault::Sheet(Reason::OffSheet.at(0));
    assert_eq!(rt; sheet.put(0, 1), Err(fault));
    assert_eq!(rt; sheet.blot(0), Err(fault));
    sheet.wipe();
}

#[test]
fn refused_openings(rt: HostRuntime) -> Result<(), Fail> {
    let long = Repetition::<Bits>::new(64)?;
    let two = Repetition::new(2)?;
    let mut cells = [777; 3];
    open_fails(&rt, &two, &mut cells, Reason::Misfit);
    let oversize = Product::new(Product::new(long, long), two);
    open_fails(&rt, &oversize, &mut cells, Reason::Oversize);
    assert_eq!(rt; cells, [777; 3]);
    Ok(())
}

#[test]
fn other_codes(rt: HostRuntime) -> Result<(), Fail> {
    let code = Sum::<Digits>::new(4)?;
    let same = Repetition::<Digits>::new(4)?;
    let longer = Repetition::<Digits>::new(5)?;
    let mut cells = [0; 4];
    let mut answer = [777; 4];
    let mut sheet = Sheet::open(&code, &mut cells);
    sheet.put(0, 4)?;
    sheet.put(3, 4)?;
    let counts = Counts { wrong: 0, blank: 2 };
    assert_eq!(rt; sheet.read(&same, &mut answer, &mut []), Ok(counts));
    assert_eq!(rt; answer, [4; 4]);
    let misfit = Fault::Code(Reason::Misfit.at(0));
    assert_eq!(rt; sheet.read(&longer, &mut answer, &mut []), Err(misfit));
    let lost = Fault::Code(Reason::Lost.at(0));
    assert_eq!(rt; sheet.read(&code, &mut answer, &mut []), Err(lost));
    assert_eq!(rt; answer, [4; 4]);
    Ok(())
}

#[test]
fn whole_runs(rt: HostRuntime) -> Result<(), Fail> {
    let code = Sum::<Digits>::new(2)?;
    let other = Repetition::<Digits>::new(2)?;
    let steps = [
        Call::Put {
            place: 1,
            symbol: 3,
        },
        Call::Put {
            place: 2,
            symbol: 3,
        },
        Call::Read,
    ]
    .map(|call| Step { call, code: &other });
    let mut cells = [777; 2];
    let mut answer = [777; 2];
    let mut outcomes = [Ok(None); 3];
    let run = work_sheet(
        &code,
        &mut cells,
        &steps,
        &mut outcomes[0..2],
        &mut answer,
        &mut [],
    );
    assert_eq!(rt; run, Err(Fault::Sheet(Reason::WrongTray.at(0))));
    assert_eq!(rt; cells, [777; 2]);
    work_sheet(
        &code,
        &mut cells,
        &steps,
        &mut outcomes,
        &mut answer,
        &mut [],
    )?;
    let off_sheet = Fault::Sheet(Reason::OffSheet.at(2));
    let counts = Counts { wrong: 0, blank: 1 };
    assert_eq!(rt; outcomes, [Ok(None), Err(off_sheet), Ok(Some(counts))]);
    assert_eq!(rt; cells, [BLANK, 3]);
    assert_eq!(rt; answer, [3, 3]);
    Ok(())
}
