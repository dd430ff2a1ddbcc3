// Calls of a code, each compared whole: the answer or the refusal, and what every lent cell holds afterwards.
use code::{Code, Counts, Reason, Refusal};
use std::alloc::Global;
use std::fmt::Debug;
use std::process::Abort;
use std::test::Fail;

// What answer and working cells hold before a call. It is no symbol of any alphabet.
const OLD: u16 = 777;

// Working cells beyond those that a code asks for, which every call leaves alone.
const SPARE: usize = 2;

// A code on trial, with what its calls need.
#[derive(Drop)]
pub(crate) struct Trial<'t, R, C> {
    rt: &'t R,
    heap: Global,
    code: C,
}

impl<'t, R: Abort, C: Code> Trial<'t, R, C> {
    pub(crate) fn new(rt: &'t R, heap: Global, code: C) -> Trial<'t, R, C> {
        Trial { rt, heap, code }
    }

    // n, k, d and the number of working cells
    pub(crate) fn has_numbers(&self, numbers: [usize; 4]) {
        let answered = [
            self.code.length(),
            self.code.message_length(),
            self.code.distance(),
            self.code.working_cells(),
        ];
        assert_eq!(self.rt; answered, numbers);
    }

    // Message symbols, each with its place.
    pub(crate) fn has_places(&self, places: &[(usize, Option<usize>)]) {
        for (i, place) in places {
            assert_eq!(self.rt; self.code.message_place(*i), *place, "symbol {i}");
        }
    }

    // Enough working cells for a call, and some to spare.
    fn desk(&self) -> usize {
        self.code.working_cells().saturating_add(SPARE)
    }

    // The working cells after a call that cleared so many: zero in front, and as they were behind.
    fn check_work(&self, work: &[u16], cleared: usize) {
        let (front, rest) = work.split_at(cleared.min(work.len()));
        assert!(self.rt; front.iter().all(|cell| *cell == 0));
        assert!(self.rt; rest.iter().all(|cell| *cell == OLD));
    }

    // A call that writes the word in the answer cells.
    fn accepts<
        T: PartialEq + Debug + Drop,
        F: FnOnce(&mut [u16], &mut [u16]) -> Result<T, Refusal>,
    >(&self, desk: usize, found: T, word: &[u16], call: F) -> Result<(), Fail>
        requires { F.IsAlwaysCallable call }
    {
        let mut answer = vec![in self.heap; OLD; word.len()]?;
        let mut work = vec![in self.heap; OLD; desk]?;
        assert_eq!(self.rt; call(&mut answer, &mut work), Ok(found));
        assert_eq!(self.rt; answer.as_slice(), word);
        self.check_work(&work, self.code.working_cells());
        Ok(())
    }

    // A call with so many answer and working cells, which is refused and leaves the answer cells as they were. One that is refused for a size leaves the working cells too.
    fn refuses<
        T: PartialEq + Debug + Drop,
        F: FnOnce(&mut [u16], &mut [u16]) -> Result<T, Refusal>,
    >(&self, lent: (usize, usize), refusal: Refusal, call: F) -> Result<(), Fail>
        requires { F.IsAlwaysCallable call }
    {
        let (tray, desk) = lent;
        let mut answer = vec![in self.heap; OLD; tray]?;
        let mut work = vec![in self.heap; OLD; desk]?;
        assert_eq!(self.rt; call(&mut answer, &mut work), Err(refusal));
        assert!(self.rt; answer.iter().all(|cell| *cell == OLD));
        let cleared = if refusal.reason <= Reason::Cramped {
            0
        } else {
            self.code.working_cells()
        };
        self.check_work(&work, cleared);
        Ok(())
    }

    pub(crate) fn reads_as(
        &self,
        received: &[u16],
        word: &[u16],
        counts: Counts,
    ) -> Result<(), Fail> {
        self.accepts(
            self.desk(),
            counts,
            word,
            |answer, work| self.code.read(received, answer, work),
        )
    }

    pub(crate) fn read_fails(
        &self,
        received: &[u16],
        lent: (usize, usize),
        refusal: Refusal,
    ) -> Result<(), Fail> {
        self.refuses(
            lent,
            refusal,
            |answer, work| self.code.read(received, answer, work),
        )
    }

    pub(crate) fn is_lawful(&self, cells: &[u16], lawful: bool) -> Result<(), Fail> {
        self.accepts(
            self.desk(),
            lawful,
            &[],
            |_, work| self.code.lawful(cells, work),
        )
    }

    pub(crate) fn lawful_fails(
        &self,
        cells: &[u16],
        desk: usize,
        refusal: Refusal,
    ) -> Result<(), Fail> {
        self.refuses((0, desk), refusal, |_, work| self.code.lawful(cells, work))
    }

    // A message is encoded as a word, which is lawful and gives the message back.
    pub(crate) fn encodes_as(&self, message: &[u16], word: &[u16]) -> Result<(), Fail> {
        self.accepts(
            self.desk(),
            (),
            word,
            |answer, work| self.code.encode(message, answer, work),
        )?;
        self.takes_out(word, message)?;
        self.is_lawful(word, true)
    }

    pub(crate) fn encode_fails(
        &self,
        message: &[u16],
        lent: (usize, usize),
        refusal: Refusal,
    ) -> Result<(), Fail> {
        self.refuses(
            lent,
            refusal,
            |answer, work| self.code.encode(message, answer, work),
        )
    }

    fn takes_out(&self, word: &[u16], message: &[u16]) -> Result<(), Fail> {
        self.accepts(0, (), message, |answer, _| self.code.take_out(word, answer))
    }

    pub(crate) fn take_out_fails(
        &self,
        word: &[u16],
        tray: usize,
        refusal: Refusal,
    ) -> Result<(), Fail> {
        self.refuses(
            (tray, 0),
            refusal,
            |answer, _| self.code.take_out(word, answer),
        )
    }
}
