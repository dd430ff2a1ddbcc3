// Refusals: the nine reasons for which a call is refused, and the checks of sizes with which the calls begin.
ghost use Rattle.std.specs.Prelude.{◌≡◌, ◌≤◌, length, OnOk};
ghost use Rattle.code.specs.Refusals.{number, word, refusal, sized, read_sizing, judge_sizing, encode_sizing, take_sizing};

// The longest code whose calls are answered, and the most working cells that one may ask for.
pub const MAX_LENGTH: usize = 4096;

pub const MAX_WORKING: usize = 16384;

#[derive(Clone, Copy, PartialEq, Eq, PartialOrd, Ord, Debug)]
pub enum Reason {
    // the code is longer than 4,096 or asks for more than 16,384 working cells
    Oversize = 1,
    // input cells, message or table not of the stated length
    Misfit = 2,
    // answer cells not of the stated length
    WrongTray = 3,
    // fewer working cells than the code asks for
    Cramped = 4,
    // a cell that is no symbol, nor a blank where blanks are taken
    Smudge = 5,
    // no word costs less than the distance
    Lost = 6,
    // a place at or beyond the sheet's length
    OffSheet = 7,
    // numbers outside a maker's limits
    Unset = 8,
    // a job line that cannot be read
    Garbled = 9,
}

impl Reason {
    pub fn number(self) -> u8
        ensures { result ≡ number self }
    {
        self as u8
    }

    pub fn word(self) -> &'static str
        ensures { result.now ≡ word self }
    {
        match self {
            Reason::Oversize => "Oversize",
            Reason::Misfit => "Misfit",
            Reason::WrongTray => "Wrong tray",
            Reason::Cramped => "Cramped",
            Reason::Smudge => "Smudge",
            Reason::Lost => "Lost",
            Reason::OffSheet => "Off sheet",
            Reason::Unset => "Unset",
            Reason::Garbled => "Garbled",
        }
    }

    pub fn at(self, place: usize) -> Refusal
        ensures { result ≡ refusal self place }
    {
        Refusal {
            reason: self,
            place,
        }
    }
}

// Why a call was refused, and where: the index of the first smudge, the place given to a sheet, the field of a garbled line, and else 0.
#[derive(Clone, Copy, PartialEq, Eq, Debug)]
pub struct Refusal {
    pub reason: Reason,
    pub place: usize,
}

// How many input, answer and working cells a call is lent, or asks for.
#[derive(Clone, Copy, PartialEq, Eq, Debug)]
struct Sizes {
    input: usize,
    answer: usize,
    working: usize,
}

// The first of the refusals 1 to 4 that applies to a call of a code of length n with so many working cells.
fn check_sizes(n: usize, working: usize, lent: Sizes, asked: Sizes) -> Result<(), Refusal>
    ensures is { result ≡ sized n working lent asked }
    ensures passed { OnOk result ((lent.input ≡ asked.input) × (lent.answer ≡ asked.answer) × (asked.working ≤ lent.working)) }
{
    if n > MAX_LENGTH || working > MAX_WORKING {
        return Err(Reason::Oversize.at(0));
    }
    if lent.input != asked.input {
        return Err(Reason::Misfit.at(0));
    }
    if lent.answer != asked.answer {
        return Err(Reason::WrongTray.at(0));
    }
    if lent.working < asked.working {
        return Err(Reason::Cramped.at(0));
    }
    Ok(())
}

// The sizes of a read.
pub fn check_read(
    n: usize,
    working: usize,
    received: &[u16],
    answer: &[u16],
    work: &[u16],
) -> Result<(), Refusal>
    ensures is { result ≡ read_sizing n working received.now answer.now work.now }
    ensures passed { OnOk result ((length received.now ≡ n) × (length answer.now ≡ n) × (working ≤ length work.now)) }
{
    let lent = Sizes {
        input: received.len(),
        answer: answer.len(),
        working: work.len(),
    };
    let asked = Sizes {
        input: n,
        answer: n,
        working,
    };
    check_sizes(n, working, lent, asked)
}

// The sizes of a lawful.
pub fn check_lawful(n: usize, working: usize, cells: &[u16], work: &[u16]) -> Result<(), Refusal>
    ensures is { result ≡ judge_sizing n working cells.now work.now }
    ensures passed { OnOk result ((length cells.now ≡ n) × (working ≤ length work.now)) }
{
    let lent = Sizes {
        input: cells.len(),
        answer: 0,
        working: work.len(),
    };
    let asked = Sizes {
        input: n,
        answer: 0,
        working,
    };
    check_sizes(n, working, lent, asked)
}

// The sizes of an encode, of a code that carries k symbols.
pub fn check_encode(
    n: usize,
    k: usize,
    working: usize,
    message: &[u16],
    answer: &[u16],
    work: &[u16],
) -> Result<(), Refusal>
    ensures is { result ≡ encode_sizing n k working message.now answer.now work.now }
    ensures passed { OnOk result ((length message.now ≡ k) × (length answer.now ≡ n) × (working ≤ length work.now)) }
{
    let lent = Sizes {
        input: message.len(),
        answer: answer.len(),
        working: work.len(),
    };
    let asked = Sizes {
        input: k,
        answer: n,
        working,
    };
    check_sizes(n, working, lent, asked)
}

// The sizes of a take-out, which needs no working cells; that the code itself asks for too many is refused all the same.
pub fn check_take_out(
    n: usize,
    k: usize,
    working: usize,
    word: &[u16],
    answer: &[u16],
) -> Result<(), Refusal>
    ensures is { result ≡ take_sizing n k working word.now answer.now }
    ensures passed { OnOk result ((length word.now ≡ n) × (length answer.now ≡ k)) }
{
    let lent = Sizes {
        input: word.len(),
        answer: answer.len(),
        working: 0,
    };
    let asked = Sizes {
        input: n,
        answer: k,
        working: 0,
    };
    check_sizes(n, working, lent, asked)
}
