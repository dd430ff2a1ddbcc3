// Faults of a job line: the text's own, or the fault of a lower layer carried whole.
ghost use Rattle.std.specs.Prelude.{◌≡◌};
ghost use Rattle.job.specs.declared.faults.Fault.TheVariants.{Text, Sheet};
ghost use Rattle.job.specs.Answers.{layer, refused};

use code::Refusal;

#[derive(Clone, Copy, PartialEq, Eq, Debug)]
pub enum Fault {
    // the line cannot be read
    Text(Refusal),
    // the sheet refused the call, or the code its read
    Sheet(sheet::Fault),
}

impl Fault {
    pub fn layer(self) -> &'static str
        ensures { result.now ≡ layer self }
    {
        match self {
            Fault::Text(_) => "text",
            Fault::Sheet(fault) => fault.layer(),
        }
    }

    pub fn refusal(self) -> Refusal
        ensures { result ≡ refused self }
    {
        match self {
            Fault::Text(refusal) => refusal,
            Fault::Sheet(fault) => fault.refusal(),
        }
    }
}

// A refusal that comes up by itself is a line's.
impl From<Refusal> for Fault {
    ghost from_gives = { λ e r. r ≡ Text e };

    fn from(refusal: Refusal) -> Fault {
        Fault::Text(refusal)
    }
}

impl From<sheet::Fault> for Fault {
    ghost from_gives = { λ f r. r ≡ Sheet f };

    fn from(fault: sheet::Fault) -> Fault {
        Fault::Sheet(fault)
    }
}
