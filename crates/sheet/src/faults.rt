// Faults: a refusal together with the layer that gave it.
ghost use Rattle.std.specs.Prelude.{◌≡◌};
ghost use Rattle.sheet.specs.declared.faults.Fault.TheVariants.{Code};
ghost use Rattle.sheet.specs.Faults.{layer, refused};

use code::Refusal;

#[derive(Clone, Copy, PartialEq, Eq, Debug)]
pub enum Fault {
    // the code that was given to a read refused it
    Code(Refusal),
    // the sheet itself refused the call
    Sheet(Refusal),
}

impl Fault {
    pub fn layer(self) -> &'static str
        ensures { result.now ≡ layer self }
    {
        match self {
            Fault::Code(_) => "code",
            Fault::Sheet(_) => "sheet",
        }
    }

    pub fn refusal(self) -> Refusal
        ensures { result ≡ refused self }
    {
        match self {
            Fault::Code(refusal) | Fault::Sheet(refusal) => refusal,
        }
    }
}

// What comes up by `?` is a code's: the sheet names its own refusals itself.
impl From<Refusal> for Fault {
    ghost from_gives = { λ e r. r ≡ Code e };

    fn from(refusal: Refusal) -> Fault {
        Fault::Code(refusal)
    }
}
