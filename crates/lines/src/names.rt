// Names: the first line, CODE and the name of a code.
ghost use Rattle.std.specs.Prelude.{◌≡◌};
ghost use Rattle.lines.specs.Fields.{fields};
ghost use Rattle.lines.specs.Names.{name_in, name_asked, named};

use crate::calls::MAX_LINE;
use crate::cuts::{check_end, split_field};
use code::{Reason, Refusal};

#[derive(Clone, Copy, PartialEq, Eq, Debug)]
pub enum Name {
    Trip,
    Fare,
    Shift,
}

// The code that a field names.
fn name_in(field: &[u8]) -> Result<Name, Refusal>
    ensures { result ≡ name_in field.now }
{
    match field {
        b"TRIP" => Ok(Name::Trip),
        b"FARE" => Ok(Name::Fare),
        b"SHIFT" => Ok(Name::Shift),
        _ => Err(Reason::Garbled.at(2)),
    }
}

// The code that the fields after CODE name.
fn parse_rest(rest: &[u8]) -> Result<Name, Refusal>
    ensures { result ≡ name_asked (fields rest.now) }
{
    let (field, more) = split_field(rest);
    let name = name_in(field)?;
    check_end(more, 3)?;
    Ok(name)
}

// The code that the first line names, or the field under which it is garbled.
pub fn parse_name(line: &[u8]) -> Result<Name, Refusal>
    ensures { result ≡ named line.now }
{
    if line.len() > MAX_LINE {
        return Err(Reason::Garbled.at(0));
    }
    let (b"CODE", more) = split_field(line) else {
        return Err(Reason::Garbled.at(1));
    };
    parse_rest(more.ok_or(Reason::Garbled.at(2))?)
}
