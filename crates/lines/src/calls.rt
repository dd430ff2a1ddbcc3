// Calls: the lines P place symbol, B place, W and R.
ghost use Rattle.std.specs.Prelude.{◌≡◌, ◌<◌};
ghost use Rattle.lines.specs.Fields.{fields, others};
ghost use Rattle.lines.specs.Calls.{last_number, put_asked, commanded, asked};

use crate::cuts::{check_end, split_field};
use crate::numbers::number_at;
use code::{Reason, Refusal};
use sheet::Call;

pub const MAX_LINE: usize = 64;

// The number in the last field of a line.
fn last_at(rest: &[u8], at: usize) -> Result<u16, Refusal>
    requires { at < 9 }
    ensures { result ≡ last_number at (fields rest.now) }
{
    let (field, more) = split_field(rest);
    let n = number_at(field, at)?;
    check_end(more, at + 1)?;
    Ok(n)
}

// What a line with the command P asks for, after its first tab.
fn parse_put(rest: &[u8]) -> Result<Call, Refusal>
    ensures { result ≡ put_asked (fields rest.now) }
{
    let (field, more) = split_field(rest);
    let place = number_at(field, 2)?;
    let more = more.ok_or(Reason::Garbled.at(3))?;
    let symbol = last_at(more, 3)?;
    Ok(Call::Put {
        place: usize::from(place),
        symbol,
    })
}

// What a line asks for by its command, and by what follows the command's tab, if it has one.
fn parse_command(command: char, rest: Option<&[u8]>) -> Result<Call, Refusal>
    ensures { result ≡ commanded command (others rest.entry) }
{
    match command {
        'P' => parse_put(rest.ok_or(Reason::Garbled.at(2))?),
        'B' => {
            let place = last_at(rest.ok_or(Reason::Garbled.at(2))?, 2)?;
            Ok(Call::Blot {
                place: usize::from(place),
            })
        }
        'W' => check_end(rest, 2).map(|()| Call::Wipe),
        'R' => check_end(rest, 2).map(|()| Call::Read),
        _ => Err(Reason::Garbled.at(1)),
    }
}

// The call that a line asks for, or the field under which it is garbled.
pub fn parse_call(line: &[u8]) -> Result<Call, Refusal>
    ensures { result ≡ asked line.now }
{
    if line.len() > MAX_LINE {
        return Err(Reason::Garbled.at(0));
    }
    match line {
        [command, b'\t', rest @ ..] => parse_command(char::from(*command), Some(rest)),
        [command] => parse_command(char::from(*command), None),
        _ => Err(Reason::Garbled.at(1)),
    }
}
