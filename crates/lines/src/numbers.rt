// Numbers: one to five digits with no leading zero except 0 itself, at most 65,535.
ghost use Rattle.std.specs.Prelude.{◌≡◌};
ghost use Rattle.lines.specs.Fields.{Numbered, number_at};

use code::{Reason, Refusal};

// The number that a field writes.
fn read_number(field: &[u8]) -> Option<u16>
    ensures { Numbered field.now result }
{
    if field.is_empty() || field.len() > 5 {
        return None;
    }
    if let [b'0', _, ..] = field {
        return None;
    }
    let mut n: u32 = 0;
    for b in field {
        if !b.is_ascii_digit() {
            return None;
        }
        n = n * 10 + u32::from(b - b'0');
    }
    u16::try_from(n).ok()
}

// The number that a field writes, given the field's own number for the refusal.
pub(crate) fn number_at(field: &[u8], at: usize) -> Result<u16, Refusal>
    ensures { result ≡ number_at at field.now }
{
    read_number(field).ok_or(Reason::Garbled.at(at))
}
