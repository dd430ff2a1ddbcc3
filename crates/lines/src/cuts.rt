// Cuts: a line falls into fields at its tabs.
ghost use Rattle.std.specs.Prelude.{◌≡◌, ◌≤◌, ◌∷◌, length};
ghost use Rattle.lines.specs.Fields.{fields, till, others, ended};

use code::{Reason, Refusal};

// How many bytes stand before the first `mark`, or all where there is none.
pub fn find_byte(mark: u8, bytes: &[u8]) -> usize
    ensures first { result ≡ till mark bytes.now }
    ensures within { result ≤ length bytes.now }
{
    bytes.iter().position(|b| *b == mark).unwrap_or(bytes.len())
}

// The first field of a line, and what follows its tab, if it has one.
pub(crate) fn split_field(line: &[u8]) -> (&[u8], Option<&[u8]>)
    ensures { fields line.now ≡ result.0.now ∷ others result.1 }
{
    let end = find_byte(b'\t', line);
    (&line[..end], line.get(end + 1..))
}

// Nothing follows the last field; where something does, field `at` is one too many.
pub(crate) fn check_end(rest: Option<&[u8]>, at: usize) -> Result<(), Refusal>
    ensures { result ≡ ended tt at (others rest.entry) }
{
    match rest {
        None => Ok(()),
        Some(_) => Err(Reason::Garbled.at(at)),
    }
}
