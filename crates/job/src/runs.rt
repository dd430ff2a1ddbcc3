// Runs: a job's lines, one after another, on one sheet.
ghost use Rattle.std.specs.Prelude.{◌≡◌};
ghost use Rattle.code.specs.Calls.{TakesOut};
ghost use Rattle.code.specs.Refusals.{Verdict as Refused};
ghost use Rattle.job.specs.Transcripts.{lifted};

use code::Code;

// The first of the input's bytes that are looked at, and the first of their lines.
const MAX_BYTES: usize = 4_000_000;

const MAX_LINES: usize = 60_000;

// The message that a word carries; a refusal is the code's.
fn take_message<C: Code>(code: &C, word: &[u16], message: &mut [u16]) -> Result<(), sheet::Fault>
    ensures { (res : Refused) × (result ≡ lifted res) × TakesOut (C.Code.codebook code.now) (C.Code.layout code.now) word.now message.old message.new res }
{
    Ok(code.take_out(word, message)?)
}
