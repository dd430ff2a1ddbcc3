// The forecast: what the cost of received cells against the printed word foretells of every read of them.
#![tactic(auto)]

ghost use Rattle.std.specs.Prelude.{◌≡◌, IfOk};
ghost use Rattle.forecast.specs.Forecasts.{forecast, foreseen, Foretells};

use code::{Code, MAX_LENGTH, Reason, Refusal, count};
use std::cmp::Ordering;

#[derive(Clone, Copy, PartialEq, Eq, Debug)]
pub enum Forecast {
    // the read hands over the printed word
    Returns,
    // the read is refused as lost
    GetsLost,
    // the read may be lost, or hand over another word
    Uncertain,
}

fn forecast_at(cost: usize, d: usize) -> Forecast
    ensures { result ≡ forecast cost d }
{
    match cost.cmp(&d) {
        Ordering::Less => Forecast::Returns,
        Ordering::Equal => Forecast::GetsLost,
        Ordering::Greater => Forecast::Uncertain,
    }
}

pub fn foresee<C: Code>(code: &C, printed: &[u16], received: &[u16]) -> Result<Forecast, Refusal>
    ensures is { result ≡ foreseen (C.Code.codebook code.now).n (C.Code.codebook code.now).d printed.now received.now }
    ensures comes_true { IfOk result (λ f. (C.Code.codebook code.now).Word printed.now → Foretells (C.Code.codebook code.now) (C.Code.layout code.now) printed.now received.now f) }
{
    let n = code.length();
    if n > MAX_LENGTH {
        return Err(Reason::Oversize.at(0));
    }
    if printed.len() != n {
        return Err(Reason::Misfit.at(0));
    }
    let counts = count(received, printed)?;
    Ok(forecast_at(counts.cost(), code.distance()))
}
