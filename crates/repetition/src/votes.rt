// Majority voting by Boyer and Moore: after one pass no symbol but the candidate can stand in more than half of the cells that were read.
ghost use Rattle.std.specs.Prelude.{◌≡◌, ℕ, ◌+◌, ◌^◌, ◌<◌, ◌≤◌, true, ◌≢◌, length, replicate, slice_index};
ghost use Rattle.code.specs.Cells.{good, Holds, cost, price};
ghost use Rattle.code.specs.declared.cells.Content.TheVariants.{Received};
ghost use Rattle.repetition.specs.Votes.{Led};

use code::BLANK;

#[derive(Clone, Copy, Default)]
pub(crate) struct Vote {
    candidate: u16,
    lead: usize,
}

impl Vote {
    // The vote after one cell more.
    #[tactic(auto, unfolding(code::specs::Cells::price))]
    fn cast(self, cell: u16) -> Vote
        requires { self.lead + 1 < 2 ^ 64 }
        ensures leads { (v i p : ℕ) → Led self v i p → Led result v (i + 1) (p + price cell v) }
        ensures slow { result.lead ≤ self.lead + 1 }
        ensures symbol { (q : ℕ) → self.candidate < q → good Received q cell ≡ true → result.candidate < q }
    {
        if cell == BLANK {
            self
        } else if cell == self.candidate {
            Vote {
                lead: self.lead + 1,
                ..self
            }
        } else if self.lead == 0 {
            Vote {
                candidate: cell,
                lead: 1,
            }
        } else {
            Vote {
                lead: self.lead - 1,
                ..self
            }
        }
    }
}

// The one symbol whose row can cost less than the number of the cells.
pub(crate) fn elect(received: &[u16]) -> u16
    ensures others { (v : ℕ) → v ≢ result → length received.now ≤ cost received.now (replicate (length received.now) v) }
    ensures symbol { (q : ℕ) → 0 < q → Holds Received q received.now → result < q }
{
    let mut vote = Vote::default();
    for cell in received {
        vote = vote.cast(*cell);
    }
    vote.candidate
}
