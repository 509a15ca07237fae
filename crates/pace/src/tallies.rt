//! How many calls were made, and the sum of what they answer.
ghost use Rattle.std.specs.Prelude.{◌≡◌};
ghost use Rattle.std.specs.Result.{result_ok};
ghost use Rattle.pace.specs.Tallies.{no_calls, added, taken};

use link::LinkRefusal;
use loads::Refusal;

/// How many calls were made, and the sum of their answers' numbers and of what they show. The count is by 64 bits, and the sum
/// by 32.
#[derive(Drop)]
pub struct Tally {
    pub calls: u64,
    pub sum: u32,
}

impl Tally {
    /// Of no calls.
    pub fn new() -> Tally
        ensures answer { result ≡ no_calls }
    {
        Tally { calls: 0, sum: 0 }
    }

    /// Adds to the sum.
    pub fn add(&mut self, value: u32)
        ensures after { self.new ≡ added value self.old }
    {
        self.sum = self.sum.wrapping_add(value);
    }

    /// Counts a call with its answer, and gives what an accepted one shows.
    pub fn take<X>(&mut self, answer: Result<X, LinkRefusal>) -> Option<X>
        ensures answer { result ≡ result_ok answer }
        ensures after { self.new ≡ taken answer self.old }
    {
        self.calls = self.calls.wrapping_add(1);
        match answer {
            Ok(shown) => Some(shown),
            Err(refusal) => {
                self.add(u32::from(refusal.number()));
                None
            }
        }
    }
}
