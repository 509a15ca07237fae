//! What turns calls down, by fixed numbers.
ghost use Rattle.std.specs.Prelude.{◌≡◌, ℕ, ◌≢◌};
ghost use Rattle.loads.specs.Refusals.{answer_number};

/// What turns a call down.
pub trait Refusal {
    /// The number by which a refusal is known outside, as clauses see it.
    ghost number: { Self → ℕ };

    /// The number by which this refusal is known outside. It is not 0.
    fn number(&self) -> u8
        ensures answer { result ≡ number self.now };

    /// It is not the number of an accepted call.
    ghost nonzero: { (x : Self) → number x ≢ 0 };
}

/// The number of an answer: 0 for an accepted call, else that of its refusal.
pub fn answer_number<X, E: Refusal>(answer: &Result<X, E>) -> u8
    ensures answer { result ≡ answer_number E.number answer.now }
{
    match answer {
        Ok(_) => 0,
        Err(refusal) => refusal.number(),
    }
}
