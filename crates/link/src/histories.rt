//! What is true of every history.
ghost use Rattle.std.specs.Prelude.{◌≡◌, ℕ, List, [], ◌∷◌, ◌++◌, OnErr};
ghost use Rattle.link.specs.declared.events.Event.{Event};
ghost use Rattle.link.specs.States.{LinkState};
ghost use Rattle.link.specs.Histories.{EventLeads, HistoryLeads};
ghost use Rattle.link.specs.Calls.{outcome};
ghost use Rattle.link.specs.Laws.{IsLawful, outcome_of};

/// The law, of every history over one book from an accepted join on, however its calls were picked: an event more makes it a
/// longer history, and leaves the link as it was where it is a refusal; the law holds of it; and the link where it leads says
/// of the last message what the history says.
#[tactic(auto, using(crate::proofs::Laws::history_longer, crate::proofs::Moves::history_outcome))]
pub fn histories_are_truthful<T>()
    ensures longer { (book : List T) (repeats : ℕ) (history : List (Event T))
        (before after : LinkState T) (event : Event T) →
        HistoryLeads book repeats history before → EventLeads book before event after →
        HistoryLeads book repeats (history ++ event ∷ []) after }
    ensures refused { (book : List T) (before after : LinkState T) (event : Event T) →
        EventLeads book before event after → OnErr event.answer (after ≡ before) }
    ensures truthful { (book : List T) (repeats : ℕ) (history : List (Event T))
        (link : LinkState T) →
        HistoryLeads book repeats history link → IsLawful book repeats history }
    ensures outcome { (book : List T) (repeats : ℕ) (history : List (Event T))
        (link : LinkState T) →
        HistoryLeads book repeats history link → outcome link ≡ outcome_of history }
{}
