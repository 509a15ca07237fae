//! What every kind of load has: a number, a length, a reader and a writer, and their meaning.
ghost use Rattle.std.specs.Prelude.{◌≡◌, ℕ, ◌<◌, ◌≤◌, List, length, Ok, Err, Result, ◌≢◌};
ghost use Rattle.loads.specs.declared.faults.Fault.{Fault};
ghost use Rattle.loads.specs.declared.faults.Fault.TheVariants.{WrongLength};
ghost use Rattle.loads.specs.Octets.{write_answer, write_leaves};

use crate::faults::Fault;

/// A load kind. Its loads are values that other layers only copy.
pub trait Load: Copy {
    /// The kind's number in a frame, 0 to 31.
    const KIND: u8;

    ghost KIND: { ℕ };

    /// How many octets every load of the kind has, at most 31.
    const SIZE: usize;

    ghost SIZE: { ℕ };

    /// The octets that a load is spelled as.
    ghost spelled: { Self → List ℕ };

    /// What octets read as.
    ghost reads: { List ℕ → Result Self Fault };

    /// The load that octets spell. Refused by `WrongLength` where they are not `SIZE` octets; what
    /// else is refused, the kind says.
    fn read(octets: &[u8]) -> Result<Self, Fault>
        ensures answer { result ≡ reads octets.now };

    /// Spells the load at the front of a buffer. Refused by `WrongLength` where the buffer is
    /// shorter than `SIZE`, and then the buffer stays as it was.
    fn write(&self, buffer: &mut [u8]) -> Result<(), Fault>
        ensures answer { result ≡ write_answer (spelled self.now) buffer.old }
        ensures after { buffer.new ≡ write_leaves (spelled self.now) buffer.old };

    // This and the next are not `final`: the checker takes no pointer to a `final` function.
    /// The kind's number, as a call.
    fn kind_number() -> u8
        ensures answer { result ≡ KIND }
    {
        Self::KIND
    }

    /// How many octets a load has, as a call.
    fn octet_count() -> usize
        ensures answer { result ≡ SIZE }
    {
        Self::SIZE
    }

    /// What was written reads back as the same load.
    ghost back: { (x : Self) → reads (spelled x) ≡ Ok x };

    /// The spelling has the kind's length.
    ghost sized: { (x : Self) → length (spelled x) ≡ SIZE };

    /// Octets of another number are turned down for that.
    ghost refused: { (octets : List ℕ) → (length octets ≢ SIZE) → reads octets ≡ Err WrongLength };

    /// The number fits the five bits that a frame has for it.
    ghost kind_bound: { KIND < 32 };

    /// A frame has at most 32 octets.
    ghost size_bound: { SIZE ≤ 31 };
}
