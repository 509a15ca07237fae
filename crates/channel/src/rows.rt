//! A row of puts and polls on any channel, logged, and what cannot happen to a frame in it.
ghost use Rattle.std.specs.Prelude.{◌≡◌, min, List, [], ◌∷◌, ◌++◌, map, length, take, drop};
ghost use Rattle.channel.specs.declared.rows.Used.{Used};
ghost use Rattle.channel.specs.Rows.{use_of, UseLeads, RowLeads, IsConserved};

use crate::polls::Poll;
use crate::refusals::Full;
use crate::rules::Channel;
use loads::Frame;

/// A use of a channel that may change what waits: a value, and no closure, since contracts compare
/// it with the log.
#[derive(Clone, Copy)]
pub enum Use<T> {
    /// To put this frame.
    Put(Frame<T>),
    /// To poll.
    Poll,
}

/// A use and what was answered.
#[derive(Clone, Copy, Debug, PartialEq, Eq)]
pub enum Used<T> {
    /// A put of this frame, with its answer.
    Put(Frame<T>, Result<(), Full>),
    /// A poll, with its answer.
    Poll(Poll<T>),
}

impl<T: Copy> Use<T> {
    /// Makes this use of a channel. Open: what a poll answers, by the rule.
    pub fn make<C: Channel<T>>(&self, channel: &mut C) -> Used<T>
        ensures made { use_of result ≡ self.now }
        ensures open_answer { UseLeads C.Channel channel.old result channel.new }
    {
        match self {
            Use::Put(frame) => Used::Put(*frame, channel.put(frame)),
            Use::Poll => Used::Poll(channel.poll()),
        }
    }
}

/// Makes uses of a channel in order, as many as the log has room for, logs each with its answer,
/// and gives how many they were. Open: what the polls answer, by the rule.
pub fn make_uses<T: Copy, C: Channel<T>>(
    channel: &mut C,
    uses: &[Use<T>],
    log: &mut [Used<T>],
) -> usize
    ensures answer { result ≡ min (length uses.now) (length log.old) }
    ensures made { map use_of (take result log.new) ≡ take result uses.now }
    ensures later { drop result log.new ≡ drop result log.old }
    ensures open_answers { RowLeads C.Channel channel.old (take result log.new) channel.new }
    ensures conserved { IsConserved
        (C.waiting channel.old) (take result log.new) (C.waiting channel.new) }
{
    let count = uses.len().min(log.len());
    // by place in the log, since of a `zip` with its `iter_mut` nothing says what the log ends as
    for (i, wanted) in uses[..count].iter().enumerate() {
        log[i] = wanted.make(channel);
    }
    count
}

/// The law over rows, of any row: also of one whose next use depends on what was answered so far.
/// A row is made longer by one use at its end.
#[tactic(auto, using(crate::proofs::RowLaws::row_longer, crate::proofs::RowLaws::row_conserves))]
pub fn rows_conserve_frames<T, C: Channel<T>>()
    ensures longer { (before between after : C) (row : List (Used T)) (used : Used T)
        → RowLeads C.Channel before row between
        → UseLeads C.Channel between used after
        → RowLeads C.Channel before (row ++ used ∷ []) after }
    ensures conserved { (before after : C) (row : List (Used T))
        → RowLeads C.Channel before row after
        → IsConserved (C.waiting before) row (C.waiting after) }
{}
