//! Replies, those that the model hasn't among them.
ghost use Rattle.std.specs.Prelude.{◌≡◌};
ghost use Rattle.c_judge.specs.Replies.{said_of as said_of_numbers};

use c_words::{PlainReply, reply_of};
use call_table::Reply;

/// The number of a call that stopped the machine, in the place of a refusal's.
const STOPPED: u64 = 65536;

/// A call's answer, by its numbers.
#[derive(Clone, Copy, PartialEq)]
pub(crate) enum Said {
    /// A reply that the model has.
    Known(Reply),
    /// A refusal whose number the model hasn't.
    Refusal(u64),
    /// The call stopped the machine.
    Stopped,
}

/// The answer that the numbers say. None if the call was made, and a number of its value is unknown.
pub(crate) fn said_of(reply: PlainReply) -> Option<Said>
    ensures { result ≡ said_of_numbers reply }
{
    if reply.refusal == STOPPED {
        return Some(Said::Stopped);
    }
    match reply_of(reply) {
        Some(known) => Some(Said::Known(known)),
        None => {
            if reply.refusal == 0 {
                None
            } else {
                Some(Said::Refusal(reply.refusal))
            }
        }
    }
}
