//! The exit status of a judged trace.

ghost use Rattle.std.specs.Prelude.{◌≡◌, ◌++◌, ◌∷◌, [], List};
ghost use Rattle.model_histories.specs.declared.reply.Reply.{Reply as SpecReply};
ghost use Rattle.judge_command.specs.Statuses.{status_of_replies};
ghost use Rattle.judge_command.specs.StatusFlags.{HasMet};

use race_gate::{Answer, GateFault, Reply};

/// What the replies so far have among them, as far as the exit status tells it.
#[derive(Clone, Copy)]
pub struct StatusFlags {
    memory: bool,
    limit: bool,
    illegal: bool,
    refusal: bool,
}

impl StatusFlags {
    /// Before the first reply.
    pub fn new() -> StatusFlags
        ensures { HasMet [] result }
    {
        StatusFlags {
            memory: false,
            limit: false,
            illegal: false,
            refusal: false,
        }
    }

    /// Sees one reply more.
    #[inline(always)]
    pub fn add_reply(&mut self, reply: &Reply)
        ensures { (replies : List SpecReply) → HasMet replies self.old → HasMet (replies ++ reply.now ∷ []) self.new }
    {
        match reply {
            Reply::Done(receipt) => {
                if matches!(receipt.answer, Answer::Refused { .. } | Answer::Unset) {
                    self.refusal = true;
                }
            }
            Reply::Illegal(fault) => {
                self.illegal = true;
                match fault {
                    GateFault::Memory => self.memory = true,
                    GateFault::Limit => self.limit = true,
                    _ => {}
                }
            }
        }
    }

    /// The exit status of the replies.
    pub fn status(self) -> u8
        ensures { (replies : List SpecReply) → HasMet replies self → result ≡ status_of_replies replies }
    {
        if self.illegal {
            if self.memory {
                3
            } else if self.limit {
                4
            } else {
                2
            }
        } else if self.refusal {
            1
        } else {
            0
        }
    }
}

/// The exit status of replies: 3 where one is a want of memory, else 4 where one is beyond the limit, else 2 where one is illegal,
/// else 1 where one is refused or unset, else 0.
pub fn status_of(replies: &[Reply]) -> u8
    ensures { result ≡ status_of_replies replies.now }
{
    let mut met = StatusFlags::new();
    for reply in replies {
        met.add_reply(reply);
    }
    met.status()
}
