//! Replies that no text shows.

use model_histories::{Answer, GateFault, Receipt, Reply};
use text_words::{Act, Request};
use tool_commands::status_of;

const UNSET: Reply = Reply::Done(Receipt {
    number: 1,
    request: Request {
        strand: 0,
        act: Act::Get(0),
        line: 1,
    },
    answer: Answer::Unset,
});

const STOPPED: Reply = Reply::Illegal(GateFault::Stopped);

const MEMORY: Reply = Reply::Illegal(GateFault::Memory);

#[test]
fn statuses_of_replies(rt: HostRuntime) {
    assert!(rt; status_of(&[UNSET, STOPPED, MEMORY]) == 3);
    assert!(rt; status_of(&[UNSET]) == 1);
}
