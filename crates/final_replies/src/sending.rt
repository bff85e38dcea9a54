//! A final reply is sent, and closes the connection or not.
ghost use Rattle.std.specs.Prelude.{◌≡◌, ◌≤◌, ◌++◌, true, Some, None};
ghost use Rattle.desk_outside.specs.Faults.{Rose};
ghost use Rattle.desk_replies.specs.declared.bodies.Refusal.TheVariants as refusal;
ghost use Rattle.desk_replies.specs.declared.status.Status.TheVariants as status;
ghost use Rattle.desk_replies.specs.Bodies.{refusal_body, no_memory_body};
ghost use Rattle.desk_replies.specs.Statuses.{refusal_status};
ghost use Rattle.desk_replies.specs.Replies.{reply_text};
ghost use Rattle.final_replies.specs.declared.ends.SessionEnd.{SessionEnd};
ghost use Rattle.final_replies.specs.FinalReplies.{Replied};

use crate::ends::SessionEnd;
use desk_heads::HeadFault;
use desk_outside::{Failed, Link, send_all};
use desk_replies::{Refusal, Reply, Response, no_memory};

// Sends a final reply, of which two parts are given.
fn send_reply<L: Link>(link: &mut L, head: &[u8], body: &[u8], closes: bool) -> Option<SessionEnd>
    ensures sent { Replied result closes (head.now ++ body.now) (L.sent link.old) (L.sent link.new) }
    ensures left { L.left link.new ≡ L.left link.old }
    ensures later { L.faults link.old ≤ L.faults link.new }
    ensures failed { result ≡ Some SessionEnd.LinkFault → Rose (L.faults link.old) (L.faults link.new) }
{
    match send_all(link, head) {
        Ok(()) => {}
        Err(Failed) => return Some(SessionEnd::LinkFault),
    }
    match send_all(link, body) {
        Ok(()) => if closes {
            Some(SessionEnd::Closed)
        } else {
            None
        },
        Err(Failed) => Some(SessionEnd::LinkFault),
    }
}

/// Sends a final reply that is given whole.
pub(crate) fn send_fixed<L: Link>(link: &mut L, reply: &[u8], closes: bool) -> Option<SessionEnd>
    ensures sent { Replied result closes reply.now (L.sent link.old) (L.sent link.new) }
    ensures left { L.left link.new ≡ L.left link.old }
    ensures later { L.faults link.old ≤ L.faults link.new }
    ensures failed { result ≡ Some SessionEnd.LinkFault → Rose (L.faults link.old) (L.faults link.new) }
{
    send_reply(link, reply, b"", closes)
}

/// Sends a response.
pub(crate) fn send_response<L: Link>(
    link: &mut L,
    response: &Response,
    closes: bool,
) -> Option<SessionEnd>
    ensures sent { Replied result closes (reply_text response.now.status response.now.methods closes response.now.body) (L.sent link.old) (L.sent link.new) }
    ensures left { L.left link.new ≡ L.left link.old }
    ensures later { L.faults link.old ≤ L.faults link.new }
    ensures failed { result ≡ Some SessionEnd.LinkFault → Rose (L.faults link.old) (L.faults link.new) }
{
    let body = response.body.as_slice();
    let reply = Reply {
        status: response.status,
        methods: response.methods,
        closes,
        length: body.len(),
    };
    send_reply(link, reply.head().as_slice(), body, closes)
}

/// Sends that memory ran out, which closes.
pub fn send_no_memory<L: Link>(link: &mut L) -> Option<SessionEnd>
    ensures sent { Replied result true (reply_text status.NoMemory None true no_memory_body) (L.sent link.old) (L.sent link.new) }
    ensures left { L.left link.new ≡ L.left link.old }
    ensures later { L.faults link.old ≤ L.faults link.new }
    ensures failed { result ≡ Some SessionEnd.LinkFault → Rose (L.faults link.old) (L.faults link.new) }
{
    send_fixed(link, no_memory(), true)
}

/// Sends the refusal of a head, which closes.
pub fn send_refusal<L: Link>(link: &mut L, fault: HeadFault) -> Option<SessionEnd>
    ensures sent { let why = refusal.Head fault in
        Replied result true (reply_text (refusal_status why) None true (refusal_body why)) (L.sent link.old) (L.sent link.new) }
    ensures left { L.left link.new ≡ L.left link.old }
    ensures later { L.faults link.old ≤ L.faults link.new }
    ensures failed { result ≡ Some SessionEnd.LinkFault → Rose (L.faults link.old) (L.faults link.new) }
{
    send_response(link, &Response::refused(Refusal::Head(fault)), true)
}
