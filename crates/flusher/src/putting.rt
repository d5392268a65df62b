//! Putting commands into the queue.
ghost use Rattle.std.specs.Prelude.{◌≡◌, ◌≤◌, All, IfSome, length, take};
ghost use Rattle.std.specs.Arc.{arc_value};
ghost use Rattle.flusher.specs.Heard.{ArePut};

use centre_core::Command;
use station_queue::{Entry, Request, Sender, SharedCommand};
use std::alloc::Global;
use std::sync::{Arc, Wait};

/// The command for the queue, and one more owner of it, to compare the answer with. `None` if memory runs out.
pub(crate) fn request_for(
    alloc: Global,
    command: Command<Global>,
) -> Option<(Request, SharedCommand)>
    ensures { IfSome result (λ r. (arc_value r.0.command ≡ command) × (arc_value r.1 ≡ command)) }
{
    let own = Arc::new(alloc, command).ok()?;
    let command = Arc::try_clone(&own).ok()?;
    let copy = Arc::try_clone(&own).ok()?;
    let request = Request {
        command,
        copy,
        more: false,
    };
    Some((request, own))
}

// The command for the queue. `more`: another one follows. `None` if memory runs out.
fn request_in(alloc: Global, command: Command<Global>, more: bool) -> Option<Request>
    ensures { IfSome result (λ r. arc_value r.command ≡ command) }
{
    let command = Arc::new(alloc, command).ok()?;
    let copy = Arc::try_clone(&command).ok()?;
    Some(Request {
        command,
        copy,
        more,
    })
}

// A copy of the command for the queue. `more`: another one follows. `None` if memory runs out.
fn request_of(alloc: Global, command: &Command<Global>, more: bool) -> Option<Request>
    ensures { IfSome result (λ r. arc_value r.command ≡ command.now) }
{
    let Ok(own) = command.try_copy(alloc) else {
        return None;
    };
    request_in(alloc, own, more)
}

/// Puts commands into the queue, until memory runs out, and returns how many.
pub(crate) fn put_all<R: Wait>(
    rt: &R,
    alloc: Global,
    sender: &mut Sender,
    commands: &[Command<Global>],
) -> usize
    requires station { All (λ c. c.station ≡ sender.old.station) commands.now }
    ensures within { result ≤ length commands.now }
    ensures put { ArePut (take result commands.now) sender.old.sent sender.new.sent }
    ensures same { (sender.new.queue ≡ sender.old.queue) × (sender.new.station ≡ sender.old.station) }
{
    for k in 0..commands.len() {
        let more = k + 1 < commands.len();
        let Some(request) = request_of(alloc, &commands[k], more) else {
            return k;
        };
        sender.send(rt, Entry::Submitted(request));
    }
    commands.len()
}
