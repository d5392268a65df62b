ghost use Rattle.std.specs.Prelude.{◌≡◌, ◌⊎◌, ◌<◌, ◌∷◌, ◌++◌, [], Err, true, IsTrue, MatchOption};
ghost use Rattle.std.specs.Arc.{arc_value};
ghost use Rattle.centre_core.specs.History.{accepts, after, next};
ghost use Rattle.snapshots.specs.declared.making.MakeFault.TheVariants.{NoMemory, NoPlace};

use base::TryCopy;
use centre_core::{Command, Register, Reply};
use snapshots::{Centre, MakeFault, NewLog, Publisher, Viewer, make};
use std::alloc::{AllocError, Global};
use std::marker::Model;
use std::sync::{Arc, Wait};

/// A register that judges commands, and the publisher of those that it accepted. Contracts model it as the publisher. It is
/// not `Drop`: end it by `close`.
pub struct LiveRegister<J: Centre> {
    publisher: Publisher<J>,
    register: Register<Global>,
    alloc: Global,
    // A command was applied but not appended: it was not accepted, or memory ran out. From then on no command is applied.
    ahead: bool,
}

impl<J: Centre> Model for LiveRegister<J> {
    ghost use Rattle.std.specs.Prelude.{◌≡◌, false};
    ghost use Rattle.centre_core.specs.History.{after};
    ghost use Rattle.snapshots.specs.Changes.{PublisherView};

    ghost Value = { PublisherView };

    ghost view = { λ l. l.publisher };

    ghost invariant = { λ l. l.ahead ≡ false → l.register ≡ after J.base l.publisher.appended };
}

/// Makes a live register, which begins as a copy of this one, and its viewers: `places` of them, 1 to 64. `log` is the empty list
/// that accepted commands are appended to.
///
/// Any other number of places is refused: by `NoPlace`, or by `NoMemory` if memory runs out first, for the copy of the register.
pub fn make_live<J: Centre, R: Wait>(
    rt: &R,
    alloc: Global,
    log: NewLog,
    register: Register<Global>,
    places: usize,
) -> Result<(LiveRegister<J>, Vec<Viewer<J>>), MakeFault>
    requires centre { (log.seen.book ≡ J.book) × (register ≡ J.base) }
    ensures no_place { (places ≡ 0) ⊎ (64 < places) → (result ≡ Err NoPlace) ⊎ (result ≡ Err NoMemory) }
{
    let own = register.try_copy()?;
    let (publisher, viewers) = make::<J, R>(rt, alloc, log, register, places)?;
    let live = LiveRegister {
        publisher,
        register: own,
        alloc,
        ahead: false,
    };
    Ok((live, viewers))
}

// Applies the command; whether it was accepted. `None` if memory ran out, and then nothing has changed.
fn judge(register: &mut Register<Global>, alloc: Global, command: &Command<Global>) -> Option<bool>
    ensures accepted { MatchOption result (register.new ≡ register.old)
        (λ r. (r ≡ accepts register.old command.now) × (register.new ≡ next register.old command.now)) }
{
    match register.apply(alloc, command) {
        Ok(Reply::Accepted { .. }) => Some(true),
        Ok(_) => Some(false),
        Err(_) => None,
    }
}

// Applies the command, and appends it if it is accepted; whether both were done. `None` if memory ran out before it was
// applied, and then nothing has changed.
fn applied<J: Centre>(
    publisher: &mut Publisher<J>,
    register: &mut Register<Global>,
    alloc: Global,
    command: Arc<Command<Global>, Global>,
) -> Option<bool>
    requires { register.old ≡ after J.base publisher.old.appended }
    ensures { MatchOption result (register.new ≡ after J.base publisher.new.appended)
        (λ done. done ≡ true → register.new ≡ after J.base publisher.new.appended) }
{
    let Some(is_accepted) = judge(register, alloc, &command) else {
        return None;
    };
    if !is_accepted {
        return Some(false);
    }
    Some(appended(publisher, command))
}

// Appends a command, which the register accepts after all that were appended. Returns whether it was appended.
fn appended<J: Centre>(publisher: &mut Publisher<J>, command: Arc<Command<Global>, Global>) -> bool
    requires next { IsTrue (accepts (after J.base publisher.old.appended) (arc_value command)) }
    ensures { result ≡ true → publisher.new.appended ≡ publisher.old.appended ++ arc_value command ∷ [] }
{
    match publisher.append(command) {
        Ok(()) => true,
        Err(_) => false,
    }
}

impl<J: Centre> LiveRegister<J> {
    /// Applies the command, and appends it if it is accepted; whether both were done. If memory runs out before it is
    /// applied, nothing has changed. After a command that is not accepted, or not appended, no further one is applied.
    pub fn apply(&mut self, command: Arc<Command<Global>, Global>) -> bool {
        if self.ahead {
            return false;
        }
        match applied(&mut self.publisher, &mut self.register, self.alloc, command) {
            Some(true) => true,
            Some(false) => {
                self.ahead = true;
                false
            }
            None => false,
        }
    }

    /// Publishes what was accepted. If memory runs out, what is published stays.
    pub fn publish<R: Wait>(&mut self, rt: &R) -> Result<(), AllocError> {
        self.publisher.publish(rt)
    }

    /// Its publisher.
    pub fn publisher(&self) -> &Publisher<J> {
        &self.publisher
    }

    /// The register that judges.
    pub fn register(&self) -> &Register<Global> {
        &self.register
    }

    /// Ends it, once no viewer reads any more.
    pub fn close<R: Wait>(self, rt: &R) {
        let LiveRegister {
            publisher,
            register,
            alloc: _,
            ahead: _,
        } = self;
        drop(register);
        publisher.close(rt);
    }
}
