//! Closing a centre.
ghost use Rattle.std.specs.Prelude.{◌≡◌, [], ◌∷◌, All, IfOk, IfErr, map};
ghost use Rattle.std.specs.List.{AllZip};
ghost use mathlib.Core.List.{IsPrefix};
ghost use Rattle.crossbeam_channel.specs.Ends.{sends_on, receives_on};
ghost use Rattle.answers.specs.Views.{sent_of, received_of};
ghost use Rattle.station_queue.specs.Ends.{with_settled};
ghost use Rattle.station_queue.specs.Order.{settled};
ghost use Rattle.recovery.specs.Lives.{view_of as store_view};
ghost use Rattle.flusher.specs.View.{view_of_flusher};
ghost use Rattle.flusher.specs.Served.{IsSettled};
ghost use Rattle.flusher.specs.Closed.{AreSessionsOf, IsClosed, IsNotClosed};

use crate::flusher::Flusher;
use crate::publishing::Publication;
use crate::response::Response;
use crate::session::Ended;
use answers::AnswerSender;
use recovery::Store;
use sector_disk::Disk;
use snapshots::{Centre, Published, Viewer};
use station_queue::Taker;
use std::alloc::Global;
use std::sync::Wait;
use std::thread;

// Returns once this list begins with all that a session has seen, else never. The publisher alone adds to what sessions see, so it
// returns at once; no contract of the published copies says so.
fn wait_within<J: Centre, R: Wait>(rt: &R, viewer: &Viewer<J>, published: &Published<J>)
    ensures { IsPrefix viewer.now published.now }
{
    for _ in rt.forever() {
        if viewer.is_within(published) {
            return;
        }
        thread::yield_now();
    }
    unreachable!()
}

// Returns once this list begins with all that each session has seen, else never.
fn wait_within_each<J: Centre, R: Wait>(rt: &R, ended: &[Ended<J>], published: &Published<J>)
    ensures { All (λ e. IsPrefix e.viewer published.now) ended.now }
{
    for end in ended {
        wait_within(rt, &end.viewer, published);
    }
}

// Takes both ends of a session back.
fn settle<J: Centre>(taker: &mut Taker, sender: AnswerSender<Response<J>>, end: Ended<J>)
    requires queue { end.sender.queue ≡ taker.old.queue }
    requires channel { receives_on end.receiver.channel ≡ sends_on sender.channel }
    ensures settled { taker.new ≡ with_settled taker.old (settled end.sender.station end.sender.sent ∷ []) }
    ensures received { IsPrefix (received_of end.receiver.pass) (sent_of sender.pass) }
{
    let Ended {
        sender: queue,
        receiver,
        viewer: _,
    } = end;
    taker.settle(queue);
    sender.settle(receiver);
}

// Takes both ends of each session back.
fn settle_each<J: Centre>(
    taker: &mut Taker,
    senders: Vec<AnswerSender<Response<J>>>,
    ended: Vec<Ended<J>>,
)
    requires queue { All (λ e. e.sender.queue ≡ taker.old.queue) ended.items }
    requires channels { AllZip (λ s e. receives_on e.receiver.channel ≡ sends_on s.channel) senders.items ended.items }
    ensures settled { taker.new ≡ with_settled taker.old (map (λ e. settled e.sender.station e.sender.sent) ended.items) }
    ensures received { AllZip (λ s e. IsPrefix (received_of e.receiver.pass) (sent_of s.pass)) senders.items ended.items }
{
    let mut senders = senders.into_iter();
    for end in ended {
        let Some(sender) = senders.next() else {
            return;
        };
        settle(taker, sender, end);
    }
}

// Ends the publisher, and drops what is not published yet.
fn end_publisher<J: Centre, R: Wait>(rt: &R, publication: Publication<J>) {
    let Publication {
        publisher,
        unpublished: _,
    } = publication;
    publisher.close(rt);
}

/// Closes a centre, and returns its store. `ended` has all sessions of the centre, in order of station.
///
/// If the flusher has not taken the end of each session, flusher and sessions come back unchanged. If a session had seen what was never
/// published, `close` would not return; no test met this.
pub fn close<J: Centre, D: Disk, R: Wait>(
    rt: &R,
    flusher: Flusher<J, D>,
    ended: Vec<Ended<J>>,
) -> Result<Store<Global, D>, (Flusher<J, D>, Vec<Ended<J>>)>
    requires settled { IsSettled J.base (view_of_flusher flusher) }
    requires sessions { AreSessionsOf (view_of_flusher flusher) ended.items }
    ensures store { IfOk result (λ store. store_view store ≡ (view_of_flusher flusher).store) }
    ensures closed { IfOk result (λ _. IsClosed J.base (view_of_flusher flusher) ended.items) }
    ensures refused { IfErr result (λ back. (back.0 ≡ flusher) × (back.1 ≡ ended) × IsNotClosed (view_of_flusher flusher)) }
{
    if !flusher.has_ended() {
        return Err((flusher, ended));
    }
    wait_within_each(rt, &ended, &flusher.publication.publisher.published());
    let Flusher {
        mut taker,
        senders,
        publication,
        committer,
        room: _,
        ended: _,
        rounds: _,
    } = flusher;
    settle_each(&mut taker, senders, ended);
    taker.total();
    end_publisher(rt, publication);
    Ok(committer.store)
}

impl<J: Centre, D: Disk> Flusher<J, D> {
    /// Returns the store without closing the centre. Entries that are still in the queue are lost, with their places: a session
    /// that has no place left waits for ever, also in `finish`. No clause says that a session that waits for its answer gets
    /// `Closed`.
    pub fn abandon<R: Wait>(self, rt: &R) -> Store<Global, D>
        ensures { store_view result ≡ (view_of_flusher self).store }
    {
        let Flusher {
            taker: _,
            senders: _,
            publication,
            committer,
            room: _,
            ended: _,
            rounds: _,
        } = self;
        end_publisher(rt, publication);
        committer.store
    }
}
