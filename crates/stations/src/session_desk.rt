//! A station's session as a desk.
ghost use Rattle.std.specs.Prelude.{◌≡◌, ◌≤◌, ◌+◌, ◌++◌, [], true, All, IfErr, IfOk, IfSome, IsTrue, OnErr, OnOk, length, map, vec_capacity, vec_len};
ghost use Rattle.console.specs.Reading.{is_order};
ghost use Rattle.desk.specs.Listed.{IsListed, IsUnlisted};
ghost use Rattle.desk.specs.Replies.{HasShortPdu};
ghost use Rattle.desk.specs.Rules.{AreApplied};
ghost use Rattle.flusher.specs.Sessions.{SessionHasOnlyRead};
ghost use Rattle.flusher.specs.Submitted.{HasShortAnswer};
ghost use Rattle.stations.specs.Inside.Kept.{KeepsSession};
ghost use Rattle.stations.specs.OfSession.{AtSession, Applies, Answers, accepts, at_session, is_failure, of_session, result_of, word_of};
ghost use Rattle.stations.specs.Orders.{is_allowed};

use crate::listing::list;
use crate::one_station::Serving;
use crate::station_text::StationText;
use crate::watch::Watch;
use centre_core::{Body, Command, Query, QueryAnswer, Reply};
use console::{ReplyCounts, ServiceFigures};
use desk::{Desk, Outage};
use flusher::{Answer, Session};
use listings::Listing;
use recovery::StoreFault;
use registration::Station;
use snapshots::{Centre, ReadFault};
use std::alloc::Global;
use std::marker::{Brand, Model, PhantomData};
use std::rt::Clock;
use std::sync::Wait;

/// What a session was when its run began, and whether its station may give orders. A run picks them, so that contracts can say at its
/// end what has stayed.
pub(crate) trait Began {
    ghost use Rattle.std.specs.Prelude.{Bool, Option};
    ghost use Rattle.stations.specs.GoesOn.{Beginning};

    ghost began: { Option Beginning };

    ghost may_order: { Bool };
}

// A run names its session by `Brand`, and its proof says which one is meant.
impl Began for Brand {
    ghost use Rattle.std.specs.Prelude.{None, true};

    ghost began = { None };

    ghost may_order = { true };
}

/// A station's session as a desk: it submits commands of that station, but no orders if the station may give none, and reads the
/// register. Contracts model it as the session.
#[derive(Drop)]
pub(crate) struct SessionDesk<'r, 'w, 't, K: Began, J: Centre, R: Wait, V: Watch> {
    rt: &'r R,
    watch: &'w V,
    text: &'t StationText<'t, 'r, R>,
    service: &'t ServiceFigures,
    /// Whether the station may give orders.
    orders: bool,
    session: Session<J>,
    of: PhantomData<K>,
}

impl<'r, 'w, 't, K: Began, J: Centre, R: Wait, V: Watch> Model
    for SessionDesk<'r, 'w, 't, K, J, R, V> {
    ghost use Rattle.std.specs.Prelude.{◌≡◌};
    ghost use Rattle.flusher.specs.declared.session.Session.{Session};
    ghost use Rattle.stations.specs.GoesOn.{GoesOn};

    ghost Value = { Session J };

    ghost view = { λ d. d.session };

    ghost invariant = { λ d. GoesOn K.may_order K.began d.session × (d.orders ≡ K.may_order) };
}

impl<'r, 'w, 't, K: Began, J: Centre, R: Wait, V: Watch> SessionDesk<'r, 'w, 't, K, J, R, V> {
    ghost use Rattle.std.specs.Prelude.{◌≡◌};
    ghost use Rattle.console.specs.Service.{with_result};
    ghost use Rattle.stations.specs.GoesOn.{GoesOn};

    /// This session as a desk. The watch is shown what it does.
    pub(crate) fn new(serving: &Serving<'r, 'w, 't, R, V>, session: Session<J>) -> Self
        requires goes_on { GoesOn K.may_order K.began session }
        requires orders { serving.now.orders ≡ K.may_order }
        ensures { result ≡ session }
    {
        SessionDesk {
            rt: serving.rt,
            watch: serving.watch,
            text: serving.text,
            service: serving.service,
            orders: serving.orders,
            session,
            of: PhantomData,
        }
    }

    // Shows the watch the answer to a command, and counts the reply, if there is one.
    fn show(&self, replied: &Result<Reply<Global>, Outage>, counts: &mut ReplyCounts)
        ensures { counts.new ≡ with_result counts.old replied.now }
    {
        let station = self.session.station();
        if let Ok(reply) = replied {
            counts.add(reply);
        }
        if is_failure(replied) {
            self.watch.before_failure(station);
        }
        self.watch.after_answer(station, accepts(replied));
    }

    /// The session.
    pub(crate) fn into_session(self) -> Session<J>
        ensures same { result ≡ self.entry }
        ensures goes_on { GoesOn K.may_order K.began result }
    {
        self.session
    }
}

// Whether the result is `device` or `broken`. Once the device has failed, a command is answered so.
fn is_failure(replied: &Result<Reply<Global>, Outage>) -> bool
    ensures { result ≡ is_failure replied.now }
{
    match replied {
        Err(Outage::Device) => true,
        Err(Outage::Broken) => true,
        _ => false,
    }
}

// Whether the answer accepts its command as a new one.
fn accepts(replied: &Result<Reply<Global>, Outage>) -> bool
    ensures { result ≡ accepts replied.now }
{
    match replied {
        Ok(reply) => reply.is_acceptance(),
        Err(_) => false,
    }
}

// The outage word for a fault.
fn word_of(fault: StoreFault) -> Outage
    ensures { result ≡ word_of fault }
{
    match fault {
        StoreFault::DiskFault => Outage::Device,
        StoreFault::NoMemory => Outage::Memory,
        StoreFault::EpochsUsedUp => Outage::Epochs,
        _ => Outage::Broken,
    }
}

// The reply in an answer, or the outage word in its place.
fn result_of<J: Centre>(answer: Answer<J>) -> Result<Reply<Global>, Outage>
    ensures { result ≡ result_of answer }
{
    match answer {
        Answer::Accepted {
            number,
            pdu,
            published: _,
        } => Ok(Reply::Accepted { number, pdu }),
        Answer::Kept { number, pdu } => Ok(Reply::Kept { number, pdu }),
        Answer::Refused(refusal) => Ok(Reply::Refused(refusal)),
        Answer::NoMemory => Err(Outage::Memory),
        Answer::Fault(fault) => Err(word_of(fault)),
        Answer::Closed => Err(Outage::Closed),
    }
}

// Whether a command is an order.
fn is_order(body: &Body<Global>) -> bool
    ensures { result ≡ is_order body.now }
{
    match body {
        Body::RuleSet { .. } => true,
        Body::RuleClear { .. } => true,
        Body::Expire => true,
        Body::Delete(_) => true,
        _ => false,
    }
}

// What commands are submitted with.
#[derive(Drop)]
struct Means<'r, R> {
    rt: &'r R,
    alloc: Global,
    // Whether the session's station may give orders.
    orders: bool,
}

// Whether a station may give a command: an order only if it may give orders.
fn is_allowed(orders: bool, command: &Command<Global>) -> bool
    ensures { result ≡ is_allowed orders command.now }
{
    orders || !is_order(&command.body)
}

// Submits a copy of a command, if it is of the session's station and the station may give it.
fn submit<J: Centre, R: Wait>(
    means: &Means<'_, R>,
    session: &mut Session<J>,
    command: &Command<Global>,
) -> Result<Reply<Global>, Outage>
    ensures applies { Applies J J.base means.now.orders (at_session session.old) command.now result (at_session session.new) }
    ensures short { IfOk result HasShortPdu }
    ensures session { KeepsSession session.old session.new }
{
    if command.station != session.station() {
        return Err(Outage::Closed);
    }
    if !is_allowed(means.orders, command) {
        return Err(Outage::Closed);
    }
    match command.try_copy(means.alloc) {
        Ok(own) => result_of(session.submit(means.rt, own)),
        Err(_) => Err(Outage::Memory),
    }
}

// Whether all of these commands are of this station, and the station may give each of them. `orders`: it may give orders.
fn are_of(station: Station, orders: bool, commands: &[Command<Global>]) -> bool
    ensures { IsTrue result → All (λ c. (c.station ≡ station) × (is_allowed orders c ≡ true)) commands.now }
{
    for k in 0..commands.len() {
        let command: &Command<Global> = &commands[k];
        if command.station != station {
            return false;
        }
        if !is_allowed(orders, command) {
            return false;
        }
    }
    true
}

// Room for the answers to commands of this station. `None` if memory runs out, or a command is of another station, or is an order that
// this station may not give.
fn room_for<J: Centre, R>(
    means: &Means<'_, R>,
    station: Station,
    commands: &[Command<Global>],
) -> Option<Vec<Answer<J>>>
    ensures station { IfSome result (λ answers. All (λ c. (c.station ≡ station) × (is_allowed means.now.orders c ≡ true)) commands.now) }
    ensures room { IfSome result (λ answers. length commands.now ≤ vec_capacity answers) }
{
    if !are_of(station, means.orders, commands) {
        return None;
    }
    match Vec::with_capacity(means.alloc, commands.len()) {
        Ok(answers) => Some(answers),
        Err(_) => None,
    }
}

// The replies in these answers, or the outage words in their place.
fn put_results<J: Centre>(answers: Vec<Answer<J>>, replies: &mut Vec<Result<Reply<Global>, Outage>>)
    requires none { replies.old.items ≡ [] }
    requires room { length answers.items ≤ vec_capacity replies.old }
    requires short { All HasShortAnswer answers.items }
    ensures added { replies.new.items ≡ map result_of answers.items }
    ensures short { All (λ reply. IfOk reply HasShortPdu) replies.new.items }
    ensures room { vec_capacity replies.new ≡ vec_capacity replies.old }
{
    for answer in answers {
        replies.push_reserved(result_of(answer));
    }
}

// Submits copies of commands one at a time.
fn submit_each<J: Centre, R: Wait>(
    means: &Means<'_, R>,
    session: &mut Session<J>,
    commands: &[Command<Global>],
    replies: &mut Vec<Result<Reply<Global>, Outage>>,
)
    requires none { replies.old.items ≡ [] }
    requires room { length commands.now ≤ vec_capacity replies.old }
    ensures applies { AreApplied (of_session J J.base means.now.orders) (at_session session.old) commands.now replies.new.items (at_session session.new) }
    ensures short { All (λ reply. IfOk reply HasShortPdu) replies.new.items }
    ensures room { vec_capacity replies.new ≡ vec_capacity replies.old }
    ensures session { KeepsSession session.old session.new }
{
    for k in 0..commands.len() {
        let reply = submit(means, session, &commands[k]);
        replies.push_reserved(reply);
    }
}

// Submits copies of commands together. If there is no memory for all answers, or one command is not to be submitted, they are
// submitted one at a time.
fn submit_all<J: Centre, R: Wait>(
    means: &Means<'_, R>,
    session: &mut Session<J>,
    commands: &[Command<Global>],
    replies: &mut Vec<Result<Reply<Global>, Outage>>,
)
    requires few { length commands.now ≤ session.old.share }
    requires room { length commands.now ≤ vec_capacity replies.old }
    ensures applies { AreApplied (of_session J J.base means.now.orders) (at_session session.old) commands.now replies.new.items (at_session session.new) }
    ensures short { All (λ reply. IfOk reply HasShortPdu) replies.new.items }
    ensures room { vec_capacity replies.new ≡ vec_capacity replies.old }
    ensures session { KeepsSession session.old session.new }
{
    replies.clear();
    let Some(mut answers) = room_for(means, session.station(), commands) else {
        submit_each(means, session, commands, replies);
        return;
    };
    session.submit_all(means.rt, commands, &mut answers);
    put_results(answers, replies);
}

// Reads what the register answers.
fn read<J: Centre>(
    session: &mut Session<J>,
    alloc: Global,
    query: &Query,
) -> Result<QueryAnswer<Global>, Outage>
    ensures answers { Answers J J.base (at_session session.old) query.now result (at_session session.new) }
    ensures session { SessionHasOnlyRead session.old session.new }
{
    match session.read(alloc, query) {
        Ok((query_answer, _)) => Ok(query_answer),
        Err(ReadFault::NoMemory) => Err(Outage::Memory),
        Err(ReadFault::Closed) => Err(Outage::Closed),
    }
}

impl<'r, 'w, 't, K: Began, J: Centre, R: Wait + Clock, V: Watch> Desk<Global>
    for SessionDesk<'r, 'w, 't, K, J, R, V> {
    ghost World = { AtSession };

    ghost world = { λ session. at_session session };

    ghost rules = { of_session J J.base K.may_order };

    ghost most = { λ session. session.share };

    fn most_together(&self) -> usize {
        self.session.share()
    }

    fn apply(&mut self, alloc: Global, command: &Command<Global>) -> Result<Reply<Global>, Outage> {
        let station = self.session.station();
        let service = self.service;
        service.set_waits(station, true);
        self.watch.before_entry(station);
        let means = Means {
            rt: self.rt,
            alloc,
            orders: self.orders,
        };
        let replied = submit(&means, &mut self.session, command);
        self.watch.after_entry(station);
        service.set_waits(station, false);
        let mut counts = ReplyCounts::new();
        self.show(&replied, &mut counts);
        service.add_replies(station, &counts);
        replied
    }

    fn apply_all(
        &mut self,
        alloc: Global,
        commands: &[Command<Global>],
        replies: &mut Vec<Result<Reply<Global>, Outage>>,
    ) {
        let station = self.session.station();
        let service = self.service;
        service.set_waits(station, true);
        self.watch.before_entry(station);
        let means = Means {
            rt: self.rt,
            alloc,
            orders: self.orders,
        };
        submit_all(&means, &mut self.session, commands, replies);
        self.watch.after_entry(station);
        service.set_waits(station, false);
        let mut counts = ReplyCounts::new();
        for k in 0..replies.len() {
            self.show(&replies[k], &mut counts);
        }
        service.add_replies(station, &counts);
    }

    fn query(&mut self, alloc: Global, query: &Query) -> Result<QueryAnswer<Global>, Outage> {
        let query_answer = read(&mut self.session, alloc, query);
        self.watch.after_answer(self.session.station(), false);
        query_answer
    }

    fn list(&mut self, listing: &Listing, out: &mut Vec<u8, Global>) -> Result<(), Outage> {
        let listed = list::<K, J, R>(self.text, &mut self.session, listing, out);
        self.watch.after_answer(self.session.station(), false);
        listed
    }
}
