//! Answers to one session, over a channel with room for a fixed number of messages. It may wait for the other end, starts no thread, and
//! knows nothing of what the messages are.
//!
//! What the receiver has received, followed by what the channel holds, is what was sent. What the sender proved of a
//! message travels as a ghost field of the message's type.
#![tactic(auto)]

mod channel;
pub mod rule;

pub use channel::{AnswerReceiver, AnswerSender, open_channel};
