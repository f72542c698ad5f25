// What a party is about to send, as bytes.
ghost use Rattle.std.specs.Prelude.{◌≡◌, ◌≤◌, ◌==◌, [], length, take, OnOk, OnErr};
ghost use Rattle.rc_msg.specs.Outboxes.{new_outbox, posted};
ghost use Rattle.rc_msg.specs.Outboxes as outboxes;

use crate::Msg;
use crate::writing::spelled;
use rc_ids::{Letter, NoMemory, Party, Sends};
use std::alloc::Global;
use std::marker::Model;

/// The messages that a party is about to send, each with its receiver, in order. Each is kept as its one spelling, with that
/// sender.
#[derive(Drop)]
pub struct Outbox {
    alloc: Global,
    from: Party,
    letters: Sends,
}

impl Model for Outbox {
    ghost use Rattle.rc_msg.specs.Outboxes.{Outbox as State};

    ghost Value = { State };

    ghost view = { λ o. record { from = o.from; letters = o.letters } };
}

impl Outbox {
    /// Nothing to send by this party.
    pub fn new(alloc: Global, from: Party) -> Outbox
        ensures { result ≡ new_outbox from }
    {
        Outbox {
            alloc,
            from,
            letters: Sends::new(alloc),
        }
    }

    /// Adds a message at the end, or leaves all as before.
    pub fn push(&mut self, to: Party, msg: &Msg) -> Result<(), NoMemory>
        ensures ok { OnOk result (self.new ≡ posted self.old to msg.now) }
        ensures err { OnErr result (self.new ≡ self.old) }
    {
        let bytes = spelled(self.alloc, &self.from, &to, msg)?;
        self.letters.push(Letter {
            to,
            bytes,
            mark: true,
        })?;
        Ok(())
    }

    /// How many messages there are.
    pub fn len(&self) -> usize
        ensures { result ≡ length self.now.letters }
    {
        self.letters.len()
    }

    /// Whether there is none.
    pub fn is_empty(&self) -> bool
        ensures { result ≡ (length self.now.letters == 0) }
    {
        self.letters.is_empty()
    }

    /// Keeps the first `len` messages.
    pub fn cut(&mut self, len: usize)
        requires { len ≤ length self.old.letters }
        ensures { self.new ≡ outboxes.cut self.old len }
    {
        self.letters.cut(len);
    }

    /// The messages, as a network takes them.
    pub fn into_sends(self) -> Sends
        ensures { result ≡ self.letters }
    {
        self.letters
    }
}
