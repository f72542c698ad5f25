// What a party is about to send, as values.
ghost use Rattle.std.specs.Prelude.{◌≡◌, ◌==◌, [], ◌∷◌, ◌++◌, length, OnOk, OnErr};

use crate::Msg;
use rc_ids::{NoMemory, Party};
use std::alloc::Global;
use std::marker::Model;

/// The messages that a party is about to send, each with its receiver, in order. They are kept as values; an `Outbox` keeps
/// them as bytes.
#[derive(Drop)]
pub struct Messages {
    sends: Vec<(Party, Msg)>,
}

impl Model for Messages {
    ghost use Rattle.std.specs.Prelude.{List};
    ghost use Rattle.rc_ids.specs.declared.names.Party.{Party};
    ghost use Rattle.rc_msg.specs.declared.msg.Msg.{Msg};

    ghost Value = { List (Party × Msg) };

    ghost view = { λ o. o.sends.items };
}

impl Messages {
    /// Nothing to send.
    pub fn new(alloc: Global) -> Messages
        ensures { result ≡ [] }
    {
        Messages {
            sends: Vec::new(alloc),
        }
    }

    /// Adds a message at the end, or leaves all as before.
    pub fn push(&mut self, to: Party, msg: &Msg) -> Result<(), NoMemory>
        ensures ok { OnOk result (self.new ≡ self.old ++ (to, msg.now) ∷ []) }
        ensures err { OnErr result (self.new ≡ self.old) }
    {
        let msg = msg.copy()?;
        self.sends.push((to, msg))?;
        Ok(())
    }

    /// How many messages there are.
    pub fn len(&self) -> usize
        ensures { result ≡ length self.now }
    {
        self.sends.len()
    }

    /// Whether there is none.
    pub fn is_empty(&self) -> bool
        ensures { result ≡ (length self.now == 0) }
    {
        self.sends.is_empty()
    }

    /// The messages with their receivers, in order.
    pub fn into_sends(self) -> Vec<(Party, Msg)>
        ensures { result.items ≡ self }
    {
        self.sends
    }
}
