// Messages to be sent, as bytes.
ghost use Rattle.std.specs.Prelude.{◌≡◌, ◌<◌, ◌≤◌, [], ◌∷◌, ◌++◌, length, take, OnOk, OnErr, ◌==◌};
ghost use Rattle.std.specs.Option.{option_copied};
ghost use Rattle.std.specs.List.{slice_get};
ghost use Rattle.rc_ids.specs.Letters.{marked_at};

use crate::{Blob, NoMemory, Party};
use std::alloc::Global;
use std::marker::Model;

/// A message to be sent: to whom, its bytes, and a mark that the network keeps beside it.
#[derive(Debug, Drop)]
pub struct Letter {
    pub to: Party,
    pub bytes: Blob,
    pub mark: bool,
}

/// Messages to be sent, in order.
#[derive(Debug, Drop)]
pub struct Sends {
    items: Vec<Letter>,
}

impl Model for Sends {
    ghost use Rattle.std.specs.Prelude.{List};
    ghost use Rattle.rc_ids.specs.declared.sends.Letter.{Letter as Sent};

    ghost Value = { List Sent };

    ghost view = { λ s. s.items.items };
}

impl Sends {
    /// No messages.
    pub fn new(alloc: Global) -> Sends
        ensures { result ≡ [] }
    {
        Sends {
            items: Vec::new(alloc),
        }
    }

    /// Adds a message at the end, or leaves all as before.
    pub fn push(&mut self, letter: Letter) -> Result<(), NoMemory>
        ensures ok { OnOk result (self.new ≡ self.old ++ (letter ∷ [])) }
        ensures err { OnErr result (self.new ≡ self.old) }
    {
        self.items.push(letter)?;
        Ok(())
    }

    /// How many messages there are.
    pub fn len(&self) -> usize
        ensures { result ≡ length self.now }
    {
        self.items.len()
    }

    /// Whether there is no message.
    pub fn is_empty(&self) -> bool
        ensures { result ≡ (length self.now == 0) }
    {
        self.items.is_empty()
    }

    /// The message at a place, counted from 0.
    pub fn get(&self, place: usize) -> Option<&Letter>
        ensures { option_copied result ≡ slice_get self.now place }
    {
        self.items.get(place)
    }

    /// The messages.
    pub fn as_slice(&self) -> &[Letter]
        ensures { result.now ≡ self.now }
    {
        self.items.as_slice()
    }

    /// Keeps the first `len` messages.
    pub fn cut(&mut self, len: usize)
        requires { len ≤ length self.old }
        ensures { self.new ≡ take len self.old }
    {
        self.items.truncate(len);
    }

    /// Sets the mark of the message at a place, counted from 0. It takes no memory.
    pub fn set_mark(&mut self, place: usize, mark: bool)
        requires { place < length self.old }
        ensures { self.new ≡ marked_at self.old place mark }
    {
        let letter = &mut self.items[place];
        letter.mark = mark;
    }
}
