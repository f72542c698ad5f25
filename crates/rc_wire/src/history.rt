// The history of a wire.
ghost use Rattle.std.specs.Prelude.{◌≡◌, []};

use crate::turn::Turn;
use std::alloc::Global;
use std::marker::Model;

/// What all parties of a wire did, in the order of their turns.
#[derive(Debug, Drop)]
pub struct History {
    turns: Vec<Turn>,
}

impl Model for History {
    ghost use Rattle.std.specs.Prelude.{List};
    ghost use Rattle.rc_wire.specs.declared.turn.Turn.{Turn as Entry};

    ghost Value = { List Entry };

    ghost view = { λ h. h.turns.items };
}

impl History {
    /// The history of a wire on which nothing was done.
    pub fn new(alloc: Global) -> History
        ensures { result ≡ [] }
    {
        History {
            turns: Vec::new(alloc),
        }
    }

    /// These entries.
    pub(crate) fn of(turns: Vec<Turn>) -> History
        ensures { result ≡ turns.items }
    {
        History { turns }
    }

    /// The entries, in order.
    pub fn turns(&self) -> &[Turn]
        ensures { result.now ≡ self.now }
    {
        self.turns.as_slice()
    }
}
