// Where a party stands.
ghost use Rattle.std.specs.Prelude.{◌≡◌, not, ◌&&◌, ◌+◌, ◌<◌, ◌++◌, length, List, vec_len, vec_capacity};
ghost use Rattle.rc_ids.specs.declared.sends.Letter.{Letter as Sent};
ghost use Rattle.rc_wire.specs.declared.turn.Act.TheVariants.{Posted as Posting};
ghost use Rattle.rc_wire.specs.Parties.{is_client as is_of_client};
ghost use Rattle.rc_wire.specs.Standings.{after as standing_after, is_still as is_desk_still, stood, noted};

use crate::turn::{Act, StepEnd, Turn};
use rc_ids::Party;
use rc_net::same_party;

/// Where a party stands, by its own entries.
#[derive(Clone, Copy, Debug)]
pub struct Standing {
    /// The message that it took and has not answered by a post.
    pub unanswered: Option<u32>,
    /// From its post `Stopped` to its post `Restarted`.
    pub stopped: bool,
    pub waiting: bool,
    pub ended: bool,
    pub halted: bool,
}

/// A party, and where it stands.
#[derive(Debug, Drop)]
pub struct Desk {
    pub party: Party,
    pub standing: Standing,
}

fn is_client(party: &Party) -> bool
    ensures { result ≡ is_of_client party.now }
{
    match party {
        Party::Node(_) => false,
        Party::Client(_) => true,
    }
}

impl Standing {
    /// Where a party stands that did nothing yet.
    pub const AT_FIRST: Standing = Standing {
        unanswered: None,
        stopped: false,
        waiting: false,
        ended: false,
        halted: false,
    };

    /// Where it stands after a post that ends so.
    fn after_post(self, end: StepEnd) -> Standing
        ensures { (sends : List Sent) → result ≡ standing_after self (Posting end sends) }
    {
        let stopped = match end {
            StepEnd::Handled | StepEnd::Idle => self.stopped,
            StepEnd::Stopped => true,
            StepEnd::Restarted { kept: _ } => false,
        };
        Standing {
            unanswered: None,
            stopped,
            waiting: false,
            ..self
        }
    }

    /// Whether a rest would change nothing: the party waits already.
    pub fn is_at_rest(&self, ended: bool) -> bool
        ensures { result ≡ (not ended && self.now.waiting) }
    {
        !ended && self.waiting
    }

    /// Where it stands after this.
    pub fn after(self, act: &Act) -> Standing
        ensures { result ≡ standing_after self act.now }
    {
        match act {
            Act::Took(number) => Standing {
                unanswered: Some(*number),
                waiting: false,
                ..self
            },
            Act::Posted { end, sends: _ } => self.after_post(*end),
            Act::Rested { ended: true } => Standing {
                ended: true,
                ..self
            },
            Act::Rested { ended: false } => Standing {
                waiting: true,
                ..self
            },
            Act::Halted(_) => Standing {
                halted: true,
                ..self
            },
        }
    }
}

impl Desk {
    /// Whether no step is open, the party is not stopped, and a client waits or has ended.
    pub fn is_still(&self) -> bool
        ensures { result ≡ is_desk_still self.now }
    {
        let standing = &self.standing;
        standing.unanswered.is_none()
            && !standing.stopped
            && (!is_client(&self.party) || standing.waiting || standing.ended)
    }
}

/// Writes what the party at this place did at the end of the history, and where it stands then. There is room.
pub fn note(desks: &mut [Desk], turns: &mut Vec<Turn>, place: usize, act: Act)
    requires there { place < length desks.old }
    requires room { vec_len turns.old < vec_capacity turns.old }
    ensures desks { desks.new ≡ stood desks.old place act }
    ensures turns { turns.new.items ≡ turns.old.items ++ noted desks.old place act }
    ensures len { vec_len turns.new ≡ vec_len turns.old + 1 }
    ensures capacity { vec_capacity turns.new ≡ vec_capacity turns.old }
{
    let desk = &mut desks[place];
    desk.standing = desk.standing.after(&act);
    let party = same_party(&desk.party);
    turns.push_reserved(Turn { party, act });
}
