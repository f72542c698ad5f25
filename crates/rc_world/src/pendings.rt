// The pending messages of a world.
ghost use Rattle.std.specs.Prelude.{◌≡◌, ◌++◌, OnOk};
ghost use Rattle.rc_runs.specs.Script as script;
ghost use Rattle.rc_runs.specs.Session.{Session};
ghost use Rattle.rc_runs.specs.World.{World as WorldState};
ghost use Rattle.rc_begin.specs.Hosts.{Runs, views};
ghost use Rattle.rc_world.specs.Mail.{IsMail};
ghost use Rattle.rc_world.specs.Shown.{pending_line};
ghost use Rattle.rc_world.specs.Words.{parts_of};
ghost use Rattle.rc_world.specs.Worlds.{IsWorld};

use crate::mail;
use crate::world::World;
use rc_disk::{Disk, Farm};
use rc_ids::NoMemory;
use rc_log::{Journal, Log};
use rc_net::Net;
use rc_report::{Line, Lines};
use std::alloc::Global;

/// Adds the line of a pending message.
fn push_one(alloc: Global, net: &Net, number: u32, lines: &mut Lines) -> Result<(), NoMemory>
    ensures { (w : WorldState) → IsMail net.now w → OnOk result (lines.new ≡ lines.old ++ pending_line w.sent number) }
{
    match mail::message(alloc, net, number)? {
        Some(envelope) => lines.push(Line::Pending(number, envelope)),
        None => Ok(()),
    }
}

/// Adds a line for each pending message, in the order in which they were sent.
fn push_pending(alloc: Global, net: &Net, lines: &mut Lines) -> Result<(), NoMemory>
    ensures { (w : WorldState) → IsMail net.now w → OnOk result (lines.new ≡ lines.old ++ script.pending_lines w) }
{
    let mut next = net.oldest();
    while let Some(number) = next {
        push_one(alloc, net, number, lines)?;
        next = net.pending_after(number);
    }
    Ok(())
}

impl<F: Farm> World<F> {
    /// The oldest pending message.
    pub fn oldest(&self) -> Option<u32>
        ensures { (r : Runs) (z : Session) → IsWorld (views ⟦<Log<F::D> as Journal>⟧.state F.D.told F.D.content F.D.power) r (parts_of self.now) z → result ≡ script.oldest z.world }
    {
        mail::oldest(&self.net)
    }

    /// Adds a line for each pending message, in the order in which they were sent. Where there is no memory, some may have been added.
    pub fn pending(&self, lines: &mut Lines) -> Result<(), NoMemory>
        ensures { (r : Runs) (z : Session) → IsWorld (views ⟦<Log<F::D> as Journal>⟧.state F.D.told F.D.content F.D.power) r (parts_of self.now) z → OnOk result (lines.new ≡ lines.old ++ script.pending_lines z.world) }
    {
        push_pending(self.alloc, &self.net, lines)
    }
}
