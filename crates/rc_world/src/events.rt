// One event on a world.
ghost use Rattle.std.specs.Prelude.{◌≡◌, ◌<◌, [], IfOk, OnOk, IfErr};
ghost use Rattle.rc_grammar.specs.Worlds.{HasEvent};
ghost use Rattle.rc_runs.specs.Session.{Session};
ghost use Rattle.rc_begin.specs.Hosts.{views};
ghost use Rattle.rc_world.specs.Words.{parts_of};
ghost use Rattle.rc_world.specs.Asked.{IsCut};
ghost use Rattle.rc_begin.specs.Hosts.{Runs};
ghost use Rattle.rc_world.specs.Limits.{CauseIs};
ghost use Rattle.rc_world.specs.Worlds.{IsWorld, HasActed, HasStepped, KeepsCarried, KeepsParties, AreTold};

use crate::WorldFault;
use crate::world::{Sending, World};
use rc_disk::{Disk, Farm};
use rc_ids::NoMemory;
use rc_log::{Journal, Log};
use rc_report::Lines;
use rc_runs::Event;

impl<F: Farm> World<F> {
    /// Makes room for what one party sends in one event.
    fn room(&mut self) -> Result<(), NoMemory>
        ensures ok { OnOk result (0 < self.new.net.spare) }
        ensures is { (r : Runs) (z : Session) → IsWorld (views ⟦<Log<F::D> as Journal>⟧.state F.D.told F.D.content F.D.power) r (parts_of self.old) z → IsWorld (views ⟦<Log<F::D> as Journal>⟧.state F.D.told F.D.content F.D.power) r (parts_of self.new) z }
        ensures parties { KeepsParties (parts_of self.old) (parts_of self.new) }
    {
        self.net.room()
    }

    /// The party that acts in the event does so.
    fn act(&mut self, event: &Event, lines: &mut Lines) -> Result<Sending, WorldFault>
        requires cut { IsCut event.now }
        requires lines { lines.old ≡ [] }
        ensures ok { (r : Runs) (z : Session) → IsWorld (views ⟦<Log<F::D> as Journal>⟧.state F.D.told F.D.content F.D.power) r (parts_of self.old) z → HasEvent event.now
            → AreTold (views ⟦<Log<F::D> as Journal>⟧.state F.D.told F.D.content F.D.power) r (parts_of self.new)
            → IfOk result (λ s. HasActed (views ⟦<Log<F::D> as Journal>⟧.state F.D.told F.D.content F.D.power) r z event.now (parts_of self.new) s.from s.sends lines.new) }
        ensures err { (r : Runs) (z : Session) → IsWorld (views ⟦<Log<F::D> as Journal>⟧.state F.D.told F.D.content F.D.power) r (parts_of self.old) z → HasEvent event.now
            → AreTold (views ⟦<Log<F::D> as Journal>⟧.state F.D.told F.D.content F.D.power) r (parts_of self.new)
            → IfErr result (CauseIs z event.now) }
        ensures carried { KeepsCarried (parts_of self.old) (parts_of self.new) }
        ensures grew { (r : Runs) → AreTold (views ⟦<Log<F::D> as Journal>⟧.state F.D.told F.D.content F.D.power) r (parts_of self.new) → AreTold (views ⟦<Log<F::D> as Journal>⟧.state F.D.told F.D.content F.D.power) r (parts_of self.old) }
    {
        match event {
            Event::Begin(tx) => self.begin(*tx),
            Event::Take(dc, tx) => self.take(*dc, *tx, lines),
            Event::Catch(node) => self.catch(node, lines),
            Event::Deliver(number) => self.deliver(*number, lines),
            Event::Lose(number) => self.lose(*number),
            Event::Crash(node) => self.crash(node, lines),
            Event::CrashAt { node, k, pick } => self.arm(node, u64::from(*k), *pick),
            Event::Restart(node) => self.restart(node, lines),
            Event::Read(tx, _) => self.command(*tx, event, lines),
            Event::Write(tx, _, _) => self.command(*tx, event, lines),
            Event::Commit(tx) => self.command(*tx, event, lines),
            Event::Cancel(tx, _) => self.command(*tx, event, lines),
            Event::Retry(tx) => self.command(*tx, event, lines),
            Event::Vanish(tx) => self.command(*tx, event, lines),
        }
    }

    /// One event happens: what its party does is done, what it sends is sent, and the lines that it prints come back. Each row of the
    /// protocol's table is one such event.
    pub fn step(&mut self, event: &Event) -> Result<Lines, WorldFault>
        requires { IsCut event.now }
        ensures ok { (r : Runs) (z : Session) → IsWorld (views ⟦<Log<F::D> as Journal>⟧.state F.D.told F.D.content F.D.power) r (parts_of self.old) z → HasEvent event.now
            → AreTold (views ⟦<Log<F::D> as Journal>⟧.state F.D.told F.D.content F.D.power) r (parts_of self.new)
            → IfOk result (λ lines. HasStepped (views ⟦<Log<F::D> as Journal>⟧.state F.D.told F.D.content F.D.power) r z event.now (parts_of self.new) lines) }
        ensures err { (r : Runs) (z : Session) → IsWorld (views ⟦<Log<F::D> as Journal>⟧.state F.D.told F.D.content F.D.power) r (parts_of self.old) z → HasEvent event.now
            → AreTold (views ⟦<Log<F::D> as Journal>⟧.state F.D.told F.D.content F.D.power) r (parts_of self.new)
            → IfErr result (CauseIs z event.now) }
        ensures cluster { (parts_of self.new).cluster ≡ (parts_of self.old).cluster }
        ensures grew { (r : Runs) → AreTold (views ⟦<Log<F::D> as Journal>⟧.state F.D.told F.D.content F.D.power) r (parts_of self.new) → AreTold (views ⟦<Log<F::D> as Journal>⟧.state F.D.told F.D.content F.D.power) r (parts_of self.old) }
    {
        self.room()?;
        let mut lines = Lines::new(self.alloc);
        let sending = self.act(event, &mut lines)?;
        self.send(event, sending)?;
        Ok(lines)
    }
}
