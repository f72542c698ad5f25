// Commands of clients.
ghost use Rattle.std.specs.Prelude.{◌≡◌, [], false, Some, None, IfOk, IfErr, OnOk};
ghost use Rattle.rc_runs.specs.declared.event.Event.TheVariants.{Begin};
ghost use Rattle.rc_runs.specs.Session.{Session};
ghost use Rattle.rc_ids.specs.declared.names.Party.TheVariants.{Client as ClientParty};
ghost use Rattle.rc_protocol.specs.Acts.{ClientCause, Hears};
ghost use Rattle.rc_runs.specs.declared.event.Event.{Event as AnyEvent};
ghost use Rattle.rc_runs.specs.Refusals.{wrong, begins};
ghost use Rattle.rc_runs.specs.World.{deed, client_does, actor};
ghost use Rattle.rc_begin.specs.Hosts.{views};
ghost use Rattle.rc_world.specs.Words.{parts_of};
ghost use Rattle.rc_world.specs.Clients.{command};
ghost use Rattle.rc_begin.specs.Hosts.{Runs};
ghost use Rattle.rc_world.specs.Steps.{IsDone, event_limit};
ghost use Rattle.rc_world.specs.Limits.{CauseIs};
ghost use Rattle.rc_world.specs.Worlds.{IsWorld, HasActed, KeepsCarried, AreTold};

use crate::WorldFault;
use crate::clients::Refused;
use crate::world::{Sending, World};
use rc_disk::{Disk, Farm};
use rc_ids::{Party, Sends, TxId};
use rc_log::{Journal, Log};
use rc_msg::{Msg, Outbox};
use rc_report::{Lines, Which, Wrong};
use rc_runs::Event;

/// The most transactions that are begun in a run.
const MOST_TRANSACTIONS: usize = 1024;

/// The most events of a run.
const MOST_EVENTS: u32 = 2_000_000;

impl<F: Farm> World<F> {
    /// The limit of events, where one more would pass it.
    pub(crate) fn event_limit(&self) -> Result<(), WorldFault>
        ensures ok { OnOk result (event_limit (parts_of self.now).events ≡ None) }
        ensures err { IfErr result (λ fault. (which : _) × (fault ≡ WorldFault.Limit which) × (event_limit (parts_of self.now).events ≡ Some which)) }
    {
        if self.events >= MOST_EVENTS {
            return Err(WorldFault::Limit(Which::Events));
        }
        Ok(())
    }

    /// A transaction begins with a new client.
    pub(crate) fn begin(&mut self, tx: TxId) -> Result<Sending, WorldFault>
        ensures ok { (r : Runs) (z : Session) → IsWorld (views ⟦<Log<F::D> as Journal>⟧.state F.D.told F.D.content F.D.power) r (parts_of self.old) z
            → IfOk result (λ s. HasActed (views ⟦<Log<F::D> as Journal>⟧.state F.D.told F.D.content F.D.power) r z (Begin tx) (parts_of self.new) s.from s.sends []) }
        ensures err { (r : Runs) (z : Session) → IsWorld (views ⟦<Log<F::D> as Journal>⟧.state F.D.told F.D.content F.D.power) r (parts_of self.old) z
            → IfErr result (CauseIs z (Begin tx)) }
        ensures carried { KeepsCarried (parts_of self.old) (parts_of self.new) }
        ensures grew { (r : Runs) → AreTold (views ⟦<Log<F::D> as Journal>⟧.state F.D.told F.D.content F.D.power) r (parts_of self.new) → AreTold (views ⟦<Log<F::D> as Journal>⟧.state F.D.told F.D.content F.D.power) r (parts_of self.old) }
    {
        if self.clients.is_begun(tx) {
            return Err(WorldFault::Naming(Wrong::BegunTwice(tx)));
        }
        if self.clients.count() >= MOST_TRANSACTIONS {
            return Err(WorldFault::Limit(Which::Transactions));
        }
        self.event_limit()?;
        self.clients.begin(self.alloc, tx)?;
        Ok(Sending {
            from: Party::Client(tx),
            sends: Sends::new(self.alloc),
        })
    }

    /// A client takes a command.
    pub(crate) fn command(
        &mut self,
        tx: TxId,
        event: &Event,
        lines: &mut Lines,
    ) -> Result<Sending, WorldFault>
        requires lines { lines.old ≡ [] }
        ensures ok { (r : Runs) (z : Session) (cause : ClientCause) → IsWorld (views ⟦<Log<F::D> as Journal>⟧.state F.D.told F.D.content F.D.power) r (parts_of self.old) z → command event.now ≡ Some (tx, cause)
            → IfOk result (λ s. HasActed (views ⟦<Log<F::D> as Journal>⟧.state F.D.told F.D.content F.D.power) r z event.now (parts_of self.new) s.from s.sends lines.new) }
        ensures err { (r : Runs) (z : Session) (cause : ClientCause) → IsWorld (views ⟦<Log<F::D> as Journal>⟧.state F.D.told F.D.content F.D.power) r (parts_of self.old) z → command event.now ≡ Some (tx, cause)
            → IfErr result (CauseIs z event.now) }
        ensures carried { KeepsCarried (parts_of self.old) (parts_of self.new) }
        ensures grew { (r : Runs) → AreTold (views ⟦<Log<F::D> as Journal>⟧.state F.D.told F.D.content F.D.power) r (parts_of self.new) → AreTold (views ⟦<Log<F::D> as Journal>⟧.state F.D.told F.D.content F.D.power) r (parts_of self.old) }
    {
        let mut out = Outbox::new(self.alloc, Party::Client(tx));
        match self.clients.obey(&self.cluster, event, &mut out, lines) {
            Ok(()) => {}
            Err(Refused::NoMemory) => return Err(WorldFault::NoMemory),
            Err(Refused::Naming(name)) => return Err(WorldFault::Naming(name)),
            Err(Refused::VersionSpent) => {
                self.event_limit()?;
                return Err(WorldFault::Limit(Which::Version));
            }
        }
        self.event_limit()?;
        Ok(Sending {
            from: Party::Client(tx),
            sends: out.into_sends(),
        })
    }

    /// A client hears a message; nobody does where there is no such client.
    pub(crate) fn hear(
        &mut self,
        tx: TxId,
        msg: &Msg,
        lines: &mut Lines,
    ) -> Result<Sending, WorldFault>
        requires lines { lines.old ≡ [] }
        ensures ok { (r : Runs) (z : Session) (e : AnyEvent) → IsWorld (views ⟦<Log<F::D> as Journal>⟧.state F.D.told F.D.content F.D.power) r (parts_of self.old) z
            → IsDone z e → deed z.world.parties z.world.sent e ≡ client_does z.world.parties tx (Hears msg.now) → actor z.world.sent e ≡ ClientParty tx → wrong z.world e ≡ None → begins e ≡ false
            → IfOk result (λ s. HasActed (views ⟦<Log<F::D> as Journal>⟧.state F.D.told F.D.content F.D.power) r z e (parts_of self.new) s.from s.sends lines.new) }
        ensures err { (r : Runs) (z : Session) (e : AnyEvent) → IsWorld (views ⟦<Log<F::D> as Journal>⟧.state F.D.told F.D.content F.D.power) r (parts_of self.old) z
            → IsDone z e → deed z.world.parties z.world.sent e ≡ client_does z.world.parties tx (Hears msg.now) → actor z.world.sent e ≡ ClientParty tx → wrong z.world e ≡ None → begins e ≡ false
            → IfErr result (CauseIs z e) }
        ensures carried { KeepsCarried (parts_of self.old) (parts_of self.new) }
        ensures grew { (r : Runs) → AreTold (views ⟦<Log<F::D> as Journal>⟧.state F.D.told F.D.content F.D.power) r (parts_of self.new) → AreTold (views ⟦<Log<F::D> as Journal>⟧.state F.D.told F.D.content F.D.power) r (parts_of self.old) }
    {
        let mut out = Outbox::new(self.alloc, Party::Client(tx));
        match self.clients.hear(&self.cluster, tx, msg, &mut out, lines) {
            Ok(()) => {}
            Err(Refused::NoMemory) => return Err(WorldFault::NoMemory),
            Err(Refused::Naming(name)) => return Err(WorldFault::Naming(name)),
            Err(Refused::VersionSpent) => {
                self.event_limit()?;
                return Err(WorldFault::Limit(Which::Version));
            }
        }
        self.event_limit()?;
        Ok(Sending {
            from: Party::Client(tx),
            sends: out.into_sends(),
        })
    }
}
