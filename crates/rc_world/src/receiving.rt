// Messages come.
ghost use Rattle.std.specs.Prelude.{◌≡◌, [], false, None, IfOk, IfErr};
ghost use Rattle.rc_msg.specs.Spelling.{HasEnvelope};
ghost use Rattle.rc_runs.specs.declared.event.Event.{Event as AnyEvent};
ghost use Rattle.rc_runs.specs.declared.event.Event.TheVariants.{Deliver};
ghost use Rattle.rc_runs.specs.Refusals.{wrong, begins};
ghost use Rattle.rc_runs.specs.Session.{Session};
ghost use Rattle.rc_runs.specs.World.{deed, received, actor};
ghost use Rattle.rc_begin.specs.Hosts.{views};
ghost use Rattle.rc_world.specs.Words.{parts_of};
ghost use Rattle.rc_begin.specs.Hosts.{Runs, CoordsAreTold, ShardsAreTold};
ghost use Rattle.rc_world.specs.Steps.{IsDone};
ghost use Rattle.rc_world.specs.Limits.{CauseIs};
ghost use Rattle.rc_world.specs.Worlds.{IsWorld, HasActed, KeepsCarried, AreTold};

use crate::WorldFault;
use crate::mail::{message, wrong_delivery};
use crate::world::{Sending, World};
use rc_disk::{Disk, Farm};
use rc_host::Cause;
use rc_ids::Party;
use rc_log::{Journal, Log};
use rc_msg::Envelope;
use rc_report::{Lines, Wrong};

impl<F: Farm> World<F> {
    /// The party to which a message is sent does what it does at it.
    fn receive(&mut self, envelope: &Envelope, lines: &mut Lines) -> Result<Sending, WorldFault>
        requires lines { lines.old ≡ [] }
        ensures ok { (r : Runs) (z : Session) (e : AnyEvent) → IsWorld (views ⟦<Log<F::D> as Journal>⟧.state F.D.told F.D.content F.D.power) r (parts_of self.old) z
            → HasEnvelope envelope.now → IsDone z e → deed z.world.parties z.world.sent e ≡ received z.world.parties envelope.now envelope.now.to → actor z.world.sent e ≡ envelope.now.to → wrong z.world e ≡ None → begins e ≡ false
            → CoordsAreTold (views ⟦<Log<F::D> as Journal>⟧.state F.D.told F.D.content F.D.power).coords r (parts_of self.new).coords
            → ShardsAreTold (views ⟦<Log<F::D> as Journal>⟧.state F.D.told F.D.content F.D.power).shards r (parts_of self.new).shards
            → IfOk result (λ s. HasActed (views ⟦<Log<F::D> as Journal>⟧.state F.D.told F.D.content F.D.power) r z e (parts_of self.new) s.from s.sends lines.new) }
        ensures err { (r : Runs) (z : Session) (e : AnyEvent) → IsWorld (views ⟦<Log<F::D> as Journal>⟧.state F.D.told F.D.content F.D.power) r (parts_of self.old) z
            → HasEnvelope envelope.now → IsDone z e → deed z.world.parties z.world.sent e ≡ received z.world.parties envelope.now envelope.now.to → actor z.world.sent e ≡ envelope.now.to → wrong z.world e ≡ None → begins e ≡ false
            → CoordsAreTold (views ⟦<Log<F::D> as Journal>⟧.state F.D.told F.D.content F.D.power).coords r (parts_of self.new).coords
            → ShardsAreTold (views ⟦<Log<F::D> as Journal>⟧.state F.D.told F.D.content F.D.power).shards r (parts_of self.new).shards
            → IfErr result (CauseIs z e) }
        ensures carried { KeepsCarried (parts_of self.old) (parts_of self.new) }
        ensures grew { (r : Runs) → AreTold (views ⟦<Log<F::D> as Journal>⟧.state F.D.told F.D.content F.D.power) r (parts_of self.new) → AreTold (views ⟦<Log<F::D> as Journal>⟧.state F.D.told F.D.content F.D.power) r (parts_of self.old) }
    {
        match &envelope.to {
            Party::Client(tx) => self.hear(*tx, &envelope.msg, lines),
            Party::Node(node) => {
                self.node_does(node, &Cause::Came(envelope.from, &envelope.msg), lines)
            }
        }
    }

    /// A message is delivered, for the first time or again.
    pub(crate) fn deliver(&mut self, number: u32, lines: &mut Lines) -> Result<Sending, WorldFault>
        requires lines { lines.old ≡ [] }
        ensures ok { (r : Runs) (z : Session) → IsWorld (views ⟦<Log<F::D> as Journal>⟧.state F.D.told F.D.content F.D.power) r (parts_of self.old) z
            → CoordsAreTold (views ⟦<Log<F::D> as Journal>⟧.state F.D.told F.D.content F.D.power).coords r (parts_of self.new).coords
            → ShardsAreTold (views ⟦<Log<F::D> as Journal>⟧.state F.D.told F.D.content F.D.power).shards r (parts_of self.new).shards
            → IfOk result (λ s. HasActed (views ⟦<Log<F::D> as Journal>⟧.state F.D.told F.D.content F.D.power) r z (Deliver number) (parts_of self.new) s.from s.sends lines.new) }
        ensures err { (r : Runs) (z : Session) → IsWorld (views ⟦<Log<F::D> as Journal>⟧.state F.D.told F.D.content F.D.power) r (parts_of self.old) z
            → CoordsAreTold (views ⟦<Log<F::D> as Journal>⟧.state F.D.told F.D.content F.D.power).coords r (parts_of self.new).coords
            → ShardsAreTold (views ⟦<Log<F::D> as Journal>⟧.state F.D.told F.D.content F.D.power).shards r (parts_of self.new).shards
            → IfErr result (CauseIs z (Deliver number)) }
        ensures carried { KeepsCarried (parts_of self.old) (parts_of self.new) }
        ensures grew { (r : Runs) → AreTold (views ⟦<Log<F::D> as Journal>⟧.state F.D.told F.D.content F.D.power) r (parts_of self.new) → AreTold (views ⟦<Log<F::D> as Journal>⟧.state F.D.told F.D.content F.D.power) r (parts_of self.old) }
    {
        if let Some(name) = wrong_delivery(&self.net, number) {
            return Err(WorldFault::Naming(name));
        }
        match message(self.alloc, &self.net, number)? {
            Some(envelope) => self.receive(&envelope, lines),
            None => Err(WorldFault::Naming(Wrong::NotSent(number))),
        }
    }
}
