// What an event sends is sent.
ghost use Rattle.std.specs.Prelude.{◌≡◌, ◌<◌, ◌^◌, ℕ, List, [], length, None, IfOk, IfErr, OnOk};
ghost use Rattle.rc_report.specs.declared.line.Line.{Line};
ghost use Rattle.rc_grammar.specs.Worlds.{HasEvent};
ghost use Rattle.rc_runs.specs.declared.event.Event.TheVariants.{Deliver, Lose};
ghost use Rattle.rc_runs.specs.Session.{Session};
ghost use Rattle.rc_runs.specs.World.{World as WorldState, at_deed, delivered_after};
ghost use Rattle.rc_runs.specs.Refusals.{wrong};
ghost use Rattle.rc_begin.specs.Hosts.{views};
ghost use Rattle.rc_world.specs.Words.{parts_of};
ghost use Rattle.rc_begin.specs.Hosts.{Runs};
ghost use Rattle.rc_world.specs.Mail.{IsMail};
ghost use Rattle.rc_world.specs.Worlds.{IsCarried, IsWorld, HasActed, HasStepped, KeepsParties};
ghost use Rattle.rc_world.specs.Limits.{LimitIs, RefusalIs};

use crate::world::{Sending, World};
use crate::{WorldFault, mail};
use rc_disk::{Disk, Farm};
use rc_grammar::worlds_speak;
use rc_ids::{Party, Sends, TxId};
use rc_log::{Journal, Log};
use rc_net::Net;
use rc_runs::Event;

/// What the event delivers is pending no longer.
fn settle_delivery(net: &mut Net, number: u32)
    ensures mail { (w : WorldState) → IsMail net.old w → wrong w (Deliver number) ≡ None → IsMail net.new (at_deed w (Deliver number)) }
    ensures sent { net.new.sent ≡ net.old.sent }
    ensures spare { net.new.spare ≡ net.old.spare }
{
    match mail::wrong_delivery(net, number) {
        None => mail::deliver(net, number),
        Some(_) => {}
    }
}

/// What the event loses is pending no longer.
fn settle_loss(net: &mut Net, number: u32)
    ensures mail { (w : WorldState) → IsMail net.old w → wrong w (Lose number) ≡ None → IsMail net.new (at_deed w (Lose number)) }
    ensures sent { net.new.sent ≡ net.old.sent }
    ensures spare { net.new.spare ≡ net.old.spare }
{
    match mail::wrong_loss(net, number) {
        None => mail::lose(net, number),
        Some(_) => {}
    }
}

/// What the event delivers or loses is pending no longer.
fn settle(net: &mut Net, event: &Event)
    ensures mail { (w : WorldState) → IsMail net.old w → wrong w event.now ≡ None → IsMail net.new (at_deed w event.now) }
    ensures sent { net.new.sent ≡ net.old.sent }
    ensures spare { net.new.spare ≡ net.old.spare }
{
    match event {
        Event::Deliver(number) => settle_delivery(net, *number),
        Event::Lose(number) => settle_loss(net, *number),
        _ => {}
    }
}

/// How often messages were delivered, with the event.
fn deliveries_after(deliveries: u64, event: &Event) -> u64
    ensures { (delivered : List ℕ) → deliveries ≡ length delivered → length delivered < 2 ^ 32 → result ≡ length (delivered_after delivered event.now) }
{
    match event {
        Event::Deliver(_) => deliveries.saturating_add(1),
        _ => deliveries,
    }
}

impl<F: Farm> World<F> {
    /// What the event delivers or loses is pending no longer, and what its party sends is sent, if it passes no limit.
    pub(crate) fn send(&mut self, event: &Event, sending: Sending) -> Result<(), WorldFault>
        requires room { 0 < self.old.net.spare }
        ensures ok { (r : Runs) (z : Session) (own : List Line) → IsCarried (parts_of self.old) z.world → HasEvent event.now
            → HasActed (views ⟦<Log<F::D> as Journal>⟧.state F.D.told F.D.content F.D.power) r z event.now (parts_of self.old) sending.from sending.sends own
            → OnOk result (HasStepped (views ⟦<Log<F::D> as Journal>⟧.state F.D.told F.D.content F.D.power) r z event.now (parts_of self.new) own) }
        ensures err { (r : Runs) (z : Session) (own : List Line) → IsCarried (parts_of self.old) z.world → HasEvent event.now
            → HasActed (views ⟦<Log<F::D> as Journal>⟧.state F.D.told F.D.content F.D.power) r z event.now (parts_of self.old) sending.from sending.sends own
            → IfErr result (LimitIs z event.now) }
        ensures kept { KeepsParties (parts_of self.old) (parts_of self.new) }
    {
        if let Some(which) = mail::limit(&self.net, &sending.sends) {
            return Err(WorldFault::Limit(which));
        }
        worlds_speak();
        settle(&mut self.net, event);
        mail::post(&mut self.net, sending.from, sending.sends);
        self.events = self.events.saturating_add(1);
        self.deliveries = deliveries_after(self.deliveries, event);
        Ok(())
    }

    /// A pending message is to be lost: nobody acts. Nothing is sent, so it does not matter from whom.
    pub(crate) fn lose(&self, number: u32) -> Result<Sending, WorldFault>
        ensures ok { (r : Runs) (z : Session) → IsWorld (views ⟦<Log<F::D> as Journal>⟧.state F.D.told F.D.content F.D.power) r (parts_of self.now) z
            → IfOk result (λ s. HasActed (views ⟦<Log<F::D> as Journal>⟧.state F.D.told F.D.content F.D.power) r z (Lose number) (parts_of self.now) s.from s.sends []) }
        ensures err { (r : Runs) (z : Session) → IsWorld (views ⟦<Log<F::D> as Journal>⟧.state F.D.told F.D.content F.D.power) r (parts_of self.now) z → IfErr result (RefusalIs z (Lose number)) }
    {
        if let Some(name) = mail::wrong_loss(&self.net, number) {
            return Err(WorldFault::Naming(name));
        }
        self.event_limit()?;
        Ok(Sending {
            from: Party::Client(TxId(1)),
            sends: Sends::new(self.alloc),
        })
    }
}
