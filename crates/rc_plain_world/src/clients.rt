// Clients by their transactions.
ghost use Rattle.std.specs.Prelude.{◌≡◌, ◌++◌, [], Some, None, OnOk, IfOk, IfErr};
ghost use Rattle.std.specs.Ordering.{nat_cmp};
ghost use Rattle.rc_ids.specs.Tables.{found};
ghost use Rattle.rc_plain_client.specs.Acts.{Does};
ghost use Rattle.rc_protocol.specs.Client.{Client as ClientState};
ghost use Rattle.rc_runs.specs.World.{replaced};
ghost use Rattle.rc_plain_world.specs.Acted.{May, Wears};
ghost use Rattle.rc_plain_world.specs.Acted as acted;
ghost use Rattle.rc_plain_world.specs.declared.fault.ActFault.TheVariants.{NoMemory as OutOfMemory};

use crate::fault::ActFault;
use crate::network::message;
use rc_ids::{Cluster, TxId};
use rc_msg::{Envelope, Messages};
use rc_plain_client::Client;
use rc_report::Lines;
use rc_runs::Event;
use std::alloc::Global;
use std::collections::BTreeMap;

/// A client does its part in an event.
#[tactic(auto, using(crate::proofs::Taken::is_open_of, crate::proofs::Taken::has_room_of))]
fn client_act(
    client: &mut Client,
    cluster: &Cluster,
    tx: TxId,
    sent: &[Envelope],
    event: &Event,
    out: &mut Messages,
    lines: &mut Lines,
) -> Result<(), ActFault>
    requires { May sent.now event.now client.old }
    ensures done { OnOk result (Does (acted.client_part cluster.now tx sent.now event.now client.old) client.new out.old out.new lines.old lines.new) }
    ensures worn { IfErr result (λ e. Wears e (acted.client_part cluster.now tx sent.now event.now client.old)) }
{
    match event {
        Event::Read(_, key) => client.read(cluster, tx, key, out, lines)?,
        Event::Write(_, key, value) => client.write(key, value)?,
        Event::Commit(_) => client.commit(cluster, tx, out)?,
        Event::Cancel(_, key) => client.cancel(cluster, tx, key, out)?,
        Event::Retry(_) => client.retry(cluster, tx, out)?,
        Event::Vanish(_) => client.vanish(),
        Event::Deliver(number) => {
            if let Some(envelope) = message(sent, *number) {
                client.handle(cluster, tx, &envelope.msg, out, lines)?;
            }
        }
        _ => {}
    }
    Ok(())
}

/// The client of a transaction does its part in an event, if there is one.
pub(crate) fn client_acts(
    clients: &mut BTreeMap<TxId, Client>,
    alloc: Global,
    cluster: &Cluster,
    tx: TxId,
    sent: &[Envelope],
    event: &Event,
    lines: &mut Lines,
) -> Result<Messages, ActFault>
    requires { (x : ClientState) → found nat_cmp clients.old.entries tx ≡ Some x → May sent.now event.now x }
    ensures outside { IfOk result (λ out. found nat_cmp clients.old.entries tx ≡ None → (clients.new.entries ≡ clients.old.entries) × (out ≡ []) × (lines.new ≡ lines.old)) }
    ensures done { IfOk result (λ out. (x : ClientState) → found nat_cmp clients.old.entries tx ≡ Some x →
        let act = acted.client_part cluster.now tx sent.now event.now x in
        (clients.new.entries ≡ replaced clients.old.entries tx act.after) × (out ≡ act.sends) × (lines.new ≡ lines.old ++ act.lines) × (act.refused ≡ None)) }
    ensures worn { IfErr result (λ e. (x : ClientState) → found nat_cmp clients.old.entries tx ≡ Some x → Wears e (acted.client_part cluster.now tx sent.now event.now x)) }
    ensures outside_refused { IfErr result (λ e. found nat_cmp clients.old.entries tx ≡ None → e ≡ OutOfMemory) }
{
    let mut out = Messages::new(alloc);
    if let Some(client) = clients.get_mut(&tx) {
        client_act(client, cluster, tx, sent, event, &mut out, lines)?;
    }
    Ok(out)
}
