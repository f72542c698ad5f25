// A message comes.
ghost use Rattle.std.specs.Prelude.{◌≡◌, ◌==◌, ◌&&◌, true, false, IsOk, OnOk, IfErr, IsErrOf};
ghost use Rattle.rc_ids.specs.Cluster as cluster_spec;
ghost use Rattle.rc_protocol.specs.Client.{on_granted, client_row, counts_refusal};
ghost use Rattle.rc_client.specs.declared.fault.ClientFault.TheVariants.{NotOpen};
ghost use Rattle.rc_client.specs.Acts.{Acts, Fails, IsOf, needs_none};
ghost use Rattle.rc_client.specs.Slots.{wants_at};
ghost use Rattle.rc_client.specs.States.{client_of, core_of, site_of};

use crate::fault::ClientFault;
use crate::granting::take_grant;
use crate::grants::copied_value;
use crate::progress::Progress;
use crate::voting::{learn, refuse, vote};
use rc_ids::{Ballot, Cluster, DcId, Key, TxId};
use rc_msg::{Msg, Outbox};
use rc_read::Grant;
use rc_report::Lines;

/// Whether the datacentre is of the world.
fn is_dc(cluster: &Cluster, dc: DcId) -> bool
    ensures { result ≡ cluster_spec.is_dc cluster.now dc }
{
    1 <= dc.0 && dc.0 <= cluster.dcs()
}

/// Whether a message is of this transaction, and of a datacentre of the world.
fn concerns(cluster: &Cluster, tx: TxId, of: TxId, dc: DcId) -> bool
    ensures { result ≡ ((of == tx) && cluster_spec.is_dc cluster.now dc) }
{
    of == tx && is_dc(cluster, dc)
}

/// Whether a grant of the datacentre counts.
fn wants(progress: &Progress, key: &Key, dc: DcId) -> bool
    ensures { result ≡ wants_at (client_of progress.now) key.now dc }
{
    progress.phase.reads_on() && progress.slots.want_grant(key, dc)
}

/// Whether a refusal of the ballot counts: it is the client's own ballot, and the first refusal of the datacentre.
fn counts(progress: &Progress, ballot: Ballot, dc: DcId) -> bool
    ensures { result ≡ counts_refusal (client_of progress.now) ballot dc }
{
    ballot.0 == 0 && progress.phase.is_proposed() && !progress.refusals.has(dc)
}

/// Whether the message changes nothing.
fn is_ignored(cluster: &Cluster, progress: &Progress, msg: &Msg) -> bool
    ensures { result ≡ needs_none cluster.now progress.now.tx (client_of progress.now) msg.now }
{
    match msg {
        Msg::Granted(of, key, dc, _, _) => {
            !(concerns(cluster, progress.tx, *of, *dc) && wants(progress, key, *dc))
        }
        Msg::Voted(of, _, dc, _) => {
            !concerns(cluster, progress.tx, *of, *dc) || progress.phase.is_over()
        }
        Msg::Refused(of, ballot, dc, _) => {
            !(concerns(cluster, progress.tx, *of, *dc) && counts(progress, *ballot, *dc))
        }
        Msg::Decided(of, _) => *of != progress.tx || progress.phase.is_over(),
        _ => true,
    }
}

/// The row of a message. An ignored one takes no memory.
pub(crate) fn hear(
    cluster: &Cluster,
    progress: &mut Progress,
    msg: &Msg,
    out: &mut Outbox,
    lines: &mut Lines,
) -> Result<(), ClientFault>
    requires { IsOf cluster.now (core_of progress.old) }
    ensures ok { OnOk result (Acts (site_of progress.old out.old lines.old) (site_of progress.new out.new lines.new) (client_row cluster.now progress.old.tx (client_of progress.old) msg.now)) }
    ensures err { IfErr result (λ fault. Fails fault (site_of progress.old out.old lines.old) (site_of progress.new out.new lines.new) (client_row cluster.now progress.old.tx (client_of progress.old) msg.now)) }
    ensures open { IsErrOf result NotOpen → ⊥ }
    ensures of { IsOf cluster.now (core_of progress.new) }
    ensures ignored { needs_none cluster.now progress.old.tx (client_of progress.old) msg.now ≡ true → IsOk result }
{
    if is_ignored(cluster, progress, msg) {
        return Ok(());
    }
    match msg {
        Msg::Granted(_, key, dc, version, value) => {
            let grant = Grant {
                dc: *dc,
                version: *version,
                value: copied_value(value)?,
            };
            take_grant(cluster, progress, key, grant, out, lines)
        }
        Msg::Voted(_, ballot, dc, decision) => {
            vote(cluster, progress, *ballot, *dc, decision, lines)?;
            Ok(())
        }
        Msg::Refused(_, ballot, dc, reason) => {
            refuse(cluster, progress, *ballot, *dc, reason, out, lines)?;
            Ok(())
        }
        Msg::Decided(_, decision) => {
            learn(progress, decision, lines)?;
            Ok(())
        }
        _ => Ok(()),
    }
}
