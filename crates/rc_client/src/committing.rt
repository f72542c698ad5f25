// The commit of a transaction.
ghost use Rattle.std.specs.Prelude.{◌≡◌, [], true, false, OnOk, OnErr, IfErr, IsErrOf};
ghost use Rattle.rc_body.specs.declared.decision.Decision.TheVariants.{Commit};
ghost use Rattle.rc_msg.specs.Posts.{posted_all, Grows};
ghost use Rattle.rc_msg.specs.declared.msg.Msg.TheVariants.{Propose};
ghost use Rattle.rc_protocol.specs.Messages.{to_all};
ghost use Rattle.rc_protocol.specs.Client.{is_open, is_worn, body_of, waits_for_read, reads_begun, proposes, proposes_once_read, do_commit};
ghost use Rattle.rc_client.specs.declared.fault.ClientFault.TheVariants.{NotOpen, NoMemory as OutOfMemory};
ghost use Rattle.rc_client.specs.Acts.{Acts, Fails};
ghost use Rattle.rc_client.specs.Phases.{phase_of};
ghost use Rattle.rc_client.specs.States.{client_of, site_of};

use crate::fault::ClientFault;
use crate::phase::Phase;
use crate::posting::{post_asks, post_proposal};
use crate::progress::Progress;
use rc_ids::{Cluster, NoMemory};
use rc_msg::Outbox;

/// Sends the proposal.
pub(crate) fn send_proposal(
    cluster: &Cluster,
    progress: &Progress,
    out: &mut Outbox,
) -> Result<(), NoMemory>
    requires { is_worn progress.now.slots ≡ false }
    ensures ok { OnOk result (out.new ≡ posted_all out.old (to_all cluster.now (Propose progress.now.tx 0 (Commit (body_of progress.now.slots))))) }
    ensures grows { Grows out.old out.new }
{
    let body = progress.slots.body()?;
    post_proposal(cluster, progress.tx, body, out)
}

/// Proposes the commit at ballot 0.
fn propose(cluster: &Cluster, progress: &mut Progress, out: &mut Outbox) -> Result<(), ClientFault>
    ensures ok { OnOk result (Acts (site_of progress.old out.old []) (site_of progress.new out.new []) (proposes cluster.now progress.old.tx (client_of progress.old))) }
    ensures err { IfErr result (λ fault. Fails fault (site_of progress.old out.old []) (site_of progress.new out.new []) (proposes cluster.now progress.old.tx (client_of progress.old))) }
    ensures open { IsErrOf result NotOpen → ⊥ }
    ensures votes { progress.new.votes ≡ progress.old.votes }
    ensures grows { Grows out.old out.new }
{
    if progress.slots.is_worn() {
        return Err(ClientFault::KeyWornOut);
    }
    send_proposal(cluster, progress, out)?;
    progress.phase = Phase::Proposed;
    Ok(())
}

/// Proposes, where the client commits and waits for no read.
pub(crate) fn go_on(
    cluster: &Cluster,
    progress: &mut Progress,
    out: &mut Outbox,
) -> Result<(), ClientFault>
    ensures ok { OnOk result (Acts (site_of progress.old out.old []) (site_of progress.new out.new []) (proposes_once_read cluster.now progress.old.tx (client_of progress.old))) }
    ensures err { IfErr result (λ fault. Fails fault (site_of progress.old out.old []) (site_of progress.new out.new []) (proposes_once_read cluster.now progress.old.tx (client_of progress.old))) }
    ensures open { IsErrOf result NotOpen → ⊥ }
    ensures votes { progress.new.votes ≡ progress.old.votes }
    ensures grows { Grows out.old out.new }
{
    if progress.phase.is_committing() && !progress.slots.wait() {
        return propose(cluster, progress, out);
    }
    Ok(())
}

/// The row of a commit: the client proposes, or reads the keys that are written and were not read, and waits for the reads.
pub(crate) fn commit(
    cluster: &Cluster,
    progress: &mut Progress,
    out: &mut Outbox,
) -> Result<(), ClientFault>
    requires { is_open (phase_of progress.old.phase) ≡ true }
    ensures ok { OnOk result (Acts (site_of progress.old out.old []) (site_of progress.new out.new []) (do_commit cluster.now progress.old.tx (client_of progress.old))) }
    ensures err { IfErr result (λ fault. Fails fault (site_of progress.old out.old []) (site_of progress.new out.new []) (do_commit cluster.now progress.old.tx (client_of progress.old))) }
    ensures votes { progress.new.votes ≡ progress.old.votes }
{
    if !progress.slots.wait_once_begun() {
        return propose(cluster, progress, out);
    }
    begin_reads(cluster, progress, out)?;
    Ok(())
}

/// Asks for the keys that are written and were not read, and waits for their reads.
fn begin_reads(cluster: &Cluster, progress: &mut Progress, out: &mut Outbox) -> Result<(), NoMemory>
    requires open { is_open (phase_of progress.old.phase) ≡ true }
    requires waits { waits_for_read (reads_begun progress.old.slots) ≡ true }
    ensures ok { OnOk result (Acts (site_of progress.old out.old []) (site_of progress.new out.new []) (do_commit cluster.now progress.old.tx (client_of progress.old))) }
    ensures err { OnErr result (Fails OutOfMemory (site_of progress.old out.old []) (site_of progress.new out.new []) (do_commit cluster.now progress.old.tx (client_of progress.old))) }
    ensures votes { progress.new.votes ≡ progress.old.votes }
{
    let unread = progress.slots.unread_keys()?;
    post_asks(cluster, progress.tx, unread, out)?;
    progress.phase = Phase::Committing;
    progress.slots.begin_reads();
    Ok(())
}
