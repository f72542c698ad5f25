// What a client waits for is sent again.
ghost use Rattle.std.specs.Prelude.{◌≡◌, true, OnOk};
ghost use Rattle.rc_msg.specs.Posts.{posted_all, Grows};
ghost use Rattle.rc_protocol.specs.Client.{is_proposed, proposes_again, asks_again, waiting_keys, do_retry};
ghost use Rattle.rc_client.specs.Phases.{phase_of};
ghost use Rattle.rc_client.specs.States.{client_of};

use crate::committing::send_proposal;
use crate::posting::{post_abandon, post_asks_again};
use crate::progress::Progress;
use rc_ids::{Cluster, NoMemory};
use rc_msg::Outbox;

/// Sends the same proposal again, or gives the transaction up where a quorum refused it.
fn propose_again(cluster: &Cluster, progress: &Progress, out: &mut Outbox) -> Result<(), NoMemory>
    requires { is_proposed (phase_of progress.now.phase) ≡ true }
    ensures ok { OnOk result (out.new ≡ posted_all out.old (proposes_again cluster.now progress.now.tx (client_of progress.now))) }
    ensures grows { Grows out.old out.new }
{
    if cluster.quorum().holds(progress.refusals) {
        return post_abandon(cluster, progress.tx, out);
    }
    send_proposal(cluster, progress, out)
}

/// Asks again for the keys whose read is under way, in key order, where they were not granted.
fn ask_again(cluster: &Cluster, progress: &Progress, out: &mut Outbox) -> Result<(), NoMemory>
    ensures ok { OnOk result (out.new ≡ posted_all out.old (asks_again cluster.now progress.now.tx progress.now.slots (waiting_keys progress.now.slots))) }
    ensures grows { Grows out.old out.new }
{
    let keys = progress.slots.waiting_keys()?;
    post_asks_again(cluster, progress.tx, &progress.slots, keys, out)
}

/// The row of a retry. The client stays as it is.
pub(crate) fn retry(
    cluster: &Cluster,
    progress: &Progress,
    out: &mut Outbox,
) -> Result<(), NoMemory>
    ensures ok { OnOk result (out.new ≡ posted_all out.old (do_retry cluster.now progress.now.tx (client_of progress.now)).sends) }
    ensures grows { Grows out.old out.new }
{
    if progress.phase.is_proposed() {
        return propose_again(cluster, progress, out);
    }
    if progress.phase.reads_on() {
        return ask_again(cluster, progress, out);
    }
    Ok(())
}
