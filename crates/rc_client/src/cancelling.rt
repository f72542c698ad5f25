// A read is dropped.
ghost use Rattle.std.specs.Prelude.{◌≡◌, [], true, OnOk, OnErr};
ghost use Rattle.rc_protocol.specs.Client.{is_open, drops_read, do_cancel};
ghost use Rattle.rc_client.specs.declared.fault.ClientFault.TheVariants.{NoMemory as OutOfMemory};
ghost use Rattle.rc_client.specs.Acts.{Acts, Fails};
ghost use Rattle.rc_client.specs.Phases.{phase_of};
ghost use Rattle.rc_client.specs.States.{client_of, site_of};

use crate::posting::post_cancel;
use crate::progress::Progress;
use rc_ids::{Cluster, DcSet, Key, NoMemory};
use rc_msg::Outbox;

/// Drops the read of a key, and the key with it unless it is written.
fn drop_read(
    cluster: &Cluster,
    progress: &mut Progress,
    key: &Key,
    out: &mut Outbox,
) -> Result<(), NoMemory>
    requires { is_open (phase_of progress.old.phase) ≡ true }
    ensures ok { OnOk result (Acts (site_of progress.old out.old []) (site_of progress.new out.new []) (drops_read cluster.now progress.old.tx (client_of progress.old) key.now)) }
    ensures err { OnErr result (Fails OutOfMemory (site_of progress.old out.old []) (site_of progress.new out.new []) (drops_read cluster.now progress.old.tx (client_of progress.old) key.now)) }
    ensures votes { progress.new.votes ≡ progress.old.votes }
{
    post_cancel(cluster, progress.tx, key, DcSet::new(), out)?;
    progress.slots.drop_read(key);
    Ok(())
}

/// The row of a cancel: a read that is under way is dropped.
pub(crate) fn cancel(
    cluster: &Cluster,
    progress: &mut Progress,
    key: &Key,
    out: &mut Outbox,
) -> Result<(), NoMemory>
    requires { is_open (phase_of progress.old.phase) ≡ true }
    ensures ok { OnOk result (Acts (site_of progress.old out.old []) (site_of progress.new out.new []) (do_cancel cluster.now progress.old.tx (client_of progress.old) key.now)) }
    ensures err { OnErr result (Fails OutOfMemory (site_of progress.old out.old []) (site_of progress.new out.new []) (do_cancel cluster.now progress.old.tx (client_of progress.old) key.now)) }
    ensures votes { progress.new.votes ≡ progress.old.votes }
{
    if !progress.slots.wait_for(key) {
        return Ok(());
    }
    drop_read(cluster, progress, key, out)
}
