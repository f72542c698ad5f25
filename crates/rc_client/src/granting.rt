// A datacentre's shard gives a key.
ghost use Rattle.std.specs.Prelude.{◌≡◌, ◌++◌, [], true, false, OnOk, OnErr, IfErr, IsErrOf};
ghost use Rattle.rc_ids.specs.Tables.{maybe};
ghost use Rattle.rc_msg.specs.Posts.{Grows};
ghost use Rattle.rc_protocol.specs.Client.{Slot, slot_of, slot_set, with_slots, with_read, prints_of, reads_on, proposes_once_read, on_granted};
ghost use Rattle.rc_client.specs.declared.fault.ClientFault.TheVariants.{NotOpen, NoMemory as OutOfMemory};
ghost use Rattle.rc_client.specs.Acts.{Acts, Fails};
ghost use Rattle.rc_client.specs.Ends.{end_line, ends_read};
ghost use Rattle.rc_client.specs.Phases.{phase_of};
ghost use Rattle.rc_client.specs.Reads.{read_of};
ghost use Rattle.rc_client.specs.Slots.{wants_at, granted_more};
ghost use Rattle.rc_client.specs.States.{client_of, site_of};

use crate::committing::go_on;
use crate::fault::ClientFault;
use crate::grants::copied_value;
use crate::key_read::KeyRead;
use crate::posting::post_cancel;
use crate::progress::Progress;
use rc_ids::{Cluster, Key, NoMemory, TxId};
use rc_msg::Outbox;
use rc_read::{Grant, ReadDone};
use rc_report::{Line, Lines};

/// Prints the line at the end of a key's read, if one is wanted; or leaves all as before.
fn print_end(
    tx: TxId,
    key: &Key,
    prints: bool,
    done: &ReadDone,
    lines: &mut Lines,
) -> Result<(), NoMemory>
    ensures ok { OnOk result (lines.new ≡ lines.old ++ end_line tx key.now prints done.now) }
    ensures err { OnErr result (lines.new ≡ lines.old) }
{
    if !prints {
        return Ok(());
    }
    let value = copied_value(&done.value)?;
    lines.push(Line::Read(tx, key.copy(), done.version, value))
}

/// Keeps the key's read as complete, and goes on. At a fault the client is as before.
fn end_read(
    cluster: &Cluster,
    progress: &mut Progress,
    key: &Key,
    read: KeyRead,
    out: &mut Outbox,
) -> Result<(), ClientFault>
    requires { reads_on (phase_of progress.old.phase) ≡ true }
    ensures ok { let ended = with_slots (client_of progress.old) (maybe (slot_of progress.old.slots key.now) progress.old.slots (λ (s : Slot). slot_set progress.old.slots (with_read s (read_of read)))) in
        OnOk result (Acts (site_of progress.old out.old []) (site_of progress.new out.new []) (proposes_once_read cluster.now progress.old.tx ended)) }
    ensures err { let ended = with_slots (client_of progress.old) (maybe (slot_of progress.old.slots key.now) progress.old.slots (λ (s : Slot). slot_set progress.old.slots (with_read s (read_of read)))) in
        IfErr result (λ fault. Fails fault (site_of progress.old out.old []) (site_of progress.new out.new []) (proposes_once_read cluster.now progress.old.tx ended)) }
    ensures open { IsErrOf result NotOpen → ⊥ }
    ensures votes { progress.new.votes ≡ progress.old.votes }
    ensures grows { Grows out.old out.new }
{
    let before = progress.slots.replace_read(key, read);
    match go_on(cluster, progress, out) {
        Ok(()) => Ok(()),
        Err(fault) => {
            progress.slots.set_read(key, before);
            Err(fault)
        }
    }
}

/// Completes the read of a key: it is cancelled where it was not granted, its line is printed, and the client goes on.
fn complete(
    cluster: &Cluster,
    progress: &mut Progress,
    key: &Key,
    done: ReadDone,
    out: &mut Outbox,
    lines: &mut Lines,
) -> Result<(), ClientFault>
    requires { reads_on (phase_of progress.old.phase) ≡ true }
    ensures ok { let prints = maybe (slot_of progress.old.slots key.now) false (λ (s : Slot). prints_of s.read) in
        OnOk result (Acts (site_of progress.old out.old lines.old) (site_of progress.new out.new lines.new) (ends_read cluster.now progress.old.tx (client_of progress.old) key.now prints done)) }
    ensures err { let prints = maybe (slot_of progress.old.slots key.now) false (λ (s : Slot). prints_of s.read) in
        IfErr result (λ fault. Fails fault (site_of progress.old out.old lines.old) (site_of progress.new out.new lines.new) (ends_read cluster.now progress.old.tx (client_of progress.old) key.now prints done)) }
    ensures open { IsErrOf result NotOpen → ⊥ }
    ensures votes { progress.new.votes ≡ progress.old.votes }
{
    let prints = progress.slots.prints(key);
    post_cancel(cluster, progress.tx, key, done.from, out)?;
    print_end(progress.tx, key, prints, &done, lines)?;
    let read = KeyRead::Complete(done.version, done.value);
    end_read(cluster, progress, key, read, out)
}

/// Keeps a grant with which no quorum granted.
fn keep_grant(progress: &mut Progress, key: &Key, grant: Grant) -> Result<(), NoMemory>
    requires { wants_at (client_of progress.old) key.now grant.dc ≡ true }
    ensures ok { OnOk result (client_of progress.new ≡ with_slots (client_of progress.old) (maybe (slot_of progress.old.slots key.now) progress.old.slots (λ (s : Slot). slot_set progress.old.slots (granted_more s grant)))) }
    ensures err { OnErr result (client_of progress.new ≡ client_of progress.old) }
    ensures tx { progress.new.tx ≡ progress.old.tx }
    ensures votes { progress.new.votes ≡ progress.old.votes }
{
    progress.slots.push_grant(key, grant)?;
    Ok(())
}

/// The row of a grant that counts.
pub(crate) fn take_grant(
    cluster: &Cluster,
    progress: &mut Progress,
    key: &Key,
    grant: Grant,
    out: &mut Outbox,
    lines: &mut Lines,
) -> Result<(), ClientFault>
    requires { wants_at (client_of progress.old) key.now grant.dc ≡ true }
    ensures ok { OnOk result (Acts (site_of progress.old out.old lines.old) (site_of progress.new out.new lines.new) (on_granted cluster.now progress.old.tx (client_of progress.old) key.now grant)) }
    ensures err { IfErr result (λ fault. Fails fault (site_of progress.old out.old lines.old) (site_of progress.new out.new lines.new) (on_granted cluster.now progress.old.tx (client_of progress.old) key.now grant)) }
    ensures open { IsErrOf result NotOpen → ⊥ }
    ensures votes { progress.new.votes ≡ progress.old.votes }
{
    let granted = progress.slots.granted_with(key, grant.dc);
    if !cluster.quorum().holds(granted) {
        keep_grant(progress, key, grant)?;
        return Ok(());
    }
    let done = progress.slots.done_with(key, &grant)?;
    complete(cluster, progress, key, done, out, lines)
}
