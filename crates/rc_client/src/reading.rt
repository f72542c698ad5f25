// A read of a key.
ghost use Rattle.std.specs.Prelude.{◌≡◌, ◌<◌, ◌++◌, [], true, false, None, is_some, length, OnOk, OnErr};
ghost use Rattle.rc_ids.specs.Tables.{maybe};
ghost use Rattle.rc_protocol.specs.Client.{is_open, is_out_of_slots, new_client, slot_of, client_stays, asks_new, reads_slot, do_read};
ghost use Rattle.rc_client.specs.declared.fault.ClientFault.TheVariants.{NoMemory as OutOfMemory};
ghost use Rattle.rc_client.specs.Acts.{Acts, Fails};
ghost use Rattle.rc_client.specs.Phases.{phase_of};
ghost use Rattle.rc_client.specs.States.{client_of, site_of};

use crate::grants::copied_value;
use crate::key_read::KeyRead;
use crate::posting::post_ask;
use crate::progress::Progress;
use crate::slot::Slot;
use rc_ids::{Cluster, DcSet, Key, NoMemory, TxId};
use rc_msg::Outbox;
use rc_report::{Line, Lines};

/// Asks for a key that was not touched.
fn ask_new(
    cluster: &Cluster,
    progress: &mut Progress,
    key: Key,
    out: &mut Outbox,
) -> Result<(), NoMemory>
    requires open { is_open (phase_of progress.old.phase) ≡ true }
    requires absent { slot_of progress.old.slots key ≡ None }
    requires room { length progress.old.slots < 32 }
    ensures ok { OnOk result (Acts (site_of progress.old out.old []) (site_of progress.new out.new []) (asks_new cluster.now progress.old.tx (client_of progress.old) key)) }
    ensures err { OnErr result (Fails OutOfMemory (site_of progress.old out.old []) (site_of progress.new out.new []) (asks_new cluster.now progress.old.tx (client_of progress.old) key)) }
    ensures votes { progress.new.votes ≡ progress.old.votes }
{
    post_ask(cluster, progress.tx, &key, DcSet::new(), out)?;
    progress.slots.ask(key)?;
    Ok(())
}

/// Prints what is known of a touched key: what the client wrote, or what it read. Or leaves all as before.
fn print_slot(tx: TxId, key: Key, slot: &Slot, lines: &mut Lines) -> Result<(), NoMemory>
    ensures ok { OnOk result (lines.new ≡ lines.old ++ (reads_slot tx new_client key slot.now).lines) }
    ensures err { OnErr result (lines.new ≡ lines.old) }
{
    if let Some(value) = slot.write() {
        let value = value.copy()?;
        return lines.push(Line::Own(tx, key, value));
    }
    if let KeyRead::Complete(version, value) = slot.read() {
        let value = copied_value(value)?;
        return lines.push(Line::Read(tx, key, *version, value));
    }
    Ok(())
}

/// Prints what is known of the key, if it was touched. Or leaves all as before.
fn print_known(progress: &Progress, key: Key, lines: &mut Lines) -> Result<(), NoMemory>
    ensures ok { OnOk result (lines.new ≡ lines.old ++ (maybe (slot_of progress.now.slots key) (client_stays new_client) (reads_slot progress.now.tx new_client key)).lines) }
    ensures err { OnErr result (lines.new ≡ lines.old) }
{
    match progress.slots.get(&key) {
        Some(slot) => print_slot(progress.tx, key, slot, lines),
        None => Ok(()),
    }
}

/// Whether the key was touched.
fn is_touched(progress: &Progress, key: &Key) -> bool
    ensures { result ≡ is_some (slot_of progress.now.slots key.now) }
{
    progress.slots.get(key).is_some()
}

/// The row of a read: the key is asked for, or what is known of it is printed.
pub(crate) fn read(
    cluster: &Cluster,
    progress: &mut Progress,
    key: Key,
    out: &mut Outbox,
    lines: &mut Lines,
) -> Result<(), NoMemory>
    requires open { is_open (phase_of progress.old.phase) ≡ true }
    requires room { is_out_of_slots (client_of progress.old) key ≡ false }
    ensures ok { OnOk result (Acts (site_of progress.old out.old lines.old) (site_of progress.new out.new lines.new) (do_read cluster.now progress.old.tx (client_of progress.old) key)) }
    ensures err { OnErr result (Fails OutOfMemory (site_of progress.old out.old lines.old) (site_of progress.new out.new lines.new) (do_read cluster.now progress.old.tx (client_of progress.old) key)) }
    ensures votes { progress.new.votes ≡ progress.old.votes }
{
    if is_touched(progress, &key) {
        print_known(progress, key, lines)?;
        return Ok(());
    }
    ask_new(cluster, progress, key, out)
}
