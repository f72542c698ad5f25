// A write is buffered.
ghost use Rattle.std.specs.Prelude.{◌≡◌, true, false, OnOk, OnErr};
ghost use Rattle.rc_protocol.specs.Client.{is_open, is_out_of_slots, do_write};
ghost use Rattle.rc_client.specs.Phases.{phase_of};
ghost use Rattle.rc_client.specs.States.{client_of};

use crate::progress::Progress;
use rc_ids::{Key, NoMemory, Val};

/// The row of a write, or leaves all as before.
pub(crate) fn write(progress: &mut Progress, key: Key, val: Val) -> Result<(), NoMemory>
    requires open { is_open (phase_of progress.old.phase) ≡ true }
    requires room { is_out_of_slots (client_of progress.old) key ≡ false }
    ensures ok { OnOk result (client_of progress.new ≡ (do_write (client_of progress.old) key val).after) }
    ensures err { OnErr result (client_of progress.new ≡ client_of progress.old) }
    ensures tx { progress.new.tx ≡ progress.old.tx }
    ensures votes { progress.new.votes ≡ progress.old.votes }
{
    progress.slots.write(key, val)?;
    Ok(())
}
