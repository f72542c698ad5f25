// A record enters the journal before anything else changes.
ghost use Rattle.std.specs.Prelude.{◌≡◌, length, false, OnOk, IsErrOf, IsTrue};
ghost use Rattle.rc_log.specs.Journals.{would_pass_limit};
ghost use Rattle.rc_node.specs.Acts.{Enters, Breaks};
ghost use Rattle.rc_node.specs.declared.fault.NodeFault.TheVariants.{NoMemory as OutOfMemory, Failed as DiskFailed, Full as LogFull, BallotsSpent};

use crate::NodeFault;
use rc_log::{AppendFault, Journal};

/// Adds the record. After a fault nothing was added, or the disk failed.
pub fn append<J: Journal>(journal: &mut J, bytes: &[u8]) -> Result<(), NodeFault>
    requires { (J.state journal.old).failed ≡ false }
    ensures done { OnOk result (Enters (J.state journal.old) (J.state journal.new) bytes.now) }
    ensures failed { IsErrOf result DiskFailed → Breaks (J.may_leave journal.new) (J.state journal.old) (J.state journal.new) bytes.now }
    ensures full { IsErrOf result LogFull → IsTrue (would_pass_limit (J.state journal.old) (length bytes.now)) }
    ensures full_same { IsErrOf result LogFull → J.state journal.new ≡ J.state journal.old }
    ensures no_memory { IsErrOf result OutOfMemory → J.state journal.new ≡ J.state journal.old }
    ensures no_ballots { ¬ IsErrOf result BallotsSpent }
{
    match journal.append(bytes) {
        Ok(()) => Ok(()),
        Err(AppendFault::NoMemory) => Err(NodeFault::NoMemory),
        Err(AppendFault::Failed) => Err(NodeFault::Failed),
        Err(AppendFault::Full) => Err(NodeFault::Full),
    }
}
