// What a shard gives to those that read.
ghost use Rattle.std.specs.Prelude.{◌≡◌, [], ◌∷◌, ◌++◌, OnOk};
ghost use Rattle.rc_protocol.specs.Shard.{grant_of};

use rc_ids::{DcId, Key, NoMemory, Party, TxId};
use rc_msg::{Messages, Msg};
use rc_record::Rows;

/// Tells the client that reads the key what this datacentre has there.
pub fn send_grant(
    dc: DcId,
    rows: &Rows,
    mark: &(Key, TxId),
    out: &mut Messages,
) -> Result<(), NoMemory>
    ensures { OnOk result (out.new ≡ out.old ++ grant_of dc rows.now mark.now ∷ []) }
{
    let version = rows.version(&mark.0);
    let value = rows.value(&mark.0)?;
    let grant = Msg::Granted(mark.1, mark.0.copy(), dc, version, value);
    out.push(Party::Client(mark.1), &grant)
}
