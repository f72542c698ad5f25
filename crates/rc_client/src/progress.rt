// How far a client is.
ghost use Rattle.std.specs.Prelude.{◌≡◌, true, false};
ghost use Rattle.rc_protocol.specs.Client.{is_proposed, is_worn};
ghost use Rattle.rc_client.specs.Phases.{phase_of};

use crate::phase::Phase;
use crate::slots::Slots;
use rc_ballots::Tally;
use rc_body::Decision;
use rc_ids::{DcSet, TxId};
use std::alloc::Global;

/// What a client keeps of its transaction. A version follows that of each key that a proposed commit writes.
#[derive(Drop)]
pub(crate) struct Progress {
    pub alloc: Global,
    pub tx: TxId,
    pub phase: Phase,
    pub slots: Slots,
    pub refusals: DcSet,
    pub votes: Option<Tally>,
    pub outcome: Option<Decision>,
    ghost lasting: { is_proposed (phase_of phase) ≡ true → is_worn slots ≡ false },
}
