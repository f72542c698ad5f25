// Reports: who gave none, and which is the best.
ghost use Rattle.std.specs.Prelude.{◌≡◌, if◌then◌else◌};
ghost use Rattle.std.specs.Option.{option_copied};
ghost use Rattle.std.specs.Ordering.{nat_cmp};
ghost use Rattle.rc_ids.specs.Tables.{added};
ghost use Rattle.rc_protocol.specs.Coordinator as coordinator;
ghost use Rattle.rc_takeover.specs.TakeOvers.{foretold_by, foretold_best};

use crate::Would;
use rc_body::Decision;
use rc_ids::{Ballot, DcId, DcSet};

/// Who reported nothing, after a datacentre promised with a report or with none.
pub fn silent_after(silent: DcSet, dc: DcId, has_report: bool) -> DcSet
    ensures { result ≡ (if has_report then silent else added nat_cmp silent dc) }
{
    if has_report { silent } else { silent.with(dc) }
}

/// The better of two reports: of those at one ballot, the earlier one.
pub fn better(
    best: Option<(Ballot, Decision)>,
    report: Option<(Ballot, Decision)>,
) -> Option<(Ballot, Decision)>
    ensures { result ≡ coordinator.better best report }
{
    let Some(new) = report else {
        return best;
    };
    match best {
        None => Some(new),
        Some(old) => { if old.0 < new.0 { Some(new) } else { Some(old) } }
    }
}

/// What would be proposed of two reports.
pub fn would_report<'a>(
    best: &'a Option<(Ballot, Decision)>,
    report: Option<&'a (Ballot, Decision)>,
) -> Would<'a>
    ensures { foretold_by result ≡ foretold_best (coordinator.better best.now (option_copied report.entry)) }
{
    match (best, report) {
        (None, None) => Would::Abort,
        (None, Some(new)) => Would::Reported(&new.1),
        (Some(old), None) => Would::Reported(&old.1),
        (Some(old), Some(new)) => {
            if old.0 < new.0 {
                Would::Reported(&new.1)
            } else {
                Would::Reported(&old.1)
            }
        }
    }
}
