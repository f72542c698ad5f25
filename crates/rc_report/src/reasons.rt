// Refusals as text.
ghost use Rattle.std.specs.Prelude.{◌≡◌, ◌++◌, OnOk};
ghost use Rattle.rc_report.specs.Reasons.{reason_text};

use crate::piece::{Piece, put};
use rc_body::Reason;
use rc_ids::{NoMemory, Text};

pub fn put_reason(out: &mut Text, reason: &Reason) -> Result<(), NoMemory>
    ensures { OnOk result (out.new ≡ out.old ++ reason_text reason.now) }
{
    match reason {
        Reason::Locked(key, holder) => put(
            out,
            &[
                Piece::Word(b"locked "),
                Piece::Named(key),
                Piece::Word(b" "),
                Piece::Tx(*holder),
            ],
        ),
        Reason::Lost(key) => put(out, &[Piece::Word(b"lost "), Piece::Named(key)]),
        Reason::Stale(key, version) => put(
            out,
            &[
                Piece::Word(b"stale "),
                Piece::Named(key),
                Piece::Word(b" "),
                Piece::Number(version.0),
            ],
        ),
        Reason::Promised(ballot) => put(
            out,
            &[
                Piece::Word(b"promised "),
                Piece::Number(u64::from(ballot.0)),
            ],
        ),
    }
}
