// Pending messages as text.
ghost use Rattle.std.specs.Prelude.{◌≡◌, ◌++◌, OnOk};
ghost use Rattle.rc_report.specs.Names.{party_text};
ghost use Rattle.rc_report.specs.Pieces.{piece_text};
ghost use Rattle.rc_report.specs.Messages.{decision_text, answer_text, report_text, msg_text, pending_text};

use crate::piece::{Piece, put};
use crate::reasons::put_reason;
use rc_body::{Decision, Reason};
use rc_ids::{Ballot, NoMemory, Party, Text};
use rc_msg::{Envelope, Msg};

fn party_piece(party: Party) -> Piece<'static>
    ensures { piece_text result ≡ party_text party }
{
    match party {
        Party::Node(node) => Piece::Node(node),
        Party::Client(tx) => Piece::Tx(tx),
    }
}

fn decision_word(decision: &Decision) -> &'static [u8]
    ensures { result.now ≡ decision_text decision.now }
{
    match decision {
        Decision::Commit(_) => b"commit",
        Decision::Abort => b"abort",
    }
}

fn put_answer(out: &mut Text, answer: &Option<Reason>) -> Result<(), NoMemory>
    ensures { OnOk result (out.new ≡ out.old ++ answer_text answer.now) }
{
    match answer {
        None => put(out, &[Piece::Word(b"yes")]),
        Some(reason) => {
            put(out, &[Piece::Word(b"no ")])?;
            put_reason(out, reason)
        }
    }
}

fn put_report(out: &mut Text, report: &Option<(Ballot, Decision)>) -> Result<(), NoMemory>
    ensures { OnOk result (out.new ≡ out.old ++ report_text report.now) }
{
    match report {
        None => put(out, &[Piece::Word(b"none")]),
        Some((ballot, decision)) => put(
            out,
            &[
                Piece::Word(decision_word(decision)),
                Piece::Word(b" "),
                Piece::Number(u64::from(ballot.0)),
            ],
        ),
    }
}

fn put_msg(out: &mut Text, msg: &Msg) -> Result<(), NoMemory>
    ensures { OnOk result (out.new ≡ out.old ++ msg_text msg.now) }
{
    match msg {
        Msg::ReadAsk(tx, key) => put(
            out,
            &[
                Piece::Word(b"ReadAsk "),
                Piece::Tx(*tx),
                Piece::Word(b" "),
                Piece::Named(key),
            ],
        ),
        Msg::ReadCancel(tx, key) => put(
            out,
            &[
                Piece::Word(b"ReadCancel "),
                Piece::Tx(*tx),
                Piece::Word(b" "),
                Piece::Named(key),
            ],
        ),
        Msg::Granted(tx, key, _, version, _) => put(
            out,
            &[
                Piece::Word(b"Granted "),
                Piece::Tx(*tx),
                Piece::Word(b" "),
                Piece::Named(key),
                Piece::Word(b" "),
                Piece::Number(version.0),
            ],
        ),
        Msg::Propose(tx, ballot, decision) => put(
            out,
            &[
                Piece::Word(b"Propose "),
                Piece::Tx(*tx),
                Piece::Word(b" "),
                Piece::Number(u64::from(ballot.0)),
                Piece::Word(b" "),
                Piece::Word(decision_word(decision)),
            ],
        ),
        Msg::Prepare(tx, _) => put(out, &[Piece::Word(b"Prepare "), Piece::Tx(*tx)]),
        Msg::Prepared(tx, _, answer) => {
            put(
                out,
                &[Piece::Word(b"Prepared "), Piece::Tx(*tx), Piece::Word(b" ")],
            )?;
            put_answer(out, answer)
        }
        Msg::Voted(tx, ballot, _, decision) => put(
            out,
            &[
                Piece::Word(b"Voted "),
                Piece::Tx(*tx),
                Piece::Word(b" "),
                Piece::Number(u64::from(ballot.0)),
                Piece::Word(b" "),
                Piece::Word(decision_word(decision)),
            ],
        ),
        Msg::Refused(tx, ballot, _, reason) => {
            put(
                out,
                &[
                    Piece::Word(b"Refused "),
                    Piece::Tx(*tx),
                    Piece::Word(b" "),
                    Piece::Number(u64::from(ballot.0)),
                    Piece::Word(b" "),
                ],
            )?;
            put_reason(out, reason)
        }
        Msg::Ask(tx, ballot) => put(
            out,
            &[
                Piece::Word(b"Ask "),
                Piece::Tx(*tx),
                Piece::Word(b" "),
                Piece::Number(u64::from(ballot.0)),
            ],
        ),
        Msg::Promise(tx, ballot, _, report) => {
            put(
                out,
                &[
                    Piece::Word(b"Promise "),
                    Piece::Tx(*tx),
                    Piece::Word(b" "),
                    Piece::Number(u64::from(ballot.0)),
                    Piece::Word(b" "),
                ],
            )?;
            put_report(out, report)
        }
        Msg::Decided(tx, decision) => put(
            out,
            &[
                Piece::Word(b"Decided "),
                Piece::Tx(*tx),
                Piece::Word(b" "),
                Piece::Word(decision_word(decision)),
            ],
        ),
        Msg::Finish(tx, decision) => put(
            out,
            &[
                Piece::Word(b"Finish "),
                Piece::Tx(*tx),
                Piece::Word(b" "),
                Piece::Word(decision_word(decision)),
            ],
        ),
        Msg::Abandon(tx) => put(out, &[Piece::Word(b"Abandon "), Piece::Tx(*tx)]),
        Msg::CatchAsk(place) => put(
            out,
            &[Piece::Word(b"CatchAsk "), Piece::Number(u64::from(*place))],
        ),
        Msg::CatchPage(_, place, page) => put(
            out,
            &[
                Piece::Word(b"CatchPage "),
                Piece::Number(u64::from(*place)),
                Piece::Word(b" "),
                Piece::Number(page.len() as u64),
            ],
        ),
    }
}

/// Adds a pending message with its number.
pub fn put_pending(out: &mut Text, number: u32, envelope: &Envelope) -> Result<(), NoMemory>
    ensures { OnOk result (out.new ≡ out.old ++ pending_text number envelope.now) }
{
    put(
        out,
        &[
            Piece::Number(u64::from(number)),
            Piece::Word(b" "),
            party_piece(envelope.from),
            Piece::Word(b" "),
            party_piece(envelope.to),
            Piece::Word(b" "),
        ],
    )?;
    put_msg(out, &envelope.msg)
}
