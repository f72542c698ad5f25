// Faults as text.
ghost use Rattle.std.specs.Prelude.{◌≡◌, ◌++◌, OnOk, codes};
ghost use Rattle.rc_report.specs.Faults.{at_line, wrong_text, limit_text, limit_at, log_fault_text};

use crate::piece::{Piece, put};
use crate::{LogFault, Which, Wrong};
use rc_ids::{NoMemory, NodeId, Text};

/// Adds the number of a line of the script.
pub fn put_line(out: &mut Text, number: u32) -> Result<(), NoMemory>
    ensures { OnOk result (out.new ≡ out.old ++ at_line number) }
{
    put(
        out,
        &[
            Piece::Word(b"line "),
            Piece::Number(u64::from(number)),
            Piece::Word(b": "),
        ],
    )
}

/// Adds what is named wrongly.
pub fn put_wrong(out: &mut Text, wrong: Wrong) -> Result<(), NoMemory>
    ensures { OnOk result (out.new ≡ out.old ++ wrong_text wrong) }
{
    match wrong {
        Wrong::NotBegun(tx) => put(out, &[Piece::Tx(tx), Piece::Word(b" is not begun")]),
        Wrong::BegunTwice(tx) => put(out, &[Piece::Tx(tx), Piece::Word(b" is begun twice")]),
        Wrong::Vanished(tx) => put(out, &[Piece::Tx(tx), Piece::Word(b" has vanished")]),
        Wrong::NotOpen(tx) => put(out, &[Piece::Tx(tx), Piece::Word(b" is not open")]),
        Wrong::TooManyKeys(tx) => put(out, &[Piece::Tx(tx), Piece::Word(b" has 32 keys")]),
        Wrong::Down(node) => put(out, &[Piece::Node(node), Piece::Word(b" is down")]),
        Wrong::Up(node) => put(out, &[Piece::Node(node), Piece::Word(b" is up")]),
        Wrong::NotSent(number) => put(
            out,
            &[
                Piece::Word(b"message "),
                Piece::Number(u64::from(number)),
                Piece::Word(b" was not sent"),
            ],
        ),
        Wrong::NotPending(number) => put(
            out,
            &[
                Piece::Word(b"message "),
                Piece::Number(u64::from(number)),
                Piece::Word(b" is not pending"),
            ],
        ),
    }
}

/// Adds that a quantity would pass its limit.
pub fn put_limit(out: &mut Text, which: Which) -> Result<(), NoMemory>
    ensures { OnOk result (out.new ≡ out.old ++ limit_text which) }
{
    match which {
        Which::Transactions => put(out, &[Piece::Word(b"limit of transactions")]),
        Which::Events => put(out, &[Piece::Word(b"limit of events")]),
        Which::Messages => put(out, &[Piece::Word(b"limit of messages")]),
        Which::MessageBytes => put(out, &[Piece::Word(b"limit of message bytes")]),
        Which::TextBytes => put(out, &[Piece::Word(b"limit of text bytes")]),
        Which::Version => put(out, &[Piece::Word(b"limit of version")]),
        Which::Ballots => put(out, &[Piece::Word(b"limit of ballots")]),
        Which::Log(node) => put(out, &[Piece::Node(node), Piece::Word(b": limit of log")]),
    }
}

/// Adds the same in a line of the script; a log is named by its node alone.
pub fn put_limit_at(out: &mut Text, number: u32, which: Which) -> Result<(), NoMemory>
    ensures { OnOk result (out.new ≡ out.old ++ limit_at number which) }
{
    match which {
        Which::Log(node) => put_limit(out, Which::Log(node)),
        _ => {
            put_line(out, number)?;
            put_limit(out, which)
        }
    }
}

/// Adds what is wrong with a node's log.
pub fn put_log_fault(out: &mut Text, node: NodeId, fault: LogFault) -> Result<(), NoMemory>
    ensures { OnOk result (out.new ≡ out.old ++ log_fault_text node fault) }
{
    match fault {
        LogFault::Damaged(place) => put(
            out,
            &[
                Piece::Node(node),
                Piece::Word(b": log damaged at "),
                Piece::Number(place),
            ],
        ),
        LogFault::BadRecord(index) => put(
            out,
            &[
                Piece::Node(node),
                Piece::Word(b": record "),
                Piece::Number(index),
                Piece::Word(b" refused"),
            ],
        ),
        LogFault::OtherWorld => put(out, &[Piece::Node(node), Piece::Word(b": another world")]),
    }
}
