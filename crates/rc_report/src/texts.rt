// Lines as text.
ghost use Rattle.std.specs.Prelude.{◌≡◌, ◌++◌, OnOk, OnErr, codes};
ghost use Rattle.std.specs.List.{flat_map};
ghost use Rattle.rc_report.specs.Names.{space, tx_text, ended_text};
ghost use Rattle.rc_report.specs.Names as names;
ghost use Rattle.rc_report.specs.Lines.{read_text, own_text, order_text, hold_text, row_text, rest_text, count_text, body_text, line_text};

use crate::faults::{put_limit, put_limit_at, put_line, put_log_fault, put_wrong};
use crate::messages::put_pending;
use crate::piece::{Piece, put};
use crate::reasons::put_reason;
use crate::{Count, Hold, Line, Rest};
use rc_ids::{Key, NoMemory, NodeId, Outcome, Text, TxId, Val, Version};

fn is_gone(value: &Val) -> bool
    ensures { result ≡ names.is_gone value.now }
{
    value.is_gone()
}

fn put_read<'a>(
    out: &mut Text,
    tx: TxId,
    key: &'a Key,
    version: Version,
    value: &'a Option<Val>,
) -> Result<(), NoMemory>
    ensures { OnOk result (out.new ≡ out.old ++ read_text tx key.now version value.now) }
{
    match value {
        None => put(
            out,
            &[
                Piece::Tx(tx),
                Piece::Word(b" read "),
                Piece::Named(key),
                Piece::Word(b" "),
                Piece::Number(version.0),
                Piece::Word(b" -"),
            ],
        ),
        Some(value) if is_gone(value) => put(
            out,
            &[
                Piece::Tx(tx),
                Piece::Word(b" gone "),
                Piece::Named(key),
                Piece::Word(b" "),
                Piece::Number(version.0),
            ],
        ),
        Some(value) => put(
            out,
            &[
                Piece::Tx(tx),
                Piece::Word(b" read "),
                Piece::Named(key),
                Piece::Word(b" "),
                Piece::Number(version.0),
                Piece::Word(b" "),
                Piece::Held(value),
            ],
        ),
    }
}

fn put_own<'a>(out: &mut Text, tx: TxId, key: &'a Key, value: &'a Val) -> Result<(), NoMemory>
    ensures { OnOk result (out.new ≡ out.old ++ own_text tx key.now value.now) }
{
    if is_gone(value) {
        return put(
            out,
            &[Piece::Tx(tx), Piece::Word(b" deletes "), Piece::Named(key)],
        );
    }
    put(
        out,
        &[
            Piece::Tx(tx),
            Piece::Word(b" own "),
            Piece::Named(key),
            Piece::Word(b" "),
            Piece::Held(value),
        ],
    )
}

fn put_order(out: &mut Text, txs: &[TxId]) -> Result<(), NoMemory>
    ensures { OnOk result (out.new ≡ out.old ++ order_text txs.now) }
{
    out.push_bytes(b"order")?;
    for tx in txs {
        put(out, &[Piece::Word(b" "), Piece::Tx(*tx)])?;
    }
    Ok(())
}

fn ended_word(outcome: Outcome) -> &'static [u8]
    ensures { result.now ≡ ended_text outcome }
{
    match outcome {
        Outcome::Commit => b"committed",
        Outcome::Abort => b"aborted",
    }
}

fn hold_word(hold: Hold) -> &'static [u8]
    ensures { result.now ≡ hold_text hold }
{
    match hold {
        Hold::Free => b"free",
        Hold::Held => b"held",
    }
}

fn rest_word(rest: Rest) -> &'static [u8]
    ensures { result.now ≡ rest_text rest }
{
    match rest {
        Rest::Gone => b"gone",
        Rest::Unknown => b"unknown",
        Rest::Open => b"open",
    }
}

fn count_word(count: Count) -> &'static [u8]
    ensures { result.now ≡ count_text count }
{
    match count {
        Count::Transactions => b"transactions",
        Count::Committed => b"committed",
        Count::Aborted => b"aborted",
        Count::Deliveries => b"deliveries",
    }
}

fn put_row<'a>(
    out: &mut Text,
    node: NodeId,
    key: &'a Key,
    version: Version,
    hold: Hold,
    value: &'a Option<Val>,
) -> Result<(), NoMemory>
    ensures { OnOk result (out.new ≡ out.old ++ row_text node key.now version hold value.now) }
{
    put(
        out,
        &[
            Piece::Node(node),
            Piece::Word(b" "),
            Piece::Named(key),
            Piece::Word(b" "),
            Piece::Number(version.0),
        ],
    )?;
    let hold = Piece::Word(hold_word(hold));
    match value {
        None => put(out, &[Piece::Word(b" "), hold, Piece::Word(b" -")]),
        Some(value) if is_gone(value) => put(out, &[Piece::Word(b" gone "), hold]),
        Some(value) => put(
            out,
            &[
                Piece::Word(b" "),
                hold,
                Piece::Word(b" "),
                Piece::Held(value),
            ],
        ),
    }
}

/// Adds the line without its end.
fn put_body(out: &mut Text, line: &Line) -> Result<(), NoMemory>
    ensures { OnOk result (out.new ≡ out.old ++ body_text line.now) }
{
    match line {
        Line::Read(tx, key, version, value) => put_read(out, *tx, key, *version, value),
        Line::Own(tx, key, value) => put_own(out, *tx, key, value),
        Line::Refused(tx, dc, reason) => {
            put(
                out,
                &[
                    Piece::Tx(*tx),
                    Piece::Word(b" refused "),
                    Piece::Dc(*dc),
                    Piece::Word(b" "),
                ],
            )?;
            put_reason(out, reason)
        }
        Line::Learned(tx, outcome) => put(
            out,
            &[
                Piece::Tx(*tx),
                Piece::Word(b" "),
                Piece::Word(ended_word(*outcome)),
            ],
        ),
        Line::Settled(count) => put(out, &[Piece::Word(b"settled "), Piece::Number(*count)]),
        Line::Order(txs) => put_order(out, txs.as_slice()),
        Line::Stopped(node) => put(out, &[Piece::Node(*node), Piece::Word(b" stopped")]),
        Line::Up(node) => put(out, &[Piece::Node(*node), Piece::Word(b" up")]),
        Line::Pending(number, envelope) => put_pending(out, *number, envelope),
        Line::Row(node, key, version, hold, value) => {
            put_row(out, *node, key, *version, *hold, value)
        }
        Line::Down(node) => put(out, &[Piece::Node(*node), Piece::Word(b" down")]),
        Line::Outside(number) => {
            put_line(out, *number)?;
            put(out, &[Piece::Word(b"outside the grammar")])
        }
        Line::Named(number, wrong) => {
            put_line(out, *number)?;
            put_wrong(out, *wrong)
        }
        Line::Limit(number, which) => put_limit_at(out, *number, *which),
        Line::ScriptBytes => put(out, &[Piece::Word(b"limit of script bytes")]),
        Line::ScriptLines => put(out, &[Piece::Word(b"limit of lines")]),
        Line::Full(which) => put_limit(out, *which),
        Line::Log(node, fault) => put_log_fault(out, *node, *fault),
        Line::Workload => put(out, &[Piece::Word(b"workload refused")]),
        Line::Left(tx, rest) => put(
            out,
            &[
                Piece::Tx(*tx),
                Piece::Word(b" "),
                Piece::Word(rest_word(*rest)),
            ],
        ),
        Line::Counted(count, number) => put(
            out,
            &[
                Piece::Word(count_word(*count)),
                Piece::Word(b" "),
                Piece::Number(*number),
            ],
        ),
    }
}

/// Adds the line's text with its line feed at the end, or leaves all as before.
pub fn render(line: &Line, out: &mut Text) -> Result<(), NoMemory>
    ensures ok { OnOk result (out.new ≡ out.old ++ line_text line.now) }
    ensures err { OnErr result (out.new ≡ out.old) }
{
    let mut text = Text::new(out.allocator());
    put_body(&mut text, line)?;
    text.push(b'\n')?;
    out.push_bytes(text.as_bytes())
}
