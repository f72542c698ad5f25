// The pieces of which lines are made.
ghost use Rattle.std.specs.Prelude.{◌≡◌, ◌++◌, OnOk, codes};
ghost use Rattle.std.specs.Fmt.{decimal};
ghost use Rattle.rc_report.specs.Names.{tx_text, dc_text, node_text};
ghost use Rattle.rc_report.specs.Pieces.{piece_text, pieces_text};

use rc_ids::{DcId, Key, NoMemory, NodeId, Text, TxId, Val};

/// A piece of a line.
#[derive(Clone, Copy)]
pub enum Piece<'a> {
    Word(&'a [u8]),
    Named(&'a Key),
    Held(&'a Val),
    Number(u64),
    Tx(TxId),
    Dc(DcId),
    Node(NodeId),
}

fn put_number(out: &mut Text, number: u64) -> Result<(), NoMemory>
    ensures { OnOk result (out.new ≡ out.old ++ decimal number) }
{
    let digits = number.to_string(out.allocator())?;
    out.push_bytes(digits.as_bytes())
}

fn put_tx(out: &mut Text, tx: TxId) -> Result<(), NoMemory>
    ensures { OnOk result (out.new ≡ out.old ++ tx_text tx) }
{
    out.push(b't')?;
    put_number(out, u64::from(tx.0))
}

fn put_dc(out: &mut Text, dc: DcId) -> Result<(), NoMemory>
    ensures { OnOk result (out.new ≡ out.old ++ dc_text dc) }
{
    out.push(b'd')?;
    put_number(out, u64::from(dc.0))
}

fn put_node(out: &mut Text, node: NodeId) -> Result<(), NoMemory>
    ensures { OnOk result (out.new ≡ out.old ++ node_text node) }
{
    match node {
        NodeId::Coord(dc) => put_dc(out, dc),
        NodeId::Shard(dc, shard) => {
            put_dc(out, dc)?;
            out.push_bytes(b".s")?;
            put_number(out, u64::from(shard.0))
        }
    }
}

fn put_piece(out: &mut Text, piece: &Piece<'_>) -> Result<(), NoMemory>
    ensures { OnOk result (out.new ≡ out.old ++ piece_text piece.now) }
{
    match piece {
        Piece::Word(bytes) => out.push_bytes(bytes),
        Piece::Named(key) => out.push_bytes(key.as_bytes()),
        Piece::Held(value) => out.push_bytes(value.as_bytes()),
        Piece::Number(number) => put_number(out, *number),
        Piece::Tx(tx) => put_tx(out, *tx),
        Piece::Dc(dc) => put_dc(out, *dc),
        Piece::Node(node) => put_node(out, *node),
    }
}

/// Adds the pieces at the end.
pub fn put(out: &mut Text, pieces: &[Piece<'_>]) -> Result<(), NoMemory>
    ensures { OnOk result (out.new ≡ out.old ++ pieces_text pieces.now) }
{
    for piece in pieces {
        put_piece(out, piece)?;
    }
    Ok(())
}
