// Writing fields.
ghost use Rattle.std.specs.Prelude.{◌≡◌, ◌++◌, ◌≤◌, ◌^◌, ◌<◌, length, take, OnOk, OnErr};
ghost use Rattle.rc_fields.specs.Spelling.{u8_bytes, u16_bytes, u32_bytes, u64_bytes, key_bytes, val_bytes, node_bytes, party_bytes};

use byteorder::{BigEndian, ByteOrder};
use rc_ids::{Blob, Key, NoMemory, NodeId, Party, TxId, Val};

/// Adds one byte at the end, or leaves all as before.
pub fn put_u8(out: &mut Blob, v: u8) -> Result<(), NoMemory>
    ensures ok { OnOk result (out.new ≡ out.old ++ u8_bytes v) }
    ensures err { OnErr result (out.new ≡ out.old) }
{
    out.push(v)
}

/// Adds a number of two bytes at the end, or leaves all as before.
pub fn put_u16(out: &mut Blob, v: u16) -> Result<(), NoMemory>
    ensures ok { OnOk result (out.new ≡ out.old ++ u16_bytes v) }
    ensures err { OnErr result (out.new ≡ out.old) }
{
    let mut bytes = [0u8; 2];
    BigEndian::write_u16(&mut bytes, v);
    out.push_bytes(&bytes)
}

/// Adds a number of four bytes at the end, or leaves all as before.
pub fn put_u32(out: &mut Blob, v: u32) -> Result<(), NoMemory>
    ensures ok { OnOk result (out.new ≡ out.old ++ u32_bytes v) }
    ensures err { OnErr result (out.new ≡ out.old) }
{
    let mut bytes = [0u8; 4];
    BigEndian::write_u32(&mut bytes, v);
    out.push_bytes(&bytes)
}

/// Adds a number of eight bytes at the end, or leaves all as before.
pub fn put_u64(out: &mut Blob, v: u64) -> Result<(), NoMemory>
    ensures ok { OnOk result (out.new ≡ out.old ++ u64_bytes v) }
    ensures err { OnErr result (out.new ≡ out.old) }
{
    let mut bytes = [0u8; 8];
    BigEndian::write_u64(&mut bytes, v);
    out.push_bytes(&bytes)
}

/// Adds bytes behind what stands after `start`, or takes away all that stands there.
fn finish(out: &mut Blob, start: usize, bytes: &[u8]) -> Result<(), NoMemory>
    ensures ok { OnOk result (out.new ≡ out.old ++ bytes.now) }
    ensures err { OnErr result (out.new ≡ take start out.old) }
{
    match out.push_bytes(bytes) {
        Ok(()) => Ok(()),
        Err(fault) => {
            out.truncate(start);
            Err(fault)
        }
    }
}

/// Adds a key at the end, its length in one byte, or leaves all as before.
pub fn put_key(out: &mut Blob, v: &Key) -> Result<(), NoMemory>
    ensures ok { OnOk result (out.new ≡ out.old ++ key_bytes v.now) }
    ensures err { OnErr result (out.new ≡ out.old) }
{
    let start = out.len();
    let bytes = v.as_bytes();
    put_u8(out, bytes.len() as u8)?;
    finish(out, start, bytes)
}

/// Adds a value at the end, its length in two bytes, or leaves all as before.
pub fn put_val(out: &mut Blob, v: &Val) -> Result<(), NoMemory>
    ensures ok { OnOk result (out.new ≡ out.old ++ val_bytes v.now) }
    ensures err { OnErr result (out.new ≡ out.old) }
{
    let start = out.len();
    let bytes = v.as_bytes();
    put_u16(out, bytes.len() as u16)?;
    finish(out, start, bytes)
}

/// Adds a node at the end, or leaves all as before.
pub fn put_node(out: &mut Blob, v: &NodeId) -> Result<(), NoMemory>
    ensures ok { OnOk result (out.new ≡ out.old ++ node_bytes v.now) }
    ensures err { OnErr result (out.new ≡ out.old) }
{
    match v {
        NodeId::Coord(dc) => out.push_bytes(&[0, dc.0]),
        NodeId::Shard(dc, shard) => out.push_bytes(&[1, dc.0, shard.0]),
    }
}

/// Adds the client of a transaction at the end, or leaves all as before.
fn put_client(out: &mut Blob, tx: TxId) -> Result<(), NoMemory>
    ensures ok { OnOk result (out.new ≡ out.old ++ (u8_bytes 2 ++ u32_bytes tx)) }
    ensures err { OnErr result (out.new ≡ out.old) }
{
    let start = out.len();
    put_u8(out, 2)?;
    let written = put_u32(out, tx.0);
    cut_on_err(out, start, written)
}

/// Adds a party at the end, or leaves all as before.
pub fn put_party(out: &mut Blob, v: &Party) -> Result<(), NoMemory>
    ensures ok { OnOk result (out.new ≡ out.old ++ party_bytes v.now) }
    ensures err { OnErr result (out.new ≡ out.old) }
{
    match v {
        Party::Node(node) => put_node(out, node),
        Party::Client(tx) => put_client(out, *tx),
    }
}

/// What was written; where it failed, all behind the first `start` bytes is taken away.
pub fn cut_on_err(
    out: &mut Blob,
    start: usize,
    written: Result<(), NoMemory>,
) -> Result<(), NoMemory>
    ensures same { result ≡ written }
    ensures ok { OnOk result (out.new ≡ out.old) }
    ensures err { OnErr result (out.new ≡ take start out.old) }
{
    if written.is_err() {
        out.truncate(start);
    }
    written
}
