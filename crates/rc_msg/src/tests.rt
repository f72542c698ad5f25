// One call of each function, with ample memory, and bytes that stand in the description of messages.
use crate::{Envelope, Msg, Outbox, decode, encode};
use rc_ids::{Blob, DcId, Key, NodeId, Party, TxId, Version};
use std::alloc::Global;
use std::process::Abort;
use std::test::Fail;

/// The bytes of a message from t1 to d2.
fn written(alloc: Global, msg: Msg) -> Result<Blob, Fail> {
    let envelope = Envelope {
        from: Party::Client(TxId(1)),
        to: Party::Node(NodeId::Coord(DcId(2))),
        msg,
    };
    Ok(encode(alloc, &envelope)?)
}

fn is_message(alloc: Global, bytes: &[u8]) -> Result<bool, Fail> {
    Ok(decode(alloc, bytes)?.is_some())
}

/// The bytes are a message, and with one byte fewer or more none.
fn alone(rt: &impl Abort, alloc: Global, bytes: &mut Blob) -> Result<(), Fail> {
    assert!(rt; is_message(alloc, bytes.as_bytes())?);
    bytes.push(0)?;
    assert!(rt; !is_message(alloc, bytes.as_bytes())?);
    bytes.truncate(bytes.len().saturating_sub(2));
    assert!(rt; !is_message(alloc, bytes.as_bytes())?);
    Ok(())
}

#[test]
fn abandon(rt: HostRuntime) -> Result<(), Fail> {
    let alloc = rt.alloc();
    let mut bytes = written(alloc, Msg::Abandon(TxId(1)))?;
    assert_eq!(rt;
        bytes.as_bytes(),
        [2, 0, 0, 0, 1, 0, 2, 13, 0, 0, 0, 1].as_slice()
    );
    alone(&rt, alloc, &mut bytes)
}

#[test]
fn granted(rt: HostRuntime) -> Result<(), Fail> {
    let alloc = rt.alloc();
    let msg = Msg::Granted(TxId(1), Key::new(b"x")?, DcId(3), Version(0), None);
    let mut bytes = written(alloc, msg)?;
    let spelled = [
        2, 0, 0, 0, 1, 0, 2, 3, 0, 0, 0, 1, 1, b'x', 3, 0, 0, 0, 0, 0, 0, 0, 0, 0,
    ];
    assert_eq!(rt; bytes.as_bytes(), spelled.as_slice());
    alone(&rt, alloc, &mut bytes)
}

#[test]
fn refused(rt: HostRuntime) -> Result<(), Fail> {
    let alloc = rt.alloc();
    // ballot 0 in an Ask, and a kind that there is not
    assert!(rt; !is_message(alloc, &[2, 0, 0, 0, 1, 0, 2, 9, 0, 0, 0, 1, 0, 0, 0, 0])?);
    assert!(rt; !is_message(alloc, &[2, 0, 0, 0, 1, 0, 2, 16, 0, 0, 0, 1])?);
    Ok(())
}

#[test]
fn outbox(rt: HostRuntime) -> Result<(), Fail> {
    let alloc = rt.alloc();
    let mut out = Outbox::new(alloc, Party::Client(TxId(1)));
    assert!(rt; out.is_empty());
    out.push(Party::Node(NodeId::Coord(DcId(2))), &Msg::Abandon(TxId(1)))?;
    out.push(Party::Node(NodeId::Coord(DcId(3))), &Msg::Abandon(TxId(1)))?;
    assert_eq!(rt; out.len(), 2);
    out.cut(1);
    let sends = out.into_sends();
    assert_eq!(rt; sends.len(), 1);
    let letter = sends.get(0).ok_or("no letter")?;
    assert!(rt; letter.to == Party::Node(NodeId::Coord(DcId(2))));
    assert_eq!(rt;
        letter.bytes.as_bytes(),
        [2, 0, 0, 0, 1, 0, 2, 13, 0, 0, 0, 1].as_slice()
    );
    Ok(())
}
