// Messages that are sent, delivered and lost.
use crate::{Net, NetFault};
use rc_ids::{Blob, DcId, Letter, NodeId, Party, Sends, TxId};
use std::alloc::Global;
use std::test::Fail;

fn blob(alloc: Global, text: &[u8]) -> Result<Blob, Fail> {
    Ok(Blob::from_bytes(alloc, text)?)
}

/// Two messages of a client to a coordinator.
fn two(alloc: Global) -> Result<Sends, Fail> {
    let mut sends = Sends::new(alloc);
    sends.push(Letter {
        to: Party::Node(NodeId::Coord(DcId(1))),
        bytes: blob(alloc, b"two")?,
        mark: false,
    })?;
    sends.push(Letter {
        to: Party::Node(NodeId::Coord(DcId(2))),
        bytes: blob(alloc, b"three")?,
        mark: true,
    })?;
    Ok(sends)
}

/// A network with four messages: one, two, three, four.
fn sent(alloc: Global) -> Result<Net, Fail> {
    let mut net = Net::new(alloc);
    let client = Party::Client(TxId(7));
    net.send(
        client,
        Party::Node(NodeId::Coord(DcId(1))),
        blob(alloc, b"one")?,
    )?;
    net.room()?;
    net.send_all(Party::Client(TxId(8)), two(alloc)?)?;
    net.send_all(Party::Client(TxId(8)), Sends::new(alloc))?;
    net.send(
        Party::Client(TxId(9)),
        Party::Node(NodeId::Coord(DcId(3))),
        blob(alloc, b"four")?,
    )?;
    Ok(net)
}

#[test]
fn delivers_and_loses(rt: HostRuntime) -> Result<(), Fail> {
    let mut net = sent(rt.alloc())?;
    assert_eq!(rt; net.count(), 4);
    assert!(rt; net.is_sent(4) && !net.is_sent(5));
    assert!(rt; net.has_room_for(two(rt.alloc())?.as_slice()));
    assert_eq!(rt; net.oldest(), Some(1));
    net.deliver(2)?;
    net.deliver(2)?;
    net.lose(1)?;
    assert_eq!(rt; net.oldest(), Some(3));
    assert_eq!(rt; net.pending_after(3), Some(4));
    assert_eq!(rt; net.pending_after(4), None);
    assert_eq!(rt; net.lose(2), Err(NetFault::NotPending));
    assert_eq!(rt; net.lose(5), Err(NetFault::NoSuchMessage));
    assert_eq!(rt; net.deliver(0), Err(NetFault::NoSuchMessage));
    let Some(third) = net.sent(3) else {
        return Err(Fail::from("no message"));
    };
    assert_eq!(rt; third.bytes, b"three".as_slice());
    assert!(rt; matches!(&third.from, Party::Client(tx) if tx.0 == 8));
    Ok(())
}
