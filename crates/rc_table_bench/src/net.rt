// Messages sent and delivered.
use rc_ids::{Blob, DcId, Letter, NodeId, Party, Sends, TxId};
use rc_net::Net;
use std::alloc::Global;

/// The bytes of one message.
const MESSAGE: [u8; 30] = [7; 30];

/// A list of seven messages.
fn seven(alloc: Global) -> anyhow::Result<Sends> {
    let mut sends = Sends::new(alloc);
    for _ in 0..7 {
        sends.push(Letter {
            to: Party::Node(NodeId::Coord(DcId(1))),
            bytes: Blob::from_bytes(alloc, &MESSAGE)?,
            mark: true,
        })?;
    }
    Ok(sends)
}

/// Sends so many messages in lists of seven, loses every thousandth, and delivers the others, the oldest first.
pub fn run(alloc: Global, size: u32) -> anyhow::Result<String> {
    let mut net = Net::new(alloc);
    for _ in 0..size / 7 {
        net.send_all(Party::Client(TxId(1)), seven(alloc)?)?;
    }
    let mut lost = 0u32;
    for thousand in 1..size / 1_000 {
        if net.lose(thousand * 1_000).is_ok() {
            lost = lost.saturating_add(1);
        }
    }
    let mut delivered = 0u32;
    for _ in 0..size {
        let Some(oldest) = net.oldest() else {
            break;
        };
        net.deliver(oldest)?;
        delivered = delivered.saturating_add(1);
    }
    let sent = net.count();
    Ok(format!(in alloc; "{sent} sent, {lost} lost, {delivered} delivered")?)
}
