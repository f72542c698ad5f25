// A coordinator and a client on one wire, in one thread.
ghost use Rattle.std.specs.Prelude.{◌≡◌, true, [], ◌∷◌, ◌++◌, IfOk, OnOk};
ghost use Rattle.rc_ids.specs.declared.names.NodeId.TheVariants.{Coord};
ghost use Rattle.rc_ids.specs.declared.names.Party.TheVariants.{Node, Client};
ghost use Rattle.rc_wire.specs.Parties.{is_client};
ghost use Rattle.rc_wire.specs.Standings.{standing, at_first};

use crate::riding::{Answer, Closed, Rider, close};
use crate::{Blank, HaltCause, Passes, Want, Wire, WireName};
use rc_ids::{Blob, DcId, Letter, NoMemory, NodeId, Party, Sends, TxId};
use std::alloc::Global;
use std::sync::Wait;
use std::test::Fail;

/// Abandon of t1, from t1 to d1.
const ABANDON: [u8; 12] = [2, 0, 0, 0, 1, 0, 1, 13, 0, 0, 0, 1];

/// One message.
pub fn one(alloc: Global, to: Party) -> Result<Sends, NoMemory> {
    let mut sends = Sends::new(alloc);
    sends.push(Letter {
        to,
        bytes: Blob::from_bytes(alloc, &ABANDON)?,
        mark: false,
    })?;
    Ok(sends)
}

/// A wire of the coordinator d1 and the client t1.
#[derive(Drop)]
struct Two<W: WireName> {
    wire: Wire<W>,
    passes: Passes<W>,
    node: Rider<W>,
    client: Rider<W>,
}

/// The last party, with its pass.
pub fn rider<W: WireName>(
    alloc: Global,
    passes: &mut Passes<W>,
    party: Party,
) -> Result<Rider<W>, Fail>
    ensures { IfOk result (λ r. passes.old ≡ passes.new ++ r.pass ∷ []) }
{
    let Some(pass) = passes.pop() else {
        return Err(Fail::from("no pass"));
    };
    Ok(Rider {
        party,
        pass,
        deeds: Vec::new(alloc),
        is_done: false,
    })
}

/// The wire, on which nothing was done.
fn open_two<W: WireName>(alloc: Global, blank: Blank) -> Result<Two<W>, Fail>
    requires name { (blank.lock.board.shared.table_id ≡ W.table) × (blank.lock.board.shared.key ≡ W.names) }
    requires parties { W.names.parties ≡ Node (Coord 1) ∷ Client 1 ∷ [] }
    ensures passes { IfOk result (λ t. t.passes ≡ []) }
    ensures node { IfOk result (λ t. standing t.node.pass.mine ≡ at_first) }
    ensures client { IfOk result (λ t. (is_client t.client.pass.party ≡ true) × (standing t.client.pass.mine ≡ at_first)) }
{
    let (wire, mut passes) = Wire::<W>::open(blank);
    let client = rider(alloc, &mut passes, Party::Client(TxId(1)))?;
    let node = rider(alloc, &mut passes, Party::Node(NodeId::Coord(DcId(1))))?;
    Ok(Two {
        wire,
        passes,
        node,
        client,
    })
}

/// What a party takes by these wishes, one after another.
fn answers<R: Wait, W: WireName>(
    rt: &R,
    alloc: Global,
    wire: &Wire<W>,
    node: &mut Rider<W>,
    wants: &[Want],
) -> Result<Vec<Answer>, Fail>
    requires { standing node.old.pass.mine ≡ at_first }
    ensures { OnOk result (standing node.new.pass.mine ≡ at_first) }
{
    let nothing = Sends::new(alloc);
    let mut answers = Vec::new(alloc);
    for want in wants {
        answers.push(node.answer(rt, wire, *want, &nothing)?)?;
    }
    Ok(answers)
}

/// t1 sends a message to d1, which takes by these wishes, and once more when t1 has ended.
pub fn one_message<R: Wait, W: WireName>(
    rt: &R,
    alloc: Global,
    blank: Blank,
    wants: &[Want],
) -> Result<(Vec<Answer>, Closed), Fail>
    requires name { (blank.lock.board.shared.table_id ≡ W.table) × (blank.lock.board.shared.key ≡ W.names) }
    requires parties { W.names.parties ≡ Node (Coord 1) ∷ Client 1 ∷ [] }
{
    let Two {
        wire,
        passes,
        mut node,
        mut client,
    } = open_two::<W>(alloc, blank)?;
    client.send(rt, &wire, &one(alloc, Party::Node(NodeId::Coord(DcId(1))))?)?;
    let mut taken = answers(rt, alloc, &wire, &mut node, wants)?;
    client.end(rt, &wire)?;
    taken.push(node.answer(rt, &wire, Want::Any, &Sends::new(alloc))?)?;
    let riders = Vec::from_array(alloc, [node, client])?;
    Ok((taken, close(alloc, wire, passes, riders)?))
}

/// t1 halts the wire, or waits, twice. What d1 then takes, and how many entries there are.
pub fn without_mail<R: Wait, W: WireName>(
    rt: &R,
    alloc: Global,
    blank: Blank,
    halts: bool,
) -> Result<(Answer, usize), Fail>
    requires name { (blank.lock.board.shared.table_id ≡ W.table) × (blank.lock.board.shared.key ≡ W.names) }
    requires parties { W.names.parties ≡ Node (Coord 1) ∷ Client 1 ∷ [] }
{
    let Two {
        wire,
        passes,
        mut node,
        mut client,
    } = open_two::<W>(alloc, blank)?;
    if halts {
        wire.halt(rt, &mut client.pass, HaltCause::NoMemory);
    } else {
        wire.rest(rt, &mut client.pass, false);
        wire.rest(rt, &mut client.pass, false);
    }
    let taken = node.answer(rt, &wire, Want::Any, &Sends::new(alloc))?;
    let riders = Vec::from_array(alloc, [node, client])?;
    let closed = close(alloc, wire, passes, riders)?;
    Ok((taken, closed.history.turns().len()))
}
