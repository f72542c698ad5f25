// The rows of catch-up, by pages of outcomes.
ghost use Rattle.std.specs.Prelude.{◌≡◌, ◌≤◌, ◌==◌, false, [], length, if◌then◌else◌, IsOk, OnOk, OnErr, IfOk, IfErr};
ghost use Rattle.rc_ids.specs.Cluster.{Layout};
ghost use Rattle.rc_msg.specs.declared.msg.Msg.TheVariants.{CatchAsk};
ghost use Rattle.rc_msg.specs.Posts.{posted_all, Grows};
ghost use Rattle.rc_record.specs.declared.record.Record.TheVariants.{Decided};
ghost use Rattle.rc_record.specs.Spelling.{record_bytes};
ghost use Rattle.rc_record.specs.CoordState.{outcomes_joined};
ghost use Rattle.rc_protocol.specs.Messages.{coordinator as coordinator_of, one};
ghost use Rattle.rc_protocol.specs.Coordinator.{cursor_of, with_coord_cursor, takes_page, is_next_coord_page, forgotten_all, do_catch, on_catch_ask, on_catch_page};
ghost use Rattle.rc_node.specs.Acts.{Acts, Refuses, Tells, coord_does};
ghost use Rattle.rc_coord.specs.Rows.{only_placed, asks_at, AreNew, takes_new, placed};
ghost use Rattle.rc_coord.specs.Sites.{site_of, view_of, volatile_of, Fits};

use crate::home::Home;
use crate::pages::{next_ask, next_place, post_ask, post_page, undecided};
use crate::tables::{Store, Tables, forget};
use rc_body::Page;
use rc_coord_tables::Places;
use rc_ids::{Blob, DcId, NoMemory, NodeId, Party};
use rc_log::Journal;
use rc_msg::{Msg, Outbox};
use rc_node::{NodeFault, append};
use rc_record::{Record, encode};
use std::alloc::Global;

/// The row that asks for outcomes: the asker gets a page of them.
pub(crate) fn catch_ask(
    home: &Home,
    tables: &Tables,
    asker: Party,
    place: u32,
    out: &mut Outbox,
) -> Result<(), NoMemory>
    ensures ok { let old = view_of tables.now out.old in
        OnOk result (Tells old (view_of tables.now out.new) (coord_does old.durable (on_catch_ask home.now.dc old.durable old.volatile asker place))) }
    ensures err { OnErr result (out.new ≡ out.old) }
{
    let page = tables.outcomes.page(place)?;
    out.push(asker, &Msg::CatchPage(home.dc, place, page))
}

/// Asks another coordinator for its outcomes from the place on to which its list was caught up with.
fn ask_other(home: &Home, places: &Places, other: DcId, out: &mut Outbox) -> Result<(), NoMemory>
    ensures ok { OnOk result (out.new ≡ posted_all out.old (if other == home.now.dc then [] else one (coordinator_of other) (CatchAsk (cursor_of (only_placed places.now.table) other)))) }
    ensures grows { Grows out.old out.new }
{
    let to = Party::Node(NodeId::Coord(other));
    if other != home.dc {
        out.push(to, &Msg::CatchAsk(places.get(other)))?;
    }
    Ok(())
}

fn ask_others(home: &Home, places: &Places, out: &mut Outbox) -> Result<(), NoMemory>
    ensures ok { OnOk result (out.new ≡ posted_all out.old (do_catch home.now.cluster home.now.dc (only_placed places.now.table)).sends) }
    ensures grows { Grows out.old out.new }
{
    for number in 0..home.cluster.dcs() {
        ask_other(home, places, DcId(number + 1), out)?;
    }
    Ok(())
}

/// Asks each other coordinator, in order; or leaves all as before.
pub(crate) fn catch_up(home: &Home, places: &Places, out: &mut Outbox) -> Result<(), NoMemory>
    ensures ok { OnOk result (out.new ≡ posted_all out.old (do_catch home.now.cluster home.now.dc (only_placed places.now.table)).sends) }
    ensures err { OnErr result (out.new ≡ out.old) }
{
    let before = out.len();
    match ask_others(home, places, out) {
        Ok(()) => Ok(()),
        Err(NoMemory) => {
            out.cut(before);
            Err(NoMemory)
        }
    }
}

/// The bytes of the record of these outcomes.
fn page_bytes(alloc: Global, page: &Page) -> Result<Blob, NoMemory>
    ensures { IfOk result (λ bytes. bytes ≡ record_bytes (Decided page.now)) }
{
    encode(alloc, &Record::Decided(page.copy()?))
}

/// Adds the outcomes, of which none was known, and forgets what was kept of their transactions. There is room for them.
fn settle(tables: &mut Tables, page: Page)
    requires new { AreNew tables.old.outcomes.entries page }
    requires room { length page ≤ tables.old.outcomes.spare }
    ensures fit { (c : Layout) → Fits c tables.old → Fits c tables.new }
    ensures outcomes { tables.new.outcomes.entries ≡ outcomes_joined tables.old.outcomes.entries page }
    ensures promises { tables.new.acceptor ≡ tables.old.acceptor }
    ensures volatile { volatile_of tables.new ≡ forgotten_all (volatile_of tables.old) page }
{
    for (tx, decision) in page.into_entries() {
        tables.outcomes.push(tx, decision).unwrap();
        forget(tables, tx);
    }
}

/// Learns the outcomes, of which none was known, after which the list of the datacentre is caught up with to the next place.
fn take_new<J: Journal>(
    home: &Home,
    store: &mut Store<J>,
    from: DcId,
    fresh: Page,
    next: u32,
    ask: Option<u32>,
    out: &mut Outbox,
) -> Result<(), NodeFault>
    requires sound { (J.state store.old.journal).failed ≡ false }
    requires new { AreNew store.old.tables.outcomes.entries fresh }
    requires fit { Fits home.now.cluster store.old.tables }
    ensures fit { Fits home.now.cluster store.new.tables }
    ensures ok { let old = site_of J.state store.old out.old in
        OnOk result (Acts old (site_of J.state store.new out.new) (coord_does old.durable (takes_new home.now.cluster home.now.dc (with_coord_cursor old.volatile from next) fresh (asks_at from ask)))) }
    ensures err { let old = site_of J.state store.old out.old in
        IfErr result (λ fault. Refuses fault (J.may_leave store.new.journal) old (site_of J.state store.new out.new) (coord_does old.durable (takes_new home.now.cluster home.now.dc (with_coord_cursor old.volatile from next) fresh (asks_at from ask)))) }
{
    let before = out.len();
    let bytes = page_bytes(home.alloc, &fresh)?;
    store.tables.places.room()?;
    store.tables.outcomes.room(fresh.len())?;
    post_page(&home.cluster, home.dc, &fresh, from, ask, out)?;
    match append(&mut store.journal, bytes.as_bytes()) {
        Ok(()) => {
            store.tables.places.put(from, next);
            settle(&mut store.tables, fresh);
            Ok(())
        }
        Err(fault) => {
            out.cut(before);
            Err(fault)
        }
    }
}

/// Moves the place in the list of the datacentre, where a page has nothing new.
fn pass(
    tables: &mut Tables,
    from: DcId,
    next: u32,
    ask: Option<u32>,
    out: &mut Outbox,
) -> Result<(), NoMemory>
    ensures fit { (c : Layout) → Fits c tables.old → Fits c tables.new }
    ensures ok { OnOk result (view_of tables.new out.new ≡ placed (view_of tables.old out.old) from next (asks_at from ask)) }
    ensures err { OnErr result (view_of tables.new out.new ≡ view_of tables.old out.old) }
{
    tables.places.room()?;
    post_ask(from, ask, out)?;
    tables.places.put(from, next);
    Ok(())
}

/// Takes what is new of a page, after which the list of the datacentre is caught up with to the next place.
fn take_page<J: Journal>(
    home: &Home,
    store: &mut Store<J>,
    from: DcId,
    fresh: Page,
    next: u32,
    ask: Option<u32>,
    out: &mut Outbox,
) -> Result<(), NodeFault>
    requires sound { (J.state store.old.journal).failed ≡ false }
    requires new { AreNew store.old.tables.outcomes.entries fresh }
    requires fit { Fits home.now.cluster store.old.tables }
    ensures fit { Fits home.now.cluster store.new.tables }
    ensures ok { let old = site_of J.state store.old out.old in
        OnOk result (Acts old (site_of J.state store.new out.new) (coord_does old.durable (takes_page home.now.cluster home.now.dc (with_coord_cursor old.volatile from next) fresh (asks_at from ask)))) }
    ensures err { let old = site_of J.state store.old out.old in
        IfErr result (λ fault. Refuses fault (J.may_leave store.new.journal) old (site_of J.state store.new out.new) (coord_does old.durable (takes_page home.now.cluster home.now.dc (with_coord_cursor old.volatile from next) fresh (asks_at from ask)))) }
{
    if fresh.is_empty() {
        pass(&mut store.tables, from, next, ask, out)?;
        return Ok(());
    }
    take_new(home, store, from, fresh, next, ask, out)
}

/// The row of a page of another coordinator's outcomes: what is new is learned, and after a full page the next one is asked for.
pub(crate) fn catch_page<J: Journal>(
    home: &Home,
    store: &mut Store<J>,
    from: DcId,
    place: u32,
    page: &Page,
    out: &mut Outbox,
) -> Result<(), NodeFault>
    requires sound { (J.state store.old.journal).failed ≡ false }
    requires fit { Fits home.now.cluster store.old.tables }
    ensures fit { Fits home.now.cluster store.new.tables }
    ensures ok { let old = site_of J.state store.old out.old in
        OnOk result (Acts old (site_of J.state store.new out.new) (coord_does old.durable (on_catch_page home.now.cluster home.now.dc old.durable old.volatile from place page.now))) }
    ensures err { let old = site_of J.state store.old out.old in
        IfErr result (λ fault. Refuses fault (J.may_leave store.new.journal) old (site_of J.state store.new out.new) (coord_does old.durable (on_catch_page home.now.cluster home.now.dc old.durable old.volatile from place page.now))) }
    ensures ignored { is_next_coord_page home.now.dc (volatile_of store.old.tables) from place page.now ≡ false → IsOk result }
{
    match next_place(home.dc, &store.tables.places, from, place, page) {
        None => Ok(()),
        Some(next) => {
            let fresh = undecided(home.alloc, &store.tables.outcomes, page)?;
            take_page(home, store, from, fresh, next, next_ask(next, page), out)
        }
    }
}
