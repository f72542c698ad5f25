// The rows of catch-up, by pages of outcomes.
ghost use Rattle.std.specs.Prelude.{◌≡◌, ◌+◌, ◌==◌, ◌++◌, [], None, Some, length, if◌then◌else◌, OnOk, IfOk};
ghost use Rattle.rc_ids.specs.Cluster as cluster_spec;
ghost use Rattle.rc_msg.specs.declared.msg.Msg.TheVariants.{CatchAsk};
ghost use Rattle.rc_protocol.specs.Messages.{one, most_entries};
ghost use Rattle.rc_protocol.specs.Messages as messages;
ghost use Rattle.rc_protocol.specs.Coordinator.{coord_stays, cursor_of, page_from, is_next_coord_page, with_coord_cursor, do_catch};
ghost use Rattle.rc_protocol.specs.Coordinator as coordinator_spec;
ghost use Rattle.rc_plain_coord.specs.Rows.{Does};

use crate::counts::{dc_count, is_dc};
use crate::sending::{coordinator, finishes_all};
use crate::volatile::Volatile;
use rc_body::Page;
use rc_ids::{Cluster, DcId, NoMemory, Party};
use rc_msg::{Messages, Msg};
use rc_record::{CoordDurable, Outcomes, Record};
use std::alloc::Global;

/// Asks another coordinator for its outcomes from the place on to which its list was caught up with.
fn asks(dc: DcId, volatile: &Volatile, other: DcId, out: &mut Messages) -> Result<(), NoMemory>
    ensures { OnOk result (out.new ≡ out.old ++ (if other == dc then [] else one (messages.coordinator other) (CatchAsk (cursor_of volatile.now other)))) }
{
    if other == dc {
        return Ok(());
    }
    out.push(coordinator(other), &Msg::CatchAsk(volatile.place(other)))
}

/// Asks each other coordinator, in order.
pub fn catch_up(
    cluster: &Cluster,
    dc: DcId,
    volatile: &Volatile,
    out: &mut Messages,
) -> Result<(), NoMemory>
    ensures { OnOk result (out.new ≡ out.old ++ (do_catch cluster.now dc volatile.now).sends) }
{
    for place in 0..dc_count(cluster) {
        asks(dc, volatile, DcId(place + 1), out)?;
    }
    Ok(())
}

/// The asker gets a page of this datacentre's outcomes.
pub fn on_catch_ask(
    alloc: Global,
    dc: DcId,
    durable: &CoordDurable,
    volatile: &Volatile,
    asker: &Party,
    place: u32,
    out: &mut Messages,
) -> Result<Option<Record>, NoMemory>
    ensures { IfOk result (λ written. Does (coordinator_spec.on_catch_ask dc durable.now volatile.now asker.now place) written volatile.now out.old out.new) }
{
    let page = durable.outcomes.page(alloc, place)?;
    out.push(*asker, &Msg::CatchPage(dc, place, page))?;
    Ok(None)
}

/// The place after the page of another coordinator, if the page stands at its catch-up place and that is a place.
fn next_place(dc: DcId, volatile: &Volatile, from: DcId, place: u32, page: &Page) -> Option<u32>
    ensures { result ≡ (if is_next_coord_page dc volatile.now from place page.now then Some (place + length page.now) else None) }
{
    if from == dc || place != volatile.place(from) {
        return None;
    }
    place.checked_add(page.len() as u32)
}

/// The entries whose transactions have no outcome here.
fn undecided(alloc: Global, outcomes: &Outcomes, page: &Page) -> Result<Page, NoMemory>
    ensures { IfOk result (λ fresh. fresh ≡ coordinator_spec.undecided outcomes.now page.now) }
{
    let mut fresh = Page::new(alloc);
    for index in 0..page.len() {
        let (tx, decision) = page.entry(index);
        if outcomes.get(tx).is_none() {
            fresh.push(tx, decision.copy()?)?;
        }
    }
    Ok(fresh)
}

/// One record for all that is new, where anything is.
fn outcomes_record(fresh: Page) -> Option<Record>
    ensures { result ≡ coordinator_spec.outcomes_record fresh }
{
    if fresh.is_empty() {
        None
    } else {
        Some(Record::Decided(fresh))
    }
}

/// After a full page the next one is asked for.
fn asks_next(from: DcId, next: u32, page: &Page, out: &mut Messages) -> Result<(), NoMemory>
    ensures { OnOk result (out.new ≡ out.old ++ (if length page.now == most_entries then one (messages.coordinator from) (CatchAsk next) else [])) }
{
    if page.len() != Page::MOST_ENTRIES {
        return Ok(());
    }
    out.push(coordinator(from), &Msg::CatchAsk(next))
}

/// Takes what is new of a page, to whose end the list of the datacentre then is caught up with.
fn takes_page(
    alloc: Global,
    cluster: &Cluster,
    dc: DcId,
    durable: &CoordDurable,
    volatile: &mut Volatile,
    from: DcId,
    place: u32,
    next: u32,
    page: &Page,
    out: &mut Messages,
) -> Result<Option<Record>, NoMemory>
    requires { next ≡ place + length page.now }
    ensures { IfOk result (λ written. Does (coordinator_spec.takes_page cluster.now dc (with_coord_cursor volatile.old from (place + length page.now)) (coordinator_spec.undecided durable.now.outcomes page.now) (coordinator_spec.asks_next_coord_page (messages.coordinator from) place page.now)) written volatile.new out.old out.new) }
{
    let fresh = undecided(alloc, &durable.outcomes, page)?;
    finishes_all(cluster, dc, &fresh, out)?;
    asks_next(from, next, page, out)?;
    volatile.keep_place(from, next)?;
    volatile.forget_all(&fresh);
    Ok(outcomes_record(fresh))
}

/// A page of another coordinator's outcomes comes; one of a datacentre outside the world is ignored.
pub fn on_catch_page(
    alloc: Global,
    cluster: &Cluster,
    dc: DcId,
    durable: &CoordDurable,
    volatile: &mut Volatile,
    from: DcId,
    place: u32,
    page: &Page,
    out: &mut Messages,
) -> Result<Option<Record>, NoMemory>
    ensures { IfOk result (λ written. Does (if cluster_spec.is_dc cluster.now from then coordinator_spec.on_catch_page cluster.now dc durable.now volatile.old from place page.now else coord_stays volatile.old) written volatile.new out.old out.new) }
{
    if !is_dc(cluster, from) {
        return Ok(None);
    }
    match next_place(dc, volatile, from, place, page) {
        Some(next) => takes_page(
            alloc, cluster, dc, durable, volatile, from, place, next, page, out,
        ),
        None => Ok(None),
    }
}
