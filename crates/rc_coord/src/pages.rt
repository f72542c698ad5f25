// Pages of the outcomes of other coordinators.
ghost use Rattle.std.specs.Prelude.{◌≡◌, ◌+◌, ◌==◌, ◌++◌, Some, None, length, if◌then◌else◌, OnOk, OnErr, IfOk};
ghost use Rattle.rc_body.specs.Pages.{IsPage};
ghost use Rattle.rc_msg.specs.Posts.{posted_all, Grows};
ghost use Rattle.rc_protocol.specs.Messages.{most_entries};
ghost use Rattle.rc_protocol.specs.Coordinator.{is_next_coord_page, undecided as undecided_of, finish_all_posts};
ghost use Rattle.rc_coord.specs.Rows.{only_placed, asks_at};

use crate::posting::{coordinator, post_finishes};
use rc_body::Page;
use rc_catch::Outcomes;
use rc_coord_tables::Places;
use rc_ids::{Cluster, DcId, NoMemory};
use rc_msg::{Msg, Outbox};
use std::alloc::Global;

/// The place after the page of another coordinator, if the page stands at its catch-up place and that is a place.
pub(crate) fn next_place(
    dc: DcId,
    places: &Places,
    from: DcId,
    place: u32,
    page: &Page,
) -> Option<u32>
    ensures { result ≡ (if is_next_coord_page dc (only_placed places.now.table) from place page.now then Some (place + length page.now) else None) }
{
    if from == dc || place != places.get(from) {
        return None;
    }
    place.checked_add(page.len() as u32)
}

/// The place from which the next page is asked for: after a full page there may be more.
pub(crate) fn next_ask(next: u32, page: &Page) -> Option<u32>
    ensures { result ≡ (if length page.now == most_entries then Some next else None) }
{
    if page.len() == Page::MOST_ENTRIES {
        Some(next)
    } else {
        None
    }
}

/// The entries whose transactions have no outcome here.
pub(crate) fn undecided(alloc: Global, outcomes: &Outcomes, page: &Page) -> Result<Page, NoMemory>
    ensures fresh { IfOk result (λ fresh. fresh ≡ undecided_of outcomes.now.entries page.now) }
    ensures page { IsPage page.now }
{
    let mut fresh = Page::new(alloc);
    for index in 0..page.len() {
        let (tx, decision) = page.entry(index);
        if outcomes.get(tx).is_none() {
            fresh.push(tx, decision.copy()?)?;
        }
    }
    Ok(fresh)
}

/// Asks a coordinator for its outcomes from the place on, if there is one; or leaves all as before.
pub(crate) fn post_ask(from: DcId, ask: Option<u32>, out: &mut Outbox) -> Result<(), NoMemory>
    ensures ok { OnOk result (out.new ≡ posted_all out.old (asks_at from ask)) }
    ensures grows { Grows out.old out.new }
    ensures err { OnErr result (out.new ≡ out.old) }
{
    match ask {
        Some(place) => out.push(coordinator(from), &Msg::CatchAsk(place)),
        None => Ok(()),
    }
}

/// Tells the shards each outcome of the page, in order.
fn post_learned(cluster: &Cluster, dc: DcId, page: &Page, out: &mut Outbox) -> Result<(), NoMemory>
    ensures ok { OnOk result (out.new ≡ posted_all out.old (finish_all_posts cluster.now dc page.now)) }
    ensures grows { Grows out.old out.new }
{
    for index in 0..page.len() {
        let (tx, decision) = page.entry(index);
        post_finishes(cluster, dc, tx, decision, out)?;
    }
    Ok(())
}

/// Tells the shards each outcome of the page, and then asks for the next page.
fn post_learned_and_ask(
    cluster: &Cluster,
    dc: DcId,
    page: &Page,
    from: DcId,
    ask: Option<u32>,
    out: &mut Outbox,
) -> Result<(), NoMemory>
    ensures ok { OnOk result (out.new ≡ posted_all out.old (finish_all_posts cluster.now dc page.now ++ asks_at from ask)) }
    ensures grows { Grows out.old out.new }
{
    post_learned(cluster, dc, page, out)?;
    post_ask(from, ask, out)
}

/// The same, or leaves all as before.
pub(crate) fn post_page(
    cluster: &Cluster,
    dc: DcId,
    page: &Page,
    from: DcId,
    ask: Option<u32>,
    out: &mut Outbox,
) -> Result<(), NoMemory>
    ensures ok { OnOk result (out.new ≡ posted_all out.old (finish_all_posts cluster.now dc page.now ++ asks_at from ask)) }
    ensures grows { Grows out.old out.new }
    ensures err { OnErr result (out.new ≡ out.old) }
{
    let before = out.len();
    match post_learned_and_ask(cluster, dc, page, from, ask, out) {
        Ok(()) => Ok(()),
        Err(NoMemory) => {
            out.cut(before);
            Err(NoMemory)
        }
    }
}
