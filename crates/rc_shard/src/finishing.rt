// The rows of outcomes.
ghost use Rattle.std.specs.Prelude.{◌≡◌, ◌+◌, ◌^◌, ◌<◌, ℕ, true, false, is_some, length, OnOk, IfErr, IsOk};
ghost use Rattle.std.specs.Ordering.{nat_cmp};
ghost use Rattle.rc_ids.specs.Tables.{found};
ghost use Rattle.rc_protocol.specs.Shard.{on_finish, on_catch_page, takes_page, then_says, with_shard_cursor, asks_next_shard_page, is_next_shard_page as is_next};
ghost use Rattle.rc_node.specs.Acts.{Acts, Refuses, shard_does};
ghost use Rattle.rc_shard.specs.Plans.{AreNew};
ghost use Rattle.rc_shard.specs.Rows.{asks, only_placed};
ghost use Rattle.rc_shard.specs.Sites.{site_of};

use crate::answering::post_ask;
use crate::home::Home;
use crate::pages::unfinished;
use crate::settling::settle_page;
use crate::tables::Tables;
use rc_body::{Decision, Page};
use rc_ids::TxId;
use rc_locks::LockTable;
use rc_log::Journal;
use rc_msg::Outbox;
use rc_node::NodeFault;

/// The row of an outcome.
pub(crate) fn finish<J: Journal, L: LockTable>(
    home: &Home,
    tables: &mut Tables<L>,
    journal: &mut J,
    tx: TxId,
    decision: &Decision,
    out: &mut Outbox,
) -> Result<(), NodeFault>
    requires sound { (J.state journal.old).failed ≡ false }
    ensures ok { let old = site_of L.state tables.old (J.state journal.old) out.old in
        OnOk result (Acts old (site_of L.state tables.new (J.state journal.new) out.new) (shard_does old.durable (on_finish home.now.dc old.durable old.volatile tx decision.now))) }
    ensures err { let old = site_of L.state tables.old (J.state journal.old) out.old in
        IfErr result (λ fault. Refuses fault (J.may_leave journal.new) old (site_of L.state tables.new (J.state journal.new) out.new) (shard_does old.durable (on_finish home.now.dc old.durable old.volatile tx decision.now))) }
    ensures ignored { is_some (found nat_cmp tables.old.finished.table tx) ≡ true → IsOk result }
{
    if tables.finished.has(tx) {
        return Ok(());
    }
    let page = Page::one(home.alloc, tx, decision.copy()?)?;
    settle_page(home, tables, journal, &page, None, out)
}

/// Whether the page of outcomes is the next one, and its end is a place.
fn is_next_page(caught: u32, place: u32, page: &Page) -> bool
    ensures { result ≡ is_next (only_placed caught) place page.now }
{
    place == caught && place as u64 + (page.len() as u64) < 1 << 32
}

/// What is asked for after a page that begins at this place: the next one, where the page is full.
fn next_ask(place: u32, page: &Page) -> Option<u32>
    requires { place + length page.now < 2 ^ 32 }
    ensures { (dc : ℕ) → asks dc result ≡ asks_next_shard_page dc place page.now }
{
    if page.len() == Page::MOST_ENTRIES {
        return Some(place + page.len() as u32);
    }
    None
}

/// Keeps the outcomes, if there are any, of which none is finished here; has caught up to the next place, and asks for more.
fn take_page<J: Journal, L: LockTable>(
    home: &Home,
    tables: &mut Tables<L>,
    journal: &mut J,
    left: &Page,
    next: u32,
    ask: Option<u32>,
    out: &mut Outbox,
) -> Result<(), NodeFault>
    requires sound { (J.state journal.old).failed ≡ false }
    requires new { AreNew tables.old.finished.table left.now }
    ensures ok { let old = site_of L.state tables.old (J.state journal.old) out.old in
        OnOk result (Acts old (site_of L.state tables.new (J.state journal.new) out.new) (shard_does old.durable (then_says (takes_page home.now.dc old.durable (with_shard_cursor old.volatile next) left.now) (asks home.now.dc ask)))) }
    ensures err { let old = site_of L.state tables.old (J.state journal.old) out.old in
        IfErr result (λ fault. Refuses fault (J.may_leave journal.new) old (site_of L.state tables.new (J.state journal.new) out.new) (shard_does old.durable (then_says (takes_page home.now.dc old.durable (with_shard_cursor old.volatile next) left.now) (asks home.now.dc ask)))) }
{
    if left.is_empty() {
        post_ask(home.dc, ask, out)?;
        tables.place = next;
        return Ok(());
    }
    settle_page(home, tables, journal, left, ask, out)?;
    tables.place = next;
    Ok(())
}

/// The row of a page of outcomes: what is not finished here is kept, and after a full page the next one is asked for.
pub(crate) fn catch_page<J: Journal, L: LockTable>(
    home: &Home,
    tables: &mut Tables<L>,
    journal: &mut J,
    place: u32,
    page: &Page,
    out: &mut Outbox,
) -> Result<(), NodeFault>
    requires sound { (J.state journal.old).failed ≡ false }
    ensures ok { let old = site_of L.state tables.old (J.state journal.old) out.old in
        OnOk result (Acts old (site_of L.state tables.new (J.state journal.new) out.new) (shard_does old.durable (on_catch_page home.now.cluster home.now.dc home.now.shard old.durable old.volatile place page.now))) }
    ensures err { let old = site_of L.state tables.old (J.state journal.old) out.old in
        IfErr result (λ fault. Refuses fault (J.may_leave journal.new) old (site_of L.state tables.new (J.state journal.new) out.new) (shard_does old.durable (on_catch_page home.now.cluster home.now.dc home.now.shard old.durable old.volatile place page.now))) }
    ensures ignored { is_next (only_placed tables.old.place) place page.now ≡ false → IsOk result }
{
    if !is_next_page(tables.place, place, page) {
        return Ok(());
    }
    let left = unfinished(home, &tables.finished, page)?;
    let next = place + page.len() as u32;
    let ask = next_ask(place, page);
    take_page(home, tables, journal, &left, next, ask, out)
}
