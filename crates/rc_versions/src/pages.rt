// Pages one after another, searched by halves.
ghost use Rattle.std.specs.Prelude.{◌≡◌, ◌≤◌, ◌<◌, ◌+◌, [], length, nat_lt, true, false, is_some, slice_index_or, IsTrue, IfOk, OnOk, OnErr, vec_len, vec_capacity, ◌⊎◌};
ghost use Rattle.std.specs.Option.{option_copied};
ghost use Rattle.rc_ids.specs.Tables.{found};
ghost use Rattle.rc_ids.specs.Texts.{key_cmp};
ghost use Rattle.rc_record.specs.ShardState.{version_at};
ghost use Rattle.rc_versions.specs.Rows.{newest};
ghost use Rattle.rc_versions.specs.Pages.{all_rows, IsPaged, IsPageOf, reach};

use crate::HeadedKey;
use crate::page::Page;
use crate::spares::Spares;
use rc_ids::{NoMemory, Val, Version};

/// How many pages begin at this key or below it.
pub fn count_up_to(pages: &[Page], key: &HeadedKey) -> usize
    requires { IsPaged pages.now }
    ensures count { result ≡ reach key.now pages.now }
    ensures few { result ≤ length pages.now }
{
    pages.partition_point(|page| page.starts_by(key))
}

/// The place of the page where the key stands or belongs; 0 where there is no page.
pub fn page_of(pages: &[Page], key: &HeadedKey) -> usize
    requires { IsPaged pages.now }
    ensures { IsPageOf key.now pages.now result }
{
    count_up_to(pages, key).saturating_sub(1)
}

/// The version and the value of the key, where it is there.
pub fn row_at<'a>(pages: &'a [Page], at: usize, key: &HeadedKey) -> Option<&'a (Version, Val)>
    requires paged { IsPaged pages.now }
    requires page { IsPageOf key.now pages.now at }
    ensures { option_copied result ≡ found key_cmp (all_rows pages.now) key.now }
{
    if pages.len() <= at {
        return None;
    }
    pages[at].get(key)
}

/// Whether the page is there and takes a row more.
pub fn is_open(pages: &[Page], at: usize) -> bool
    ensures there { IsTrue result → at < length pages.now }
    ensures room { IsTrue result → length (slice_index_or pages.now at []) < 64 }
    ensures full { result ≡ false → at < length pages.now → length (slice_index_or pages.now at []) ≡ 64 }
{
    at < pages.len() && !pages[at].is_full()
}

/// Gives the key, which is there, the version and the value, if its version there is lower, and says so.
pub fn raise_in(pages: &mut [Page], at: usize, key: &HeadedKey, version: Version, val: Val) -> bool
    requires paged { IsPaged pages.old }
    requires page { IsPageOf key.now pages.old at }
    requires there { is_some (found key_cmp (all_rows pages.old) key.now) ≡ true }
    ensures said { result ≡ nat_lt (version_at (all_rows pages.old) key.now) version }
    ensures rows { all_rows pages.new ≡ newest (all_rows pages.old) key.now version val }
    ensures paged { IsPaged pages.new }
{
    pages[at].raise(key, version, val)
}

/// Puts the key, which is not there, in its place in its page, which takes a row more.
pub fn insert_in(pages: &mut [Page], at: usize, key: &HeadedKey, version: Version, val: Val)
    requires paged { IsPaged pages.old }
    requires page { IsPageOf key.now pages.old at }
    requires there { at < length pages.old }
    requires room { length (slice_index_or pages.old at []) < 64 }
    requires absent { is_some (found key_cmp (all_rows pages.old) key.now) ≡ false }
    requires written { 0 < version }
    ensures rows { all_rows pages.new ≡ newest (all_rows pages.old) key.now version val }
    ensures newer { nat_lt (version_at (all_rows pages.old) key.now) version ≡ true }
    ensures paged { IsPaged pages.new }
{
    pages[at].insert(key, version, val);
}

/// Puts the key, which is not there, in its place, with a page more: its page is full, or there is no page.
pub fn insert_with(
    pages: &mut Vec<Page>,
    at: usize,
    page: Page,
    key: &HeadedKey,
    version: Version,
    val: Val,
)
    requires capacity { vec_len pages.old < vec_capacity pages.old }
    requires paged { IsPaged pages.old.items }
    requires page { IsPageOf key.now pages.old.items at }
    requires full { at < length pages.old.items → length (slice_index_or pages.old.items at []) ≡ 64 }
    requires empty { page ≡ [] }
    requires absent { is_some (found key_cmp (all_rows pages.old.items) key.now) ≡ false }
    requires written { 0 < version }
    ensures rows { all_rows pages.new.items ≡ newest (all_rows pages.old.items) key.now version val }
    ensures newer { nat_lt (version_at (all_rows pages.old.items) key.now) version ≡ true }
    ensures paged { IsPaged pages.new.items }
    ensures len { vec_len pages.new ≡ vec_len pages.old + 1 }
    ensures capacity { vec_capacity pages.new ≡ vec_capacity pages.old }
{
    if at < pages.len() {
        let upper = pages[at].insert_split(page, key, version, val);
        let _placed = pages.insert(at + 1, upper);
    } else {
        let mut page = page;
        page.insert(key, version, val);
        pages.push_reserved(page);
    }
}

/// Takes a spare page, for which the list of pages has room then.
pub fn spare_page(pages: &mut Vec<Page>, spares: &mut Spares) -> Result<Page, NoMemory>
    ensures pages { pages.new.items ≡ pages.old.items }
    ensures capacity { vec_capacity pages.old ≤ vec_capacity pages.new }
    ensures page { IfOk result (λ page. page ≡ []) }
    ensures room { OnOk result (vec_len pages.new < vec_capacity pages.new) }
    ensures spares { spares.old ≤ spares.new + 1 }
    ensures kept { OnErr result (spares.old ≤ spares.new) }
    ensures err { OnErr result ((vec_capacity pages.old ≤ vec_len pages.old) ⊎ (spares.old ≡ 0)) }
{
    pages.reserve(1)?;
    spares.make(1)?;
    Ok(spares.take())
}
