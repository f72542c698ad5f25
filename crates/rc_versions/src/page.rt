// A page of rows.
ghost use Rattle.std.specs.Prelude.{◌≡◌, ◌≤◌, ◌<◌, ◌+◌, ◌++◌, [], length, nat_lt, true, false, is_some, IfOk, IsTrue, vec_len, vec_capacity};
ghost use Rattle.std.specs.Option.{option_copied};
ghost use Rattle.rc_ids.specs.Tables.{found};
ghost use Rattle.rc_ids.specs.Texts.{key_cmp};
ghost use Rattle.rc_record.specs.ShardState.{version_at};
ghost use Rattle.rc_versions.specs.Rows.{Rises, newest};
ghost use Rattle.rc_versions.specs.Pages as pages;

use crate::HeadedKey;
use crate::places::{Row, count_below, insert_at, raise_at, row_of};
use rc_ids::{NoMemory, Val, Version};
use std::alloc::Global;
use std::marker::Model;

/// At most 64 rows, for which there is memory.
#[derive(Drop)]
pub struct Page {
    rows: Vec<Row>,
}

impl Model for Page {
    ghost use Rattle.std.specs.Prelude.{◌≤◌, List, vec_len, vec_capacity};
    ghost use Rattle.rc_body.specs.Rows.{Row};

    ghost Value = { List Row };

    ghost view = { λ p. p.rows.items };

    ghost invariant = { λ p. (vec_len p.rows ≤ 64) × (64 ≤ vec_capacity p.rows) };
}

/// Moves the rows from a place on to the other list, which is empty and has room for them.
pub fn move_from(rows: &mut Vec<Row>, place: usize, others: &mut Vec<Row>)
    requires within { place ≤ vec_len rows.old }
    requires empty { others.old.items ≡ [] }
    requires room { vec_len rows.old ≤ vec_capacity others.old }
    ensures rows { rows.new.items ++ others.new.items ≡ rows.old.items }
    ensures len { vec_len rows.new ≡ place }
    ensures others_len { vec_len others.new + place ≡ vec_len rows.old }
    ensures capacity { vec_capacity rows.new ≡ vec_capacity rows.old }
    ensures others_capacity { vec_capacity others.new ≡ vec_capacity others.old }
{
    while place < rows.len() {
        others.push_reserved(rows.pop().unwrap());
    }
    others.reverse();
}

impl Page {
    /// The most rows of a page.
    pub const MOST: usize = 64;

    /// How many rows stay where a full page is split.
    const HALF: usize = 32;

    /// A page without rows.
    pub fn new(alloc: Global) -> Result<Page, NoMemory>
        ensures { IfOk result (λ p. p ≡ []) }
    {
        Ok(Page {
            rows: Vec::with_capacity(alloc, Self::MOST)?,
        })
    }

    /// The page's rows.
    pub fn rows(&self) -> &[Row]
        ensures { result.now ≡ self.now }
    {
        &self.rows
    }

    /// Whether the first row's key is this one or below it.
    pub fn starts_by(&self, key: &HeadedKey) -> bool
        ensures { result ≡ pages.starts_by key.now self.now }
    {
        match self.rows.first() {
            Some(row) => *key >= row.0,
            None => false,
        }
    }

    /// Whether the page has as many rows as it can have.
    pub fn is_full(&self) -> bool
        ensures full { IsTrue result → length self.now ≡ 64 }
        ensures room { result ≡ false → length self.now < 64 }
    {
        self.rows.len() == Self::MOST
    }

    /// The version and the value of the key, where it is there.
    pub fn get(&self, key: &HeadedKey) -> Option<&(Version, Val)>
        requires { Rises self.now }
        ensures { option_copied result ≡ found key_cmp self.now key.now }
    {
        row_of(&self.rows, key)
    }

    /// Gives the key, which is there, the version and the value, if its version there is lower, and says so.
    pub fn raise(&mut self, key: &HeadedKey, version: Version, val: Val) -> bool
        requires rises { Rises self.old }
        requires there { is_some (found key_cmp self.old key.now) ≡ true }
        ensures said { result ≡ nat_lt (version_at self.old key.now) version }
        ensures rows { self.new ≡ newest self.old key.now version val }
    {
        let place = count_below(&self.rows, key);
        raise_at(&mut self.rows, place, key, version, val)
    }

    /// Puts the key, which is not there, in its place. There is room.
    pub fn insert(&mut self, key: &HeadedKey, version: Version, val: Val)
        requires room { length self.old < 64 }
        requires rises { Rises self.old }
        requires absent { is_some (found key_cmp self.old key.now) ≡ false }
        requires written { 0 < version }
        ensures rows { self.new ≡ newest self.old key.now version val }
        ensures newer { nat_lt (version_at self.old key.now) version ≡ true }
        ensures filled { 0 < length self.new }
    {
        let place = count_below(&self.rows, key);
        insert_at(&mut self.rows, place, key, version, val);
    }

    /// Moves the upper half of the rows, which are as many as can be, to the other page, which is empty.
    fn split(&mut self, mut upper: Page) -> Page
        requires full { length self.old ≡ 64 }
        requires empty { upper ≡ [] }
        ensures rows { self.new ++ result ≡ self.old }
        ensures lower { length self.new ≡ 32 }
        ensures upper { length result ≡ 32 }
    {
        move_from(&mut self.rows, Self::HALF, &mut upper.rows);
        upper
    }

    /// Puts the key, which is not there, in its place among the rows, which are as many as can be. The upper ones are in the other
    /// page then, which is empty before.
    pub fn insert_split(&mut self, upper: Page, key: &HeadedKey, version: Version, val: Val) -> Page
        requires full { length self.old ≡ 64 }
        requires empty { upper ≡ [] }
        requires rises { Rises self.old }
        requires absent { is_some (found key_cmp self.old key.now) ≡ false }
        requires written { 0 < version }
        ensures rows { self.new ++ result ≡ newest self.old key.now version val }
        ensures newer { nat_lt (version_at self.old key.now) version ≡ true }
        ensures lower { 0 < length self.new }
        ensures upper { 0 < length result }
    {
        let mut upper = self.split(upper);
        if upper.starts_by(key) {
            upper.insert(key, version, val);
        } else {
            self.insert(key, version, val);
        }
        upper
    }
}
