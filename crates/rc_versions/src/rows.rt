// All rows, in the order of their keys.
ghost use Rattle.std.specs.Prelude.{◌≡◌, ◌++◌, ◌∷◌, [], MatchOption};
ghost use Rattle.std.specs.Iterator.{YieldsFirstBy, item_count};
ghost use Rattle.rc_versions.specs.Rows.{row_shown};
ghost use Rattle.rc_versions.specs.Pages.{all_rows, AreFilled};

use crate::page::Page;
use crate::places::Row;
use rc_ids::{Key, Val, Version};
use std::marker::Model;

/// The keys that were written, each with its version and its value, in the order of the keys.
#[derive(Drop)]
pub struct Rows<'a> {
    rows: &'a [Row],
    pages: &'a [Page],
}

impl<'a> Model for Rows<'a> {
    ghost use Rattle.std.specs.Prelude.{List, ◌++◌};
    ghost use Rattle.rc_body.specs.Rows.{Row};
    ghost use Rattle.rc_versions.specs.Pages.{all_rows, AreFilled};

    ghost Value = { List Row };

    ghost view = { λ r. r.rows.now ++ all_rows r.pages.now };

    ghost invariant = { λ r. AreFilled r.pages.now };
}

/// The first row, and what comes after it: the rows that are left at hand, and the pages.
fn first_row<'a>(rows: &'a [Row], pages: &'a [Page]) -> Option<(&'a Row, &'a [Row], &'a [Page])>
    requires { AreFilled pages.now }
    ensures first { MatchOption result (rows.now ++ all_rows pages.now ≡ []) (λ r. rows.now ++ all_rows pages.now ≡ r.0.now ∷ (r.1.now ++ all_rows r.2.now)) }
    ensures filled { MatchOption result (AreFilled pages.now) (λ r. AreFilled r.2.now) }
{
    if let Some((first, others)) = rows.split_first() {
        return Some((first, others, pages));
    }
    let (page, later) = pages.split_first()?;
    let (first, others) = page.rows().split_first()?;
    Some((first, others, later))
}

impl<'a> Rows<'a> {
    /// These rows, and after them those of the pages.
    pub(crate) fn new(rows: &'a [Row], pages: &'a [Page]) -> Rows<'a>
        requires { AreFilled pages.now }
        ensures { result ≡ rows.now ++ all_rows pages.now }
    {
        Rows { rows, pages }
    }
}

impl<'a> Iterator for Rows<'a> {
    type Item = (&'a Key, Version, &'a Val);

    ghost next_gives = { YieldsFirstBy row_shown (λ rows. rows) };

    ghost remaining = { item_count (λ rows. rows) };

    fn next(&mut self) -> Option<(&'a Key, Version, &'a Val)> {
        let (first, others, pages) = first_row(self.rows, self.pages)?;
        self.rows = others;
        self.pages = pages;
        Some((first.0.key(), first.1.0, &first.1.1))
    }
}
