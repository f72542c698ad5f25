// Pages that wait for rows.
ghost use Rattle.std.specs.Prelude.{◌≡◌, ◌≤◌, ◌<◌, ◌+◌, [], OnOk, OnErr, vec_len};
ghost use Rattle.rc_versions.specs.Pages.{AreEmpty};

use crate::page::Page;
use rc_ids::NoMemory;
use std::alloc::Global;
use std::marker::Model;

/// So many pages without rows.
#[derive(Drop)]
pub struct Spares {
    pages: Vec<Page>,
}

impl Model for Spares {
    ghost use Rattle.std.specs.Prelude.{ℕ, vec_len};
    ghost use Rattle.rc_versions.specs.Pages.{AreEmpty};

    ghost Value = { ℕ };

    ghost view = { λ s. vec_len s.pages };

    ghost invariant = { λ s. AreEmpty s.pages.items };
}

/// Adds pages without rows, until there are so many.
fn fill(pages: &mut Vec<Page>, count: usize) -> Result<(), NoMemory>
    requires { AreEmpty pages.old.items }
    ensures empty { AreEmpty pages.new.items }
    ensures kept { vec_len pages.old ≤ vec_len pages.new }
    ensures ok { OnOk result (count ≤ vec_len pages.new) }
    ensures err { OnErr result (vec_len pages.old < count) }
{
    while pages.len() < count {
        let page = Page::new(*pages.allocator())?;
        pages.push(page)?;
    }
    Ok(())
}

impl Spares {
    /// No pages.
    pub fn new(alloc: Global) -> Spares
        ensures { result ≡ 0 }
    {
        Spares {
            pages: Vec::new(alloc),
        }
    }

    /// Adds pages, until there are so many. Where there is no memory, those that were added stay.
    pub fn make(&mut self, count: usize) -> Result<(), NoMemory>
        ensures kept { self.old ≤ self.new }
        ensures ok { OnOk result (count ≤ self.new) }
        ensures err { OnErr result (self.old < count) }
    {
        fill(&mut self.pages, count)
    }

    /// Takes a page. There is one.
    pub fn take(&mut self) -> Page
        requires { 0 < self.old }
        ensures page { result ≡ [] }
        ensures left { self.new + 1 ≡ self.old }
    {
        self.pages.pop().unwrap()
    }
}
