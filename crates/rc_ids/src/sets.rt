// Sets of datacentres and of shards.
ghost use Rattle.std.specs.Prelude.{◌≡◌, ℕ, ◌≤◌, length, [], count_by, nat_eq};
ghost use Rattle.std.specs.Ordering.{nat_cmp};
ghost use Rattle.std.specs.Cmp.{on_equiv, on_per, partial_equiv_from_equiv};
ghost use Rattle.std.specs.Cmp.Lexicographic.{pointwise, nat_list_eq_equiv};
ghost use Rattle.rc_ids.specs.Tables.{member, added};
ghost use Rattle.rc_ids.specs.Sets.{IsRisingWithin};

use crate::{DcId, ShardId};
use std::fmt;
use std::marker::Model;

/// How many marks are set.
fn count_marks(marks: &[bool]) -> usize
    ensures count { result ≡ count_by (λ mark. mark) marks.now }
    ensures few { result ≤ length marks.now }
{
    marks.iter().filter(|mark| **mark).count()
}

/// A set of datacentres.
#[derive(Clone, Copy)]
pub struct DcSet {
    marks: [bool; 7],
}

impl Model for DcSet {
    ghost use Rattle.std.specs.Prelude.{◌≡◌, ℕ, List, length};
    ghost use Rattle.rc_ids.specs.Sets.{marked, marks_of};
    ghost use Rattle.rc_ids.specs.Marks.{seven_marks};

    ghost Value = { List ℕ };

    ghost view = { λ s. marked 1 s.marks };

    ghost invariant = { λ s. length s.marks ≡ 7 };

    ghost inverse = { λ s. record { marks = marks_of 1 7 s } };

    ghost inverse_ok = { λ s h i. record { marks = seven_marks s.marks h i } };
}

impl DcSet {
    /// The empty set.
    pub fn new() -> DcSet
        ensures { result ≡ [] }
    {
        DcSet { marks: [false; 7] }
    }

    /// The set with this datacentre.
    pub fn with(self, dc: DcId) -> DcSet
        ensures { result ≡ added nat_cmp self dc }
    {
        let DcSet { mut marks } = self;
        marks[dc.0 as usize - 1] = true;
        DcSet { marks }
    }

    /// Whether the datacentre is a member.
    pub fn has(&self, dc: DcId) -> bool
        ensures { result ≡ member nat_cmp self.now dc }
    {
        self.marks[dc.0 as usize - 1]
    }

    /// How many members there are.
    pub fn len(&self) -> u8
        ensures len { result ≡ length self.now }
        ensures members { IsRisingWithin 1 7 self.now }
    {
        count_marks(&self.marks) as u8
    }
}

impl PartialEq for DcSet {
    ghost eq = { λ s t. pointwise nat_eq s t };

    ghost laws = { on_per (λ s. s) (partial_equiv_from_equiv nat_list_eq_equiv) };

    fn eq(&self, other: &Self) -> bool {
        self.marks == other.marks
    }
}

impl Eq for DcSet {
    ghost laws = { on_equiv (λ s. s) nat_list_eq_equiv };
}

impl fmt::Debug for DcSet {
    fn fmt<W: fmt::Write>(&self, f: &mut fmt::Formatter<W>) -> fmt::Result {
        fmt::Debug::fmt(&self.marks, f)
    }
}

/// A set of shards.
#[derive(Clone, Copy)]
pub struct ShardSet {
    marks: [bool; 8],
}

impl Model for ShardSet {
    ghost use Rattle.std.specs.Prelude.{◌≡◌, ℕ, List, length};
    ghost use Rattle.rc_ids.specs.Sets.{marked, marks_of};
    ghost use Rattle.rc_ids.specs.Marks.{eight_marks};

    ghost Value = { List ℕ };

    ghost view = { λ s. marked 1 s.marks };

    ghost invariant = { λ s. length s.marks ≡ 8 };

    ghost inverse = { λ s. record { marks = marks_of 1 8 s } };

    ghost inverse_ok = { λ s h i. record { marks = eight_marks s.marks h i } };
}

impl ShardSet {
    /// The empty set.
    pub fn new() -> ShardSet
        ensures { result ≡ [] }
    {
        ShardSet { marks: [false; 8] }
    }

    /// The set with this shard.
    pub fn with(self, shard: ShardId) -> ShardSet
        ensures { result ≡ added nat_cmp self shard }
    {
        let ShardSet { mut marks } = self;
        marks[shard.0 as usize - 1] = true;
        ShardSet { marks }
    }

    /// Whether the shard is a member.
    pub fn has(&self, shard: ShardId) -> bool
        ensures { result ≡ member nat_cmp self.now shard }
    {
        self.marks[shard.0 as usize - 1]
    }

    /// How many members there are.
    pub fn len(&self) -> u8
        ensures len { result ≡ length self.now }
        ensures members { IsRisingWithin 1 8 self.now }
    {
        count_marks(&self.marks) as u8
    }
}

impl PartialEq for ShardSet {
    ghost eq = { λ s t. pointwise nat_eq s t };

    ghost laws = { on_per (λ s. s) (partial_equiv_from_equiv nat_list_eq_equiv) };

    fn eq(&self, other: &Self) -> bool {
        self.marks == other.marks
    }
}

impl Eq for ShardSet {
    ghost laws = { on_equiv (λ s. s) nat_list_eq_equiv };
}

impl fmt::Debug for ShardSet {
    fn fmt<W: fmt::Write>(&self, f: &mut fmt::Formatter<W>) -> fmt::Result {
        fmt::Debug::fmt(&self.marks, f)
    }
}
