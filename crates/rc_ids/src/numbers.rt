// The numbers that name things, each within its range.
use std::marker::Model;

/// A datacentre, `d1` to `d7`.
#[derive(Clone, Copy, Debug, PartialEq, Eq, PartialOrd, Ord, Hash)]
pub struct DcId(pub u8);

impl Model for DcId {
    ghost use Rattle.std.specs.Prelude.{ℕ, ◌≤◌};

    ghost Value = { ℕ };

    ghost view = { λ d. d.0 };

    ghost invariant = { λ d. (1 ≤ d.0) × (d.0 ≤ 7) };

    ghost inverse = { λ n. record { 0 = n } };
}

/// A shard of a datacentre, `s1` to `s8`.
#[derive(Clone, Copy, Debug, PartialEq, Eq, PartialOrd, Ord, Hash)]
pub struct ShardId(pub u8);

impl Model for ShardId {
    ghost use Rattle.std.specs.Prelude.{ℕ, ◌≤◌};

    ghost Value = { ℕ };

    ghost view = { λ s. s.0 };

    ghost invariant = { λ s. (1 ≤ s.0) × (s.0 ≤ 8) };

    ghost inverse = { λ n. record { 0 = n } };
}

/// A transaction and its client, `t1` to `t4294967295`.
#[derive(Clone, Copy, Debug, PartialEq, Eq, PartialOrd, Ord, Hash)]
pub struct TxId(pub u32);

impl Model for TxId {
    ghost use Rattle.std.specs.Prelude.{ℕ, ◌≤◌};

    ghost Value = { ℕ };

    ghost view = { λ t. t.0 };

    ghost invariant = { λ t. 1 ≤ t.0 };

    ghost inverse = { λ n. record { 0 = n } };
}

/// A ballot of a transaction: 0 is the client's, each other one belongs to a datacentre.
#[derive(Clone, Copy, Debug, PartialEq, Eq, PartialOrd, Ord, Hash)]
pub struct Ballot(pub u32);

impl Model for Ballot {
    ghost use Rattle.std.specs.Prelude.{ℕ, ◌≤◌, ◌^◌};

    ghost Value = { ℕ };

    ghost view = { λ b. b.0 };

    ghost invariant = { λ b. b.0 ≤ 2 ^ 31 };

    ghost inverse = { λ n. record { 0 = n } };
}

/// How often a key was written; 0 where it never was.
#[derive(Clone, Copy, Debug, PartialEq, Eq, PartialOrd, Ord, Hash)]
pub struct Version(pub u64);

impl Model for Version {
    ghost use Rattle.std.specs.Prelude.{ℕ, ◌<◌, ◌^◌};

    ghost Value = { ℕ };

    ghost view = { λ v. v.0 };

    ghost invariant = { λ v. v.0 < 2 ^ 62 };

    ghost inverse = { λ n. record { 0 = n } };
}
