// The laws of fields.
ghost use Rattle.std.specs.Prelude.{ℕ, ◌<◌, ◌≤◌, ◌^◌, length};
ghost use Rattle.rc_ids.specs.Texts.{IsKey, IsValue};
ghost use Rattle.rc_fields.specs.Spelling.{u8_bytes, u16_bytes, u32_bytes, u64_bytes, key_bytes, val_bytes, node_bytes, party_bytes};
ghost use Rattle.rc_fields.specs.Laws.{IsKind};
ghost use Rattle.rc_fields.specs.Formats.{Reads};
ghost use Rattle.rc_fields.specs.Names.{byte_at, place_at, tx_at, ballot_at, version_at, dc_at, shard_at, key_at, value_at, node_at, party_at};
ghost use Rattle.rc_fields.specs.Ranges.{IsPlace, IsTxNumber, IsBallotNumber, IsVersionNumber, IsDcNumber, IsShardNumber, IsNodeName, IsPartyName};

/// No spelling of a field begins another of its kind.
pub fn field_laws()
    ensures u8 { IsKind u8_bytes (λ v. v < 2 ^ 8) }
    ensures u16 { IsKind u16_bytes (λ v. v < 2 ^ 16) }
    ensures u32 { IsKind u32_bytes (λ v. v < 2 ^ 32) }
    ensures u64 { IsKind u64_bytes (λ v. v < 2 ^ 64) }
    ensures key { IsKind key_bytes (λ k. length k ≤ 64) }
    ensures val { IsKind val_bytes (λ v. length v ≤ 1024) }
    ensures node { IsKind node_bytes IsNodeName }
    ensures party { IsKind party_bytes IsPartyName }
{}

/// A field is read where a spelling of its kind stands first, and nowhere else.
pub fn reading_laws()
    ensures byte { Reads u8_bytes (λ v. v < 2 ^ 8) byte_at }
    ensures place { Reads u32_bytes IsPlace place_at }
    ensures tx { Reads u32_bytes IsTxNumber tx_at }
    ensures ballot { Reads u32_bytes IsBallotNumber ballot_at }
    ensures version { Reads u64_bytes IsVersionNumber version_at }
    ensures dc { Reads u8_bytes IsDcNumber dc_at }
    ensures shard { Reads u8_bytes IsShardNumber shard_at }
    ensures key { Reads key_bytes IsKey key_at }
    ensures value { Reads val_bytes IsValue value_at }
    ensures node { Reads node_bytes IsNodeName node_at }
    ensures party { Reads party_bytes IsPartyName party_at }
{}
