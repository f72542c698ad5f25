// Reading the fields that name something. Where None is answered the reader is as before.
ghost use Rattle.std.specs.Prelude.{◌≡◌, None, IfNone};
ghost use Rattle.rc_fields.specs.Formats.{Gives};
ghost use Rattle.rc_fields.specs.Names.{byte_at, place_at, tx_at, ballot_at, version_at, dc_at, shard_at, node_at, party_at};

use crate::Fields;
use rc_ids::{Ballot, DcId, NodeId, Party, ShardId, TxId, Version};

const MOST_BALLOTS: u32 = 1 << 31;

const VERSIONS: u64 = 1 << 62;

impl<'a> Fields<'a> {
    /// The byte that stands first.
    #[tactic(auto, unfolding(crate::specs::Names::byte_at))]
    pub fn byte(&mut self) -> Option<u8>
        ensures gives { Gives result self.new (byte_at self.old) }
        ensures none { IfNone result (self.new ≡ self.old) }
    {
        self.u8().ok()
    }

    /// The place that stands first.
    #[tactic(auto, unfolding(crate::specs::Names::place_at))]
    pub fn place(&mut self) -> Option<u32>
        ensures gives { Gives result self.new (place_at self.old) }
        ensures none { IfNone result (self.new ≡ self.old) }
    {
        self.u32().ok()
    }

    /// The transaction that stands first.
    #[tactic(auto, unfolding(crate::specs::Names::tx_at, crate::specs::Formats::tested_at))]
    pub fn tx(&mut self) -> Option<TxId>
        ensures gives { Gives result self.new (tx_at self.old) }
        ensures none { IfNone result (self.new ≡ self.old) }
    {
        let mut ahead = Fields::new(self.rest());
        let number = ahead.place()?;
        if number < 1 {
            return None;
        }
        *self = ahead;
        Some(TxId(number))
    }

    /// The ballot that stands first.
    #[tactic(auto, unfolding(crate::specs::Names::ballot_at, crate::specs::Formats::tested_at))]
    pub fn ballot(&mut self) -> Option<Ballot>
        ensures gives { Gives result self.new (ballot_at self.old) }
        ensures none { IfNone result (self.new ≡ self.old) }
    {
        let mut ahead = Fields::new(self.rest());
        let number = ahead.place()?;
        if number > MOST_BALLOTS {
            return None;
        }
        *self = ahead;
        Some(Ballot(number))
    }

    /// The version that stands first.
    #[tactic(auto, unfolding(crate::specs::Names::version_at, crate::specs::Names::long_at, crate::specs::Formats::tested_at))]
    pub fn version(&mut self) -> Option<Version>
        ensures gives { Gives result self.new (version_at self.old) }
        ensures none { IfNone result (self.new ≡ self.old) }
    {
        let mut ahead = Fields::new(self.rest());
        let number = ahead.u64().ok()?;
        if number >= VERSIONS {
            return None;
        }
        *self = ahead;
        Some(Version(number))
    }

    /// The datacentre that stands first.
    #[tactic(auto, unfolding(crate::specs::Names::dc_at, crate::specs::Formats::tested_at))]
    pub fn dc(&mut self) -> Option<DcId>
        ensures gives { Gives result self.new (dc_at self.old) }
        ensures none { IfNone result (self.new ≡ self.old) }
    {
        let mut ahead = Fields::new(self.rest());
        let number = ahead.byte()?;
        if number < 1 || number > 7 {
            return None;
        }
        *self = ahead;
        Some(DcId(number))
    }

    /// The shard that stands first.
    #[tactic(auto, unfolding(crate::specs::Names::shard_at, crate::specs::Formats::tested_at))]
    pub fn shard(&mut self) -> Option<ShardId>
        ensures gives { Gives result self.new (shard_at self.old) }
        ensures none { IfNone result (self.new ≡ self.old) }
    {
        let mut ahead = Fields::new(self.rest());
        let number = ahead.byte()?;
        if number < 1 || number > 8 {
            return None;
        }
        *self = ahead;
        Some(ShardId(number))
    }

    /// The node that stands first.
    pub fn node(&mut self) -> Option<NodeId>
        ensures gives { Gives result self.new (node_at self.old) }
        ensures none { IfNone result (self.new ≡ self.old) }
    {
        let mut ahead = Fields::new(self.rest());
        let node = read_node(&mut ahead)?;
        *self = ahead;
        Some(node)
    }

    /// The party that stands first.
    pub fn party(&mut self) -> Option<Party>
        ensures gives { Gives result self.new (party_at self.old) }
        ensures none { IfNone result (self.new ≡ self.old) }
    {
        let mut ahead = Fields::new(self.rest());
        let party = read_party(&mut ahead)?;
        *self = ahead;
        Some(party)
    }
}

/// The node that stands first. Where there is none, any of the bytes may have been read.
#[tactic(auto, unfolding(crate::specs::Names::node_at, crate::specs::Formats::tagged_at, crate::specs::Formats::pick, crate::specs::Formats::mapped_at, crate::specs::Formats::both_at, crate::specs::Names::byte_at))]
fn read_node(fields: &mut Fields<'_>) -> Option<NodeId>
    ensures { Gives result fields.new (node_at fields.old) }
{
    match fields.byte()? {
        0 => Some(NodeId::Coord(fields.dc()?)),
        1 => {
            let dc = fields.dc()?;
            Some(NodeId::Shard(dc, fields.shard()?))
        }
        _ => None,
    }
}

/// The party that stands first. Where there is none, any of the bytes may have been read.
#[tactic(auto, unfolding(crate::specs::Names::party_at, crate::specs::Formats::tagged_at, crate::specs::Formats::pick, crate::specs::Formats::mapped_at, crate::specs::Formats::both_at, crate::specs::Names::byte_at))]
fn read_party(fields: &mut Fields<'_>) -> Option<Party>
    ensures { Gives result fields.new (party_at fields.old) }
{
    match fields.byte()? {
        0 => Some(Party::Node(NodeId::Coord(fields.dc()?))),
        1 => {
            let dc = fields.dc()?;
            Some(Party::Node(NodeId::Shard(dc, fields.shard()?)))
        }
        2 => Some(Party::Client(fields.tx()?)),
        _ => None,
    }
}
