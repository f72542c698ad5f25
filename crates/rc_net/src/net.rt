// The network.
ghost use Rattle.std.specs.Prelude.{◌≡◌, ◌≢◌, ◌+◌, ◌^◌, ◌<◌, ◌≤◌, ◌↔◌, true, false, Some, None, [], ◌∷◌, ◌++◌, length, find, nat_lt, slice_get, is_some, IfSome, IsOk, IfOk, IfErr, IsErrOf, OnOk, OnErr, MatchResult};
ghost use Rattle.std.specs.Option.{option_map};
ghost use Rattle.std.specs.Ordering.{nat_cmp};
ghost use Rattle.rc_ids.specs.Tables.{member, removed};
ghost use Rattle.rc_ids.specs.Sets.{IsRisingWithin};
ghost use Rattle.rc_net.specs.Network.{Network, bytes_of, message, messages, one_message, numbers_after, letters_bytes, fits, delivery_fault, loss_fault};
ghost use Rattle.rc_net.specs.Shown.{shown};
ghost use Rattle.rc_net.specs.declared.fault.NetFault.TheVariants.{NoMemory as WithoutMemory, WireFull as Full};

use crate::NetFault;
use crate::marks::{first_after, settle_one};
use crate::parcel::{Parcel, count_near, is_pending, left_after, post, seat};
use rc_ids::{Blob, Letter, NoMemory, NodeId, Party, Sends};
use std::alloc::Global;
use std::marker::Model;

/// A message that was sent.
#[derive(Debug, Drop)]
pub struct Sent<'a> {
    pub from: Party,
    pub to: Party,
    pub bytes: &'a [u8],
}

/// The messages that were sent, numbered from 1 in the order sent, and which of them are pending. The lists in which they were
/// sent are kept whole.
#[derive(Drop)]
pub struct Net {
    parcels: Vec<Parcel>,
    sent: u32,
    settled: u32,
    left: usize,
    /// How many lists begin at the oldest pending message or before it, or another number: where a message is looked for first.
    near: usize,
}

impl Model for Net {
    ghost use Rattle.std.specs.Prelude.{◌-◌, vec_len, vec_capacity};
    ghost use Rattle.rc_ids.specs.Sets.{marked};
    ghost use Rattle.rc_net.specs.Network.{Network};
    ghost use Rattle.rc_net.specs.Parcels.{IsKept, sent_in, marks_in};

    ghost Value = { Network };

    ghost view = { λ n. record { sent = sent_in n.parcels.items; pending = marked 1 (marks_in n.parcels.items); spare = vec_capacity n.parcels - vec_len n.parcels } };

    ghost invariant = { λ n. IsKept n.parcels.items n.sent n.settled n.left };
}

/// The same party.
pub fn same_party(party: &Party) -> Party
    ensures { result ≡ party.now }
{
    match party {
        Party::Node(NodeId::Coord(dc)) => Party::Node(NodeId::Coord(*dc)),
        Party::Node(NodeId::Shard(dc, shard)) => Party::Node(NodeId::Shard(*dc, *shard)),
        Party::Client(tx) => Party::Client(*tx),
    }
}

impl Net {
    /// The most messages that are sent.
    pub const MOST_MESSAGES: u32 = 4_000_000;

    /// The most bytes that all messages have together.
    pub const MOST_BYTES: usize = 1 << 30;

    /// Nothing was sent.
    pub fn new(alloc: Global) -> Net
        ensures sent { result.sent ≡ [] }
        ensures pending { result.pending ≡ [] }
    {
        Net {
            parcels: Vec::new(alloc),
            sent: 0,
            settled: 0,
            left: Self::MOST_BYTES,
            near: 1,
        }
    }

    /// How many messages were sent.
    pub fn count(&self) -> u32
        ensures { result ≡ length self.now.sent }
    {
        self.sent
    }

    /// The oldest pending message. The numbers of the pending ones rise.
    pub fn oldest(&self) -> Option<u32>
        ensures rising { IsRisingWithin 1 (length self.now.sent) self.now.pending }
        ensures oldest { result ≡ slice_get self.now.pending 0 }
    {
        if self.sent <= self.settled {
            return None;
        }
        Some(self.settled + 1)
    }

    /// The next pending message after this one.
    pub fn pending_after(&self, n: u32) -> Option<u32>
        ensures { result ≡ find (nat_lt n) self.now.pending }
    {
        first_after(&self.parcels, self.sent, self.settled, n, self.near)
    }

    /// Whether a message has this number.
    pub fn is_sent(&self, n: u32) -> bool
        ensures { result ≡ is_some (message self.now.sent n) }
    {
        1 <= n && n <= self.sent
    }

    /// The message of this number.
    pub fn sent(&self, n: u32) -> Option<Sent<'_>>
        ensures { option_map shown result ≡ message self.now.sent n }
    {
        if !self.is_sent(n) {
            return None;
        }
        let (list, place) = seat(&self.parcels, n, self.near);
        let parcel = &self.parcels[list];
        let letter = &parcel.letters.as_slice()[place];
        Some(Sent {
            from: same_party(&parcel.from),
            to: same_party(&letter.to),
            bytes: letter.bytes.as_bytes(),
        })
    }

    /// Makes room for one list, so that one `send_all` takes no memory; or leaves all as before.
    pub fn room(&mut self) -> Result<(), NoMemory>
        ensures sent { self.new.sent ≡ self.old.sent }
        ensures pending { self.new.pending ≡ self.old.pending }
        ensures ok { OnOk result (0 < self.new.spare) }
        ensures kept { self.old.spare ≤ self.new.spare }
        ensures succeeds { 0 < self.old.spare → IsOk result }
        ensures err { OnErr result (self.new ≡ self.old) }
    {
        self.parcels.reserve(1)?;
        Ok(())
    }

    /// How many lists begin at the oldest pending message or before it.
    fn oldest_list(&self) -> usize {
        count_near(&self.parcels, self.settled + 1, self.near)
    }

    /// Delivers the message, for the first time or again: it is pending no longer. `sent` has its bytes, before and after.
    pub fn deliver(&mut self, n: u32) -> Result<(), NetFault>
        ensures fault { MatchResult result (λ _. delivery_fault self.old.sent n ≡ None) (λ e. delivery_fault self.old.sent n ≡ Some e) }
        ensures sent { self.new.sent ≡ self.old.sent }
        ensures pending { OnOk result (self.new.pending ≡ removed nat_cmp self.old.pending n) }
        ensures spare { self.new.spare ≡ self.old.spare }
        ensures err { OnErr result (self.new ≡ self.old) }
    {
        if !self.is_sent(n) {
            return Err(NetFault::NoSuchMessage);
        }
        self.settled = settle_one(&mut self.parcels, self.sent, self.settled, n, self.near);
        self.near = self.oldest_list();
        Ok(())
    }

    /// Whether the message, which was sent, is pending. The numbers of the pending ones rise.
    fn is_pending(&self, n: u32) -> bool
        requires { is_some (message self.now.sent n) ≡ true }
        ensures rising { IsRisingWithin 1 (length self.now.sent) self.now.pending }
        ensures pending { result ≡ member nat_cmp self.now.pending n }
    {
        is_pending(&self.parcels, n, self.near)
    }

    /// Loses the message: it is pending no longer. It was neither delivered nor lost before. The numbers of the pending ones rise.
    pub fn lose(&mut self, n: u32) -> Result<(), NetFault>
        ensures rising { OnOk result (IsRisingWithin 1 (length self.old.sent) self.old.pending) }
        ensures fault { MatchResult result (λ _. loss_fault self.old.sent self.old.pending n ≡ None) (λ e. loss_fault self.old.sent self.old.pending n ≡ Some e) }
        ensures sent { self.new.sent ≡ self.old.sent }
        ensures pending { OnOk result (self.new.pending ≡ removed nat_cmp self.old.pending n) }
        ensures spare { self.new.spare ≡ self.old.spare }
        ensures err { OnErr result (self.new ≡ self.old) }
    {
        if !self.is_sent(n) {
            return Err(NetFault::NoSuchMessage);
        }
        if !self.is_pending(n) {
            return Err(NetFault::NotPending);
        }
        self.deliver(n)
    }

    /// How many bytes are left after these messages, where they fit.
    fn left_after(&self, letters: &[Letter]) -> Option<usize>
        ensures some { is_some result ≡ fits self.now.sent (length letters.now) (letters_bytes letters.now) }
        ensures left { IfSome result (λ left. left + (letters_bytes letters.now + bytes_of self.now.sent) ≡ 2 ^ 30) }
    {
        let most = (Self::MOST_MESSAGES - self.sent) as usize;
        if most < letters.len() {
            return None;
        }
        left_after(letters, self.left)
    }

    /// Whether these messages fit.
    pub fn has_room_for(&self, letters: &[Letter]) -> bool
        ensures { result ≡ fits self.now.sent (length letters.now) (letters_bytes letters.now) }
    {
        self.left_after(letters).is_some()
    }

    /// Sends these messages in their order, and keeps their list. It takes no memory where room was made.
    pub fn send_all(&mut self, from: Party, sends: Sends) -> Result<(), NetFault>
        ensures full { IsErrOf result Full ↔ (fits self.old.sent (length sends) (letters_bytes sends) ≡ false) }
        ensures only { IfErr result (λ e. e ≢ Full → e ≡ WithoutMemory) }
        ensures memory { IsErrOf result WithoutMemory → self.old.spare ≡ 0 }
        ensures sent { OnOk result (self.new.sent ≡ self.old.sent ++ messages from sends) }
        ensures pending { OnOk result (self.new.pending ≡ self.old.pending ++ numbers_after (length self.old.sent) (length sends)) }
        ensures spare { self.old.spare ≤ self.new.spare + 1 }
        ensures err { OnErr result (self.new ≡ self.old) }
    {
        let Some(left) = self.left_after(sends.as_slice()) else {
            return Err(NetFault::WireFull);
        };
        if sends.is_empty() {
            return Ok(());
        }
        self.parcels.reserve(1)?;
        self.left = left;
        self.sent = post(&mut self.parcels, self.sent, from, sends);
        Ok(())
    }

    /// Whether one message more fits.
    fn has_room(&self, bytes: &Blob) -> bool
        ensures { result ≡ fits self.now.sent 1 (length bytes.now) }
    {
        self.sent < Self::MOST_MESSAGES && bytes.len() <= self.left
    }

    /// Sends a message, and gives its number.
    pub fn send(&mut self, from: Party, to: Party, bytes: Blob) -> Result<u32, NetFault>
        ensures full { IsErrOf result Full ↔ (fits self.old.sent 1 (length bytes) ≡ false) }
        ensures only { IfErr result (λ e. e ≢ Full → e ≡ WithoutMemory) }
        ensures number { IfOk result (λ n. n ≡ length self.new.sent) }
        ensures sent { OnOk result (self.new.sent ≡ self.old.sent ++ one_message from to bytes ∷ []) }
        ensures pending { OnOk result (self.new.pending ≡ self.old.pending ++ numbers_after (length self.old.sent) 1) }
        ensures spare { self.old.spare ≤ self.new.spare + 1 }
        ensures err { OnErr result (self.new ≡ self.old) }
    {
        if !self.has_room(&bytes) {
            return Err(NetFault::WireFull);
        }
        let mut letters = Sends::new(*self.parcels.allocator());
        letters.push(Letter {
            to,
            bytes,
            mark: true,
        })?;
        self.send_all(from, letters)?;
        Ok(self.sent)
    }
}
