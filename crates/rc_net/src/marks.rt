// Marks of pending messages.
ghost use Rattle.std.specs.Prelude.{◌≡◌, ℕ, ◌-◌, ◌≤◌, false, find, nat_lt, slice_set};
ghost use Rattle.rc_ids.specs.Sets.{marked};
ghost use Rattle.rc_net.specs.Parcels.{Numbered, count_in, sent_in, marks_in, IsKept, IsQuiet, IsAtPending};

use crate::parcel::{Parcel, is_pending, settle};

/// The place, counted from 0, of the first pending message from a place on; where there is none, how many were sent.
pub fn next_pending(parcels: &[Parcel], sent: u32, from: u32, near: usize) -> u32
    requires numbered { Numbered 1 parcels.now }
    requires count { sent ≡ count_in parcels.now }
    requires within { from ≤ sent }
    ensures quiet { IsQuiet from result (marks_in parcels.now) }
    ensures pending { IsAtPending result (marks_in parcels.now) }
    ensures low { from ≤ result }
    ensures high { result ≤ sent }
{
    let mut place = from;
    while place < sent && !is_pending(parcels, place + 1, near) {
        place += 1;
    }
    place
}

/// Takes the mark of the message away, and says how many of the first messages are settled then.
pub fn settle_one(parcels: &mut [Parcel], sent: u32, settled: u32, n: u32, near: usize) -> u32
    requires numbered { Numbered 1 parcels.old }
    requires count { sent ≡ count_in parcels.old }
    requires within { settled ≤ sent }
    requires low { 1 ≤ n }
    requires high { n ≤ sent }
    ensures kept { (left : ℕ) → IsKept parcels.old sent settled left → IsKept parcels.new sent result left }
    ensures marks { marks_in parcels.new ≡ slice_set (marks_in parcels.old) (n - 1) false }
    ensures sent { sent_in parcels.new ≡ sent_in parcels.old }
{
    settle(parcels, n, near);
    next_pending(parcels, sent, settled, near)
}

/// The first pending message after this one. The first messages are settled, and so many.
pub fn first_after(parcels: &[Parcel], sent: u32, settled: u32, n: u32, near: usize) -> Option<u32>
    requires numbered { Numbered 1 parcels.now }
    requires count { sent ≡ count_in parcels.now }
    requires within { settled ≤ sent }
    requires quiet { IsQuiet 0 settled (marks_in parcels.now) }
    ensures { result ≡ find (nat_lt n) (marked 1 (marks_in parcels.now)) }
{
    if sent <= n {
        return None;
    }
    let place = next_pending(parcels, sent, n.max(settled), near);
    if sent <= place {
        return None;
    }
    Some(place + 1)
}
