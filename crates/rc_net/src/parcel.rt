// Lists of messages that were sent, each kept whole.
ghost use Rattle.std.specs.Prelude.{◌≡◌, ◌-◌, ◌<◌, ◌≤◌, ◌+◌, length, false, true, replicate, slice_get, slice_set, Some, IsTrue, MatchOption, ◌++◌, vec_len, vec_capacity};
ghost use Rattle.rc_ids.specs.declared.names.Party.{Party as Sender};
ghost use Rattle.rc_net.specs.Network.{messages, letters_bytes};
ghost use Rattle.rc_net.specs.Parcels.{Numbered, IsSeat, IsCount, count_in, sent_in, marks_in, marks_of};

use rc_ids::{Letter, Party, Sends};

/// A list of messages that was sent: from whom, the number of its first message, and the messages, of which the pending ones are
/// marked.
#[derive(Drop)]
pub struct Parcel {
    pub from: Party,
    pub first: u32,
    pub letters: Sends,
}

/// How many lists begin at this message or before it.
fn count_up_to(parcels: &[Parcel], n: u32) -> usize
    requires { Numbered 1 parcels.now }
    ensures { IsCount parcels.now n result }
{
    parcels.partition_point(|parcel| parcel.first <= n)
}

/// Whether so many lists, and not none, begin at this message or before it, and no others.
fn is_count(parcels: &[Parcel], n: u32, count: usize) -> bool
    requires numbered { Numbered 1 parcels.now }
    requires some { 0 < count }
    ensures { IsTrue result → IsCount parcels.now n count }
{
    if parcels.len() < count {
        return false;
    }
    if n < parcels[count - 1].first {
        return false;
    }
    if count == parcels.len() {
        return true;
    }
    n < parcels[count].first
}

/// How many lists begin at this message or before it, looked for first near such a count.
pub fn count_near(parcels: &[Parcel], n: u32, near: usize) -> usize
    requires { Numbered 1 parcels.now }
    ensures { IsCount parcels.now n result }
{
    if 0 < near && near < parcels.len() {
        if is_count(parcels, n, near) {
            return near;
        }
        if is_count(parcels, n, near + 1) {
            return near + 1;
        }
    }
    count_up_to(parcels, n)
}

/// Where the message is: the place of its list, and its own place there, both counted from 0. It is looked for first near a count of
/// lists.
pub fn seat(parcels: &[Parcel], n: u32, near: usize) -> (usize, usize)
    requires numbered { Numbered 1 parcels.now }
    requires low { 1 ≤ n }
    requires high { n ≤ count_in parcels.now }
    ensures { IsSeat parcels.now (n - 1) result.0 result.1 }
{
    let list = count_near(parcels, n, near) - 1;
    (list, (n - parcels[list].first) as usize)
}

/// Whether the message is pending.
pub fn is_pending(parcels: &[Parcel], n: u32, near: usize) -> bool
    requires numbered { Numbered 1 parcels.now }
    requires low { 1 ≤ n }
    requires high { n ≤ count_in parcels.now }
    ensures { slice_get (marks_in parcels.now) (n - 1) ≡ Some result }
{
    let (list, place) = seat(parcels, n, near);
    let letters = parcels[list].letters.as_slice();
    letters[place].mark
}

/// Takes the mark of the message away.
pub fn settle(parcels: &mut [Parcel], n: u32, near: usize)
    requires numbered { Numbered 1 parcels.old }
    requires low { 1 ≤ n }
    requires high { n ≤ count_in parcels.old }
    ensures marks { marks_in parcels.new ≡ slice_set (marks_in parcels.old) (n - 1) false }
    ensures sent { sent_in parcels.new ≡ sent_in parcels.old }
    ensures numbered { Numbered 1 parcels.new }
    ensures count { count_in parcels.new ≡ count_in parcels.old }
{
    let (list, place) = seat(parcels, n, near);
    let parcel = &mut parcels[list];
    parcel.letters.set_mark(place, false);
}

/// Marks all messages.
pub fn mark_all(letters: &mut Sends)
    ensures marks { marks_of letters.new ≡ replicate (length letters.old) true }
    ensures len { length letters.new ≡ length letters.old }
    ensures messages { (from : Sender) → messages from letters.new ≡ messages from letters.old }
{
    for place in 0..letters.len() {
        letters.set_mark(place, true);
    }
}

/// What is left of so many bytes after those of the messages, if they are enough.
pub fn left_after(letters: &[Letter], bytes: usize) -> Option<usize>
    ensures { MatchOption result (bytes < letters_bytes letters.now) (λ left. left + letters_bytes letters.now ≡ bytes) }
{
    let mut left = bytes;
    for letter in letters {
        left = left.checked_sub(letter.bytes.len())?;
    }
    Some(left)
}

/// Keeps the list at the end, with all of its messages marked. There is room. How many messages there are then.
pub fn post(parcels: &mut Vec<Parcel>, sent: u32, from: Party, mut letters: Sends) -> u32
    requires room { vec_len parcels.old < vec_capacity parcels.old }
    requires few { sent + length letters ≤ 4000000 }
    requires numbered { Numbered 1 parcels.old.items }
    requires count { sent ≡ count_in parcels.old.items }
    ensures count { result ≡ count_in parcels.new.items }
    ensures few { result ≤ 4000000 }
    ensures numbered { Numbered 1 parcels.new.items }
    ensures sent { sent_in parcels.new.items ≡ sent_in parcels.old.items ++ messages from letters }
    ensures marks { marks_in parcels.new.items ≡ marks_in parcels.old.items ++ replicate (length letters) true }
    ensures len { vec_len parcels.new ≡ vec_len parcels.old + 1 }
    ensures capacity { vec_capacity parcels.new ≡ vec_capacity parcels.old }
{
    let count = letters.len() as u32;
    mark_all(&mut letters);
    parcels.push_reserved(Parcel {
        from,
        first: sent + 1,
        letters,
    });
    sent + count
}
