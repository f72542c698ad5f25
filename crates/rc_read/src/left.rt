// What is left of the datacentres.
ghost use Rattle.std.specs.Prelude.{◌≡◌, ℕ, ◌&&◌, not, nat_le, filter, if◌then◌else◌};
ghost use Rattle.std.specs.Ordering.{nat_cmp};
ghost use Rattle.rc_ids.specs.Tables.{member, added, up_to};

use rc_ids::{DcId, DcSet};

/// The most datacentres that there are.
const MOST_DCS: u8 = 7;

/// Whether the datacentre is one of so many, and not in the set.
fn is_left(dcs: usize, offered: &DcSet, dc: DcId) -> bool
    ensures { result ≡ (nat_le dc dcs && not (member nat_cmp offered.now dc)) }
{
    dc.0 as usize <= dcs && !offered.has(dc)
}

/// The set with the datacentre, if it is to join.
fn with_if(set: DcSet, dc: DcId, joins: bool) -> DcSet
    ensures { result ≡ (if joins then added nat_cmp set dc else set) }
{
    if joins { set.with(dc) } else { set }
}

/// Of the first so many datacentres those that are not in the set.
pub fn left_of(dcs: usize, offered: &DcSet) -> DcSet
    ensures { result ≡ filter (λ d. nat_le d dcs && not (member nat_cmp offered.now d)) (up_to 7) }
{
    let mut left = DcSet::new();
    for place in 0..MOST_DCS {
        let dc = DcId(place + 1);
        left = with_if(left, dc, is_left(dcs, offered, dc));
    }
    left
}
