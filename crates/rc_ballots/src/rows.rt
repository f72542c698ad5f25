// The standing at each ballot, in the order of the ballots, searched by halves.
ghost use Rattle.std.specs.Prelude.{◌≡◌, ◌≤◌, ◌<◌, ◌+◌, length, true, false, None, is_some, slice_get, vec_len, vec_capacity, OnOk, OnErr, ◌-◌};
ghost use Rattle.std.specs.Ordering.{nat_cmp};
ghost use Rattle.rc_ids.specs.Tables.{found};
ghost use Rattle.rc_ids.specs.Tables as tables;
ghost use Rattle.rc_protocol.specs.Coordinator as coordinator;
ghost use Rattle.rc_ballots.specs.Tallies.{Rises, rank, held};

use crate::Standing;
use rc_ids::{Ballot, NoMemory};

/// A ballot with who stands for commit and who for abort at it.
pub type Row = (Ballot, Standing);

/// How many rows have ballots below this one.
fn count_below(rows: &[Row], ballot: Ballot) -> usize
    requires { Rises rows.now }
    ensures count { result ≡ rank ballot rows.now }
    ensures few { result ≤ length rows.now }
{
    rows.partition_point(|row| row.0 < ballot)
}

/// Whether the row at the place has the ballot.
fn has_at(rows: &[Row], place: usize, ballot: Ballot) -> bool
    ensures { result ≡ is_some (held ballot (slice_get rows.now place)) }
{
    place < rows.len() && rows[place].0 == ballot
}

/// Who stands for commit and who for abort at the ballot.
pub fn standing_at(rows: &[Row], ballot: Ballot) -> Standing
    requires { Rises rows.now }
    ensures { result ≡ coordinator.standing_at rows.now ballot }
{
    let place = count_below(rows, ballot);
    if !has_at(rows, place, ballot) {
        return Standing::nobody();
    }
    rows[place].1
}

/// Replaces the standing of the ballot, which stands at this place.
fn replace_at(rows: &mut [Row], place: usize, ballot: Ballot, standing: Standing)
    requires rises { Rises rows.old }
    requires place { place ≡ rank ballot rows.old }
    requires there { is_some (held ballot (slice_get rows.old place)) ≡ true }
    ensures rows { rows.new ≡ tables.put nat_cmp rows.old ballot standing }
    ensures rise { Rises rows.new }
{
    rows[place].1 = standing;
}

/// Puts the ballot, which is not there, in its place. There is room.
fn insert_at(rows: &mut Vec<Row>, place: usize, ballot: Ballot, standing: Standing)
    requires room { vec_len rows.old < vec_capacity rows.old }
    requires rises { Rises rows.old.items }
    requires place { place ≡ rank ballot rows.old.items }
    requires absent { is_some (held ballot (slice_get rows.old.items place)) ≡ false }
    ensures rows { rows.new.items ≡ tables.put nat_cmp rows.old.items ballot standing }
    ensures rise { Rises rows.new.items }
    ensures len { vec_len rows.new ≡ vec_len rows.old + 1 }
    ensures capacity { vec_capacity rows.new ≡ vec_capacity rows.old }
{
    let _placed = rows.insert(place, (ballot, standing));
}

/// Puts the standing at the ballot, or leaves all as before. There is no want of memory where the ballot is there, or where there is
/// room for one more.
pub fn put(rows: &mut Vec<Row>, ballot: Ballot, standing: Standing) -> Result<(), NoMemory>
    requires { Rises rows.old.items }
    ensures ok { OnOk result (rows.new.items ≡ tables.put nat_cmp rows.old.items ballot standing) }
    ensures rise { Rises rows.new.items }
    ensures spare { vec_capacity rows.old - vec_len rows.old ≤ vec_capacity rows.new - vec_len rows.new + 1 }
    ensures err { OnErr result (rows.new.items ≡ rows.old.items) }
    ensures err_spare { OnErr result (vec_capacity rows.new - vec_len rows.new ≡ vec_capacity rows.old - vec_len rows.old) }
    ensures full { OnErr result (vec_capacity rows.old - vec_len rows.old ≡ 0) }
    ensures absent { OnErr result (found nat_cmp rows.old.items ballot ≡ None) }
{
    let place = count_below(rows, ballot);
    if has_at(rows, place, ballot) {
        replace_at(rows, place, ballot, standing);
        return Ok(());
    }
    rows.reserve(1)?;
    insert_at(rows, place, ballot, standing);
    Ok(())
}
