//! One order of the committed transactions explains every read. Each law is the contract of a function that does nothing, and holds
//! at the end of every life of a store: of every run from a new world, and of every run that begins with the logs that another left.
#![tactic(auto)]

ghost use Rattle.std.specs.Prelude.{◌≡◌, List, None};
ghost use Rattle.rc_ids.specs.Cluster.{Layout, IsLayout};
ghost use Rattle.rc_serial.specs.OneMap.{base, first_wrong};
ghost use Rattle.rc_runs.specs.World.{World};
ghost use Rattle.rc_runs.specs.Refusals.{Happening};
ghost use Rattle.rc_claims.specs.Outcomes.{IsSerial, IsFresh};
ghost use Rattle.rc_claims.specs.Lives.{IsLife};
ghost use Rattle.rc_serial_order.specs.Earlier.{StaysChosen, HoldsWrites, HasOnlyWrites};

/// One map, at first the one that the logs of the start give, to which the committed transactions are applied in their order, gives
/// every version that they read and every read served to them, in this life or an earlier one. So no read in the order is wrong.
pub fn one_map_explains()
    ensures explains { (c : Layout) → IsLayout c → (earlier : List World) (w : World) → IsLife c earlier w → IsSerial (base w.parties.start.committed) earlier w }
    ensures none_is_wrong { (c : Layout) → IsLayout c → (earlier : List World) (w : World) → IsLife c earlier w → first_wrong (base w.parties.start.committed) 0 w.parties.committed ≡ None }
{}

/// A read is not older than what was chosen before it was asked for, in this life or an earlier one.
pub fn reads_are_fresh()
    ensures { (c : Layout) → IsLayout c → (earlier : List World) (w : World) → IsLife c earlier w → (later : List Happening) → IsFresh w later }
{}

/// What an earlier life chose stays chosen. The map that the logs of the start give has a row for each write of earlier lives, of its
/// version or a later one, and each of its rows is one of their writes: so it is the one of the highest version.
pub fn earlier_lives_stay()
    ensures chosen { (c : Layout) → IsLayout c → (earlier : List World) (w : World) → IsLife c earlier w → StaysChosen earlier w }
    ensures written { (c : Layout) → IsLayout c → (earlier : List World) (w : World) → IsLife c earlier w → HoldsWrites (base w.parties.start.committed) earlier }
    ensures rows { (c : Layout) → IsLayout c → (earlier : List World) (w : World) → IsLife c earlier w → HasOnlyWrites (base w.parties.start.committed) earlier }
{}
