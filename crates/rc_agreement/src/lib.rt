//! Agreement: no two parties ever hold different outcomes of a transaction. Each law is the contract of a function that does
//! nothing, and holds at the end of every life of a store: of every run from a new world, and of every run that begins with the logs
//! that another left, over every list of happenings.
#![tactic(auto)]

ghost use Rattle.std.specs.Prelude.{List};
ghost use Rattle.rc_ids.specs.Cluster.{Layout, IsLayout};
ghost use Rattle.rc_runs.specs.World.{World};
ghost use Rattle.rc_runs.specs.Refusals.{Happening};
ghost use Rattle.rc_claims.specs.Lives.{IsLife};
ghost use Rattle.rc_claims.specs.Outcomes.{Agrees, VotesOneBody, ListedIsChosen, FinishedIsChosen, ClientsLearnChosen, ToldIsChosen, ChosenStays, OrderGrows, ListsGrow, OrderIsChosen, ChosenIsOrdered, PrintedIsOrdered};

/// Commit and abort of a transaction are never both chosen, and all votes for its commit carry one body.
pub fn agreement()
    ensures agrees { (c : Layout) → IsLayout c → (earlier : List World) (w : World) → IsLife c earlier w → Agrees w }
    ensures one_body { (c : Layout) → IsLayout c → (earlier : List World) (w : World) → IsLife c earlier w → VotesOneBody w }
{}

/// What stands in a coordinator's list, what a shard finished, what a client learned and what messages tell is chosen.
pub fn learned_is_chosen()
    ensures lists { (c : Layout) → IsLayout c → (earlier : List World) (w : World) → IsLife c earlier w → ListedIsChosen w }
    ensures shards { (c : Layout) → IsLayout c → (earlier : List World) (w : World) → IsLife c earlier w → FinishedIsChosen w }
    ensures clients { (c : Layout) → IsLayout c → (earlier : List World) (w : World) → IsLife c earlier w → ClientsLearnChosen w }
    ensures messages { (c : Layout) → IsLayout c → (earlier : List World) (w : World) → IsLife c earlier w → ToldIsChosen w }
{}

/// What is chosen stays chosen through every later event, the order grows at its end alone, and so do the lists of outcomes.
pub fn outcomes_stay()
    ensures chosen { (c : Layout) → IsLayout c → (earlier : List World) (w : World) → IsLife c earlier w → (later : List Happening) → ChosenStays w later }
    ensures grows { (w : World) (later : List Happening) → OrderGrows w later }
    ensures lists { (c : Layout) → IsLayout c → (earlier : List World) (w : World) → IsLife c earlier w → (later : List Happening) → ListsGrow w later }
{}

/// The order has each transaction whose commit is chosen, with the body of its votes, once; and each commit that is printed stands
/// in it, or in what the logs before had.
pub fn order_is_chosen()
    ensures chosen { (c : Layout) → IsLayout c → (earlier : List World) (w : World) → IsLife c earlier w → OrderIsChosen w }
    ensures all { (c : Layout) → IsLayout c → (earlier : List World) (w : World) → IsLife c earlier w → ChosenIsOrdered w }
    ensures printed { (c : Layout) → IsLayout c → (earlier : List World) (w : World) → IsLife c earlier w → (later : List Happening) → PrintedIsOrdered w later }
{}
