//! Worked scripts with their texts, computed from the definitions alone: each function's contract is that its scripts give these
//! texts.
#![tactic(auto)]

ghost use Rattle.std.specs.Prelude.{[], ◌∷◌, codes, take, drop};
ghost use Rattle.rc_ids.specs.declared.names.NodeId.TheVariants.{Coord as CoordName, Shard as ShardName};
ghost use Rattle.rc_protocol_rows.specs.Cases.{RunGives, RunGivesAt, OneMapGives, three_dcs};
ghost use Rattle.rc_protocol_rows.specs.Cuts.{CutGives};
ghost use Rattle.rc_protocol_rows.specs.FailingCalls.{CreationGives, AppendGives, failing_at, shard_stops, coord_stops_voting, coord_stops_learning, coord_stops_learned, not_opened};
ghost use Rattle.rc_protocol_rows.specs.Long.{caught_up, outcomes, PagesGo};
ghost use Rattle.rc_protocol_rows.specs.Stored.{over, after_commit, after_votes, second_run, chosen_before, begun_before, vanished_before, other_shards, other_weights, bad_log, cut_log, refused_record, last_ballot, no_ballot, gone_in_first_format};
ghost use Rattle.rc_protocol_rows.specs.Edges.{NobodyOutside, ClientsKeepTheirOwn, ReportsGo, WornOutIsNoEvent, ReadsAreNotNamed, reading, begun_again, OrdersDiffer, LogsAreNamed, TextIsTraced, CallsAreCounted, SummaryIs, NamesAreTested};
ghost use Rattle.rc_protocol_rows.specs.Sizes.{longest_key, longer_key, longest_value, longer_value, keys_in_excess, BeginsEnd};
ghost use Rattle.rc_protocol_rows.specs.Calm.{empty, no_transaction, write_then_read, no_key, own_write, deletion, heavy_datacentre};
ghost use Rattle.rc_protocol_rows.specs.Conflicts.{conflict, ordered_conflict, preemption, prepared_reader, waiting_reads, late_grant, two_versions};
ghost use Rattle.rc_protocol_rows.specs.TakeOvers.{finished_by_another, taken_twice, outbid, repeats};
ghost use Rattle.rc_protocol_rows.specs.Stops.{all_stop, beside_a_minority, alone, down};
ghost use Rattle.rc_protocol_rows.specs.Refusals.{not_sent, not_pending, begun_twice, not_open, two_datacentres, split_missing, cut_short, weight_of_nothing, weights_missing};

/// Calm scripts: transactions one after another.
pub fn calm_scripts()
    ensures empty { RunGives empty }
    ensures no_transaction { RunGives no_transaction }
    ensures write_then_read { RunGives write_then_read }
    ensures no_key { RunGives no_key }
    ensures own_write { RunGives own_write }
    ensures deletion { RunGives deletion }
    ensures heavy_datacentre { RunGives heavy_datacentre }
{}

/// Transactions that meet at a key.
pub fn conflicts()
    ensures conflict { RunGives conflict }
    ensures ordered_conflict { RunGives ordered_conflict }
    ensures preemption { RunGives preemption }
    ensures prepared_reader { RunGives prepared_reader }
    ensures waiting_reads { RunGives waiting_reads }
    ensures late_grant { RunGives late_grant }
    ensures two_versions { RunGives two_versions }
{}

/// Take-overs, and messages that come again.
pub fn take_overs()
    ensures finished_by_another { RunGives finished_by_another }
    ensures taken_twice { RunGives taken_twice }
    ensures outbid { RunGives outbid }
    ensures repeats { RunGives repeats }
{}

/// Nodes that stop and start again.
pub fn stops()
    ensures all_stop { RunGives all_stop }
    ensures beside_a_minority { RunGives beside_a_minority }
    ensures alone { RunGives alone }
    ensures down { RunGives down }
{}

/// Scripts that end early.
pub fn refusals()
    ensures not_sent { RunGives not_sent }
    ensures not_pending { RunGives not_pending }
    ensures begun_twice { RunGives begun_twice }
    ensures not_open { RunGives not_open }
    ensures two_datacentres { RunGives two_datacentres }
    ensures split_missing { RunGives split_missing }
    ensures cut_short { RunGives cut_short }
    ensures weight_of_nothing { RunGives weight_of_nothing }
    ensures weights_missing { RunGives weights_missing }
{}

/// One map gives the texts of calm scripts.
pub fn one_map()
    ensures write_then_read { OneMapGives three_dcs write_then_read }
    ensures no_key { OneMapGives three_dcs no_key }
    ensures own_write { OneMapGives three_dcs own_write }
{}

/// A shard server's power is cut at each device call of an append.
pub fn cuts()
    ensures first { CutGives 1 }
    ensures second { CutGives 2 }
    ensures third { CutGives 3 }
    ensures fourth { CutGives 4 }
{}

/// A device call fails.
pub fn failing_calls()
    ensures creation_of_coord { CreationGives (CoordName 1) (codes "d1") }
    ensures creation_of_shard { CreationGives (ShardName 1 1) (codes "d1.s1") }
    ensures prepare { AppendGives (ShardName 1 1) 7 8 9 10 shard_stops }
    ensures vote { AppendGives (CoordName 1) 7 8 9 10 coord_stops_voting }
    ensures learn_first { RunGivesAt (failing_at (CoordName 1) (11 ∷ [])) coord_stops_learning }
    ensures learn_second { RunGivesAt (failing_at (CoordName 1) (12 ∷ [])) coord_stops_learning }
    ensures learn_third { RunGivesAt (failing_at (CoordName 1) (13 ∷ [])) coord_stops_learning }
    ensures learned { RunGivesAt (failing_at (CoordName 1) (14 ∷ [])) coord_stops_learned }
    ensures opening { RunGivesAt (failing_at (CoordName 1) (10 ∷ 11 ∷ [])) not_opened }
{}

/// A datacentre that was down catches up, by pages.
pub fn catch_up()
    ensures few { RunGives (caught_up 12) }
    ensures pages { PagesGo (take 64 outcomes) (drop 64 outcomes) }
{}

/// Names, values and transactions at the ends of their ranges.
pub fn sizes()
    ensures longest_key { RunGives longest_key }
    ensures longer_key { RunGives longer_key }
    ensures longest_value { RunGives longest_value }
    ensures longer_value { RunGives longer_value }
    ensures keys_in_excess { RunGives keys_in_excess }
    ensures transactions { BeginsEnd }
{}

/// A run that begins from the logs that an earlier one left.
pub fn stored_logs()
    ensures second { RunGivesAt after_commit second_run }
    ensures chosen { RunGivesAt after_votes chosen_before }
    ensures begun { RunGivesAt after_commit begun_before }
    ensures vanished { RunGivesAt after_commit vanished_before }
    ensures shards { RunGivesAt after_commit other_shards }
    ensures weights { RunGivesAt after_commit other_weights }
    ensures cut { RunGivesAt cut_log (bad_log (codes "d1.s1: log damaged at 40")) }
    ensures refused { RunGivesAt refused_record (bad_log (codes "d2: record 1 refused")) }
    ensures ballots { RunGivesAt last_ballot no_ballot }
    ensures format { RunGivesAt gone_in_first_format (bad_log (codes "d1.s1: record 1 refused")) }
{}

/// What stands at the edges: names outside the world, messages of others, acts that are worn out, orders, names, summaries.
pub fn edges()
    ensures outside { NobodyOutside }
    ensures own { ClientsKeepTheirOwn }
    ensures reports { ReportsGo }
    ensures worn_out { WornOutIsNoEvent }
    ensures unnamed { ReadsAreNotNamed }
    ensures again { RunGivesAt (over reading) begun_again }
    ensures orders { OrdersDiffer }
    ensures logs { LogsAreNamed }
    ensures traced { TextIsTraced }
    ensures counted { CallsAreCounted }
    ensures summary { SummaryIs }
    ensures names { NamesAreTested }
{}
