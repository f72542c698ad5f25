// Two shards of three are touched.
use crate::{Gather, Gathered};
use rc_ids::{Ballot, ShardId, ShardSet};

#[test]
fn votes(rt: HostRuntime) {
    let touched = ShardSet::new().with(ShardId(1)).with(ShardId(3));
    let mut gather = Gather::new(touched);
    assert!(rt; gather.start(Ballot(4)) == touched);
    let answers = [
        (ShardId(2), true, Gathered::Ignored),
        (ShardId(1), false, Gathered::Refused),
        (ShardId(1), true, Gathered::Waiting),
        (ShardId(1), false, Gathered::Ignored),
        (ShardId(3), true, Gathered::Complete),
        (ShardId(3), true, Gathered::Ignored),
    ];
    for (shard, yes, wanted) in answers {
        assert_eq!(rt; gather.answer(shard, yes), wanted);
    }
    assert!(rt; gather.start(Ballot(2)) == ShardSet::new());
    assert_eq!(rt; gather.ballot(), Ballot(4));
    assert!(rt; gather.is_complete() && gather.yes() == gather.touched());
    assert!(rt; Gather::new(ShardSet::new()).is_complete());
}
