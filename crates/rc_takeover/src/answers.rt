// What a take-over says to a promise.
use rc_body::Decision;

/// What a take-over says to a promise.
#[derive(Drop)]
pub enum Heard {
    /// It has proposed, or heard the datacentre before. It is as before.
    Ignored,
    /// It waits for more promises.
    Waiting,
    /// It proposes this decision, once.
    Propose(Decision),
}

/// What a take-over would say to a promise.
#[derive(Clone, Copy)]
pub enum Would<'a> {
    /// It has proposed, or heard the datacentre before.
    Ignored,
    /// It would wait for more promises.
    Waiting,
    /// It would propose abort, since nothing was reported or a quorum reported nothing.
    Abort,
    /// It would propose this decision, which was reported at the highest ballot.
    Reported(&'a Decision),
}
