// Reads as futures.
ghost use Rattle.std.specs.Prelude.{◌≡◌, List, false};
ghost use Rattle.futures.specs.Task.{Covers, Keeps};
ghost use Rattle.futures.specs.Poll.{IfReady, OnPending};
ghost use Rattle.rc_protocol.specs.Client.{Grant as GrantState};
ghost use Rattle.rc_read.specs.Reads.{new_read, is_done, rest_of};
ghost use Rattle.rc_read.specs.Polls.{one_wait_more, polled, Gives, Taken};

use crate::{Inbox, ReadDone, ReadState};
use futures::task::{Context, Poll};
use futures::{Future, ready};
use rc_ids::{DcSet, Quorum};

/// A read of a key, ready as soon as the grants of its inbox are those of a quorum.
#[derive(Drop)]
pub struct MajorityRead<I> {
    /// Where its grants come from.
    pub inbox: I,
    state: ReadState,
}

impl<I: Inbox> MajorityRead<I> {
    /// A read to which nothing was offered. The datacentres are the first so many as the quorum has weights.
    pub fn new(quorum: Quorum, inbox: I) -> MajorityRead<I>
        ensures read { result ≡ record { inbox = inbox; state = new_read quorum } }
        ensures waits { is_done result.state ≡ false }
    {
        let state = ReadState::new(quorum);
        MajorityRead { inbox, state }
    }

    /// Gives the read up, and gives the datacentres that were not offered.
    pub fn cancel(self) -> DcSet
        ensures { result ≡ rest_of self.state }
    {
        self.state.rest()
    }
}

impl<I: Inbox> Future for MajorityRead<I> {
    type Output = ReadDone;

    ghost can_poll = { λ m. is_done m.state ≡ false };

    ghost needs = { λ m. I.needs m.inbox };

    ghost gives = { λ m done. Gives m.state done };

    /// Offers what the inbox gives, and is pending only where the inbox is.
    fn poll(&mut self, cx: &mut Context<'_>) -> Poll<ReadDone>
        requires { is_done self.old.state ≡ false }
        ensures value { IfReady result (Gives self.old.state) }
        ensures again { OnPending result (is_done self.new.state ≡ false) }
        ensures same { OnPending result ((x : _) → Gives self.new.state x → Gives self.old.state x) }
        ensures registered { OnPending result (Covers cx.new (I.needs self.new.inbox)) }
        ensures kept { Keeps cx.old cx.new }
        ensures taken { Taken (I.given self.old.inbox) self.old.state (I.given self.new.inbox) self.new.state (polled result) }
        ensures waited { OnPending result (I.waits self.new.inbox ≡ one_wait_more (I.waits self.old.inbox)) }
        ensures calm { IfReady result (λ _. I.waits self.new.inbox ≡ I.waits self.old.inbox) }
    {
        loop {
            let grant = ready!(self.inbox.next(cx));
            if let Some(done) = self.state.offer(grant) {
                return Poll::Ready(done);
            }
        }
    }
}
