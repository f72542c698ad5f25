// Where grants come from.
ghost use Rattle.std.specs.Prelude.{◌≡◌, ℕ, ◌<◌, List, [], ◌∷◌, ◌++◌};
ghost use Rattle.futures.specs.Task.{Covers, Keeps};
ghost use Rattle.futures.specs.Poll.{IfReady, OnPending};
ghost use Rattle.rc_protocol.specs.Client.{Grant as GrantState};
ghost use Rattle.rc_read.specs.Polls as polls;

use crate::Grant;
use futures::task::{Context, Poll};

/// Gives grants, as they come.
pub trait Inbox: Drop {
    // The grants that it gave so far, in their order.
    ghost given: { Self → List GrantState };

    // It falls with each grant that is given. Only a call that is pending, and the inbox's owner, raise it.
    ghost left: { Self → ℕ };

    // How many calls were pending, up to the largest number of 64 bits, at which it stands.
    ghost waits: { Self → ℕ };

    // Holds of each source that it waits for.
    ghost needs: { Self → ℕ → Type 0 } = { λ _ _. ⊥ };

    /// The next grant, or none yet: then the caller has registered, and is polled again when there may be one.
    fn next(&mut self, cx: &mut Context<'_>) -> Poll<Grant>
        ensures given { IfReady result (λ g. given self.new ≡ given self.old ++ g ∷ []) }
        ensures falls { IfReady result (λ _. left self.new < left self.old) }
        ensures calm { IfReady result (λ _. waits self.new ≡ waits self.old) }
        ensures same { OnPending result (given self.new ≡ given self.old) }
        ensures waited { OnPending result (waits self.new ≡ polls.one_wait_more (waits self.old)) }
        ensures registered { OnPending result (Covers cx.new (needs self.new)) }
        ensures kept { Keeps cx.old cx.new };
}

/// A count of calls that were pending, and one more: the largest number of 64 bits stays.
pub fn one_wait_more(waits: u64) -> u64
    ensures { result ≡ polls.one_wait_more waits }
{
    if waits < u64::MAX { waits + 1 } else { waits }
}
