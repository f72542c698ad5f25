// Work for a thread.
ghost use Rattle.std.specs.Prelude.{◌≡◌, true, Bool, All};

/// Work that one thread does.
pub trait Lane: Send {
    // Whether the lane is done.
    ghost done: { Self → Bool };

    /// Does the work. It leaves the lane done.
    fn run(&mut self)
        ensures { done self.new ≡ true };

    /// Whether the lane is done. It is asked after its thread has ended.
    fn is_done(&self) -> bool
        ensures { result ≡ done self.now };
}

/// Whether all lanes are done.
pub fn all_done<L: Lane>(lanes: &[L]) -> bool
    ensures { result ≡ true → All (λ l. L.done l ≡ true) lanes.now }
{
    let mut done = true;
    for lane in lanes {
        if !lane.is_done() {
            done = false;
        }
    }
    done
}
