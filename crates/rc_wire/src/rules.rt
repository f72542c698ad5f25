// The rules of a wire.

/// Which messages are lost or repeated, by their numbers: those that the number divides, and none where it is 0.
#[derive(Clone, Copy, Debug)]
pub struct Rules {
    /// These messages are lost as they are sent.
    pub lose_every: u32,
    /// These messages, where they are not lost, are pending twice.
    pub repeat_every: u32,
}
