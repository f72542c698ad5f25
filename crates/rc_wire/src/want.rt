// Which messages are wanted.
ghost use Rattle.std.specs.Prelude.{◌≡◌, drop};
ghost use Rattle.rc_wire.specs.Wants.{after_party, is_read, is_wanted, party_size};

/// Which messages a take wants.
#[derive(Clone, Copy, Debug, PartialEq, Eq)]
pub enum Want {
    /// Those that ask for a read or cancel one.
    Reads,
    /// All others.
    Rest,
    Any,
}

/// How many bytes a party has, by its first byte.
fn party_size(first: u8) -> usize
    ensures { result ≡ party_size first }
{
    match first {
        0 => 2,
        1 => 3,
        _ => 5,
    }
}

/// What comes after so many bytes.
fn skip(bytes: &[u8], count: usize) -> &[u8]
    ensures { result.now ≡ drop count bytes.now }
{
    if bytes.len() < count {
        return &[];
    }
    &bytes[count..]
}

/// The bytes after a party.
fn after_party(bytes: &[u8]) -> &[u8]
    ensures { result.now ≡ after_party bytes.now }
{
    match bytes.first() {
        Some(first) => skip(bytes, party_size(*first)),
        None => bytes,
    }
}

/// Whether the kind, the byte after the two parties, is that of a read that is asked or cancelled.
fn is_read(bytes: &[u8]) -> bool
    ensures { result ≡ is_read bytes.now }
{
    match after_party(after_party(bytes)).first() {
        Some(&kind) => kind == 1 || kind == 2,
        None => false,
    }
}

/// Whether a message with these bytes is wanted.
pub fn is_wanted(want: Want, bytes: &[u8]) -> bool
    ensures { result ≡ is_wanted want bytes.now }
{
    match want {
        Want::Reads => is_read(bytes),
        Want::Rest => !is_read(bytes),
        Want::Any => true,
    }
}
