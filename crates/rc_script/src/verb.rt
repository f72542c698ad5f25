//! The first words of the lines.
ghost use Rattle.std.specs.Prelude.{◌≡◌};
ghost use Rattle.std.specs.Str.{bytes_eq};
ghost use Rattle.rc_script.specs.Commands as commands;

/// What the first word of a line asks for.
#[derive(Clone, Copy, Debug)]
pub(crate) enum Verb {
    World,
    Split,
    Begin,
    Read,
    Write,
    Delete,
    Commit,
    Cancel,
    Retry,
    Vanish,
    Step,
    Settle,
    Deliver,
    Lose,
    Crash,
    Restart,
    Take,
    Catch,
    Pending,
    Show,
    Order,
}

/// Whether the word is this name.
fn is_named(word: &[u8], name: &[u8]) -> bool
    ensures { result ≡ bytes_eq word.now name.now }
{
    word == name
}

/// What the first word of a line asks for, if it is one of the language.
pub(crate) fn verb_of(word: &[u8]) -> Option<Verb>
    ensures { result ≡ commands.verb_of word.now }
{
    let verb = if is_named(word, b"world") {
        Verb::World
    } else if is_named(word, b"split") {
        Verb::Split
    } else if is_named(word, b"begin") {
        Verb::Begin
    } else if is_named(word, b"read") {
        Verb::Read
    } else if is_named(word, b"write") {
        Verb::Write
    } else if is_named(word, b"delete") {
        Verb::Delete
    } else if is_named(word, b"commit") {
        Verb::Commit
    } else if is_named(word, b"cancel") {
        Verb::Cancel
    } else if is_named(word, b"retry") {
        Verb::Retry
    } else if is_named(word, b"vanish") {
        Verb::Vanish
    } else if is_named(word, b"step") {
        Verb::Step
    } else if is_named(word, b"settle") {
        Verb::Settle
    } else if is_named(word, b"deliver") {
        Verb::Deliver
    } else if is_named(word, b"lose") {
        Verb::Lose
    } else if is_named(word, b"crash") {
        Verb::Crash
    } else if is_named(word, b"restart") {
        Verb::Restart
    } else if is_named(word, b"take") {
        Verb::Take
    } else if is_named(word, b"catch") {
        Verb::Catch
    } else if is_named(word, b"pending") {
        Verb::Pending
    } else if is_named(word, b"show") {
        Verb::Show
    } else if is_named(word, b"order") {
        Verb::Order
    } else {
        return None;
    };
    Some(verb)
}
