// The top call: from the source's script to the sink's text.
ghost use Rattle.std.specs.Prelude.{◌≡◌, ◌⊎◌, ◌<◌, ◌≤◌, ◌↔◌, [], length, Some, IfSome};
ghost use Rattle.rc_ports.specs.Causes.{Rose};
ghost use Rattle.rc_runs.specs.Text.{most_script_bytes};
ghost use Rattle.rc_player.specs.Play.{IsAnswer, IsWhole, TookAll, TookPart, TookFront, text_of, end_of};

use crate::script::{MOST_SCRIPT_BYTES, play_bytes};
use crate::stop::Stop;
use rc_ports::{ReadFault, Sink, Source, Status, Word, read_all};
use std::alloc::Global;

/// Runs the source's script over disks in memory, and offers the text of each of its lines to the sink as one piece,
/// as soon as the line was run. It takes no word: any is `BadWords`, before the source is read.
pub fn play<S: Source, K: Sink>(
    alloc: Global,
    words: &[Word],
    source: &mut S,
    sink: &mut K,
) -> Status
    ensures only { IsAnswer result }
    ensures words { (result ≡ Status.BadWords) ↔ (0 < length words.now) }
    ensures unread { result ≡ Status.BadWords → source.new ≡ source.old }
    ensures read { result ≡ Status.ReadFault → Rose (S.faults source.old) (S.faults source.new) }
    ensures write { result ≡ Status.WriteFault → Rose (K.faults sink.old) (K.faults sink.new) }

    // Before a script is read, nothing is written.
    ensures nothing { (result ≡ Status.BadWords) ⊎ (result ≡ Status.ReadFault) → K.taken sink.new ≡ K.taken sink.old }

    // Where the source tells its bytes, they are the script: its text is written whole, and its end is answered. A
    // sink that fails has not taken all of it; without memory it may stop anywhere.
    ensures whole { IfSome (S.left source.old) (λ bytes.
        IsWhole result → (result ≡ end_of bytes) × TookAll (text_of bytes) (K.taken sink.old) (K.taken sink.new)) }
    ensures part { IfSome (S.left source.old) (λ bytes.
        result ≡ Status.WriteFault → TookPart (text_of bytes) (K.taken sink.old) (K.taken sink.new)) }
    ensures front { IfSome (S.left source.old) (λ bytes.
        result ≡ Status.NoMemory → TookFront (text_of bytes) (K.taken sink.old) (K.taken sink.new)) }

    // A source of no more bytes than a script may have is read to its end.
    ensures through { IfSome (S.left source.old) (λ bytes.
        IsWhole result → length bytes ≤ most_script_bytes → S.left source.new ≡ Some []) }
    ensures end { IfSome (S.left source.old) (λ _. result ≡ Status.Done → S.left source.new ≡ Some []) }

    ensures later_source { S.faults source.old ≤ S.faults source.new }
    ensures later_sink { K.faults sink.old ≤ K.faults sink.new }
{
    if !words.is_empty() {
        return Status::BadWords;
    }
    let bytes = match read_all(alloc, source, MOST_SCRIPT_BYTES) {
        Ok(bytes) => bytes,
        Err(ReadFault::NoMemory) => return Status::NoMemory,
        Err(ReadFault::Failed) => return Status::ReadFault,
    };
    match play_bytes(alloc, &bytes, sink) {
        Ok(status) => status,
        Err(Stop::Failed) => Status::WriteFault,
        Err(Stop::NoMemory) => Status::NoMemory,
    }
}
