// Messages from bytes.
ghost use Rattle.std.specs.Prelude.{◌≡◌, ◌≢◌, None, IfOk, IfSome, if◌then◌else◌};
ghost use Rattle.rc_fields.specs.Formats.{Gives};
ghost use Rattle.rc_fields.specs.Laws.{IsKind};
ghost use Rattle.rc_msg.specs.Spelling.{envelope_bytes, HasEnvelope};
ghost use Rattle.rc_msg.specs.Reading.{envelope_at, envelope_in};
ghost use Rattle.rc_msg.specs.declared.msg.Envelope.{Envelope as AnyEnvelope};

use crate::Envelope;
use crate::kinds::msg;
use rc_fields::Fields;
use rc_ids::NoMemory;
use std::alloc::Global;

/// The message that all of the bytes spell; None where they spell none.
pub fn decode(alloc: Global, bytes: &[u8]) -> Result<Option<Envelope>, NoMemory>
    ensures found { IfOk result (λ r. IfSome r (λ e. (bytes.now ≡ envelope_bytes e) × HasEnvelope e)) }
    ensures none { IfOk result (λ r. r ≡ None → (e : AnyEnvelope) → HasEnvelope e → bytes.now ≢ envelope_bytes e) }
{
    all_of(alloc, bytes)
}

/// The message that all of the bytes spell, by reading them from the left.
fn all_of(alloc: Global, bytes: &[u8]) -> Result<Option<Envelope>, NoMemory>
    ensures { IfOk result (λ r. r ≡ envelope_in bytes.now) }
{
    let mut fields = Fields::new(bytes);
    let found = envelope(alloc, &mut fields)?;
    Ok(at_end(found, fields.is_end()))
}

/// The message, where no byte is left behind it.
fn at_end(found: Option<Envelope>, is_end: bool) -> Option<Envelope>
    ensures { result ≡ (if is_end then found else None) }
{
    if is_end { found } else { None }
}

#[tactic(auto, unfolding(crate::specs::Reading::envelope_at, rc_fields::specs::Formats::mapped_at, rc_fields::specs::Formats::both_at))]
fn envelope(alloc: Global, fields: &mut Fields<'_>) -> Result<Option<Envelope>, NoMemory>
    ensures { IfOk result (λ found. Gives found fields.new (envelope_at fields.old)) }
{
    let Some(from) = fields.party() else {
        return Ok(None);
    };
    let Some(to) = fields.party() else {
        return Ok(None);
    };
    let Some(msg) = msg(alloc, fields)? else {
        return Ok(None);
    };
    Ok(Some(Envelope { from, to, msg }))
}

/// Two messages with one spelling are the same, and no spelling of a message begins another.
pub fn message_laws()
    ensures one { (d e : AnyEnvelope) → HasEnvelope d → HasEnvelope e → envelope_bytes d ≡ envelope_bytes e → d ≡ e }
    ensures apart { IsKind envelope_bytes HasEnvelope }
{}
