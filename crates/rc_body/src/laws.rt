// The laws of bodies, decisions, reasons, reports and pages as bytes.
ghost use Rattle.rc_fields.specs.Laws.{IsKind};
ghost use Rattle.rc_fields.specs.Formats.{Reads};
ghost use Rattle.rc_body.specs.Spelling.{held_bytes, entry_bytes, body_bytes, decision_bytes, reason_bytes, report_bytes, page_bytes, HasHeld, HasEntry, HasBody, HasDecision, HasReason, HasReport, HasPage};
ghost use Rattle.rc_body.specs.Reading.{held_at, entry_at, body_at, decision_at, reason_at, report_at, page_at};

/// No spelling begins another of its kind.
pub fn body_laws()
    ensures held { IsKind held_bytes HasHeld }
    ensures entry { IsKind entry_bytes HasEntry }
    ensures body { IsKind body_bytes HasBody }
    ensures decision { IsKind decision_bytes HasDecision }
    ensures reason { IsKind reason_bytes HasReason }
    ensures report { IsKind report_bytes HasReport }
    ensures page { IsKind page_bytes HasPage }
{}

/// A value is read where a spelling of its kind stands first, and nowhere else.
pub fn reading_laws()
    ensures held { Reads held_bytes HasHeld held_at }
    ensures entry { Reads entry_bytes HasEntry entry_at }
    ensures body { Reads body_bytes HasBody body_at }
    ensures decision { Reads decision_bytes HasDecision decision_at }
    ensures reason { Reads reason_bytes HasReason reason_at }
    ensures report { Reads report_bytes HasReport report_at }
    ensures page { Reads page_bytes HasPage page_at }
{}
