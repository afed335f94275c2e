//! Cases of records that are not games.
ghost use Rattle.std.specs.Prelude.{◌≡◌};
ghost use Rattle.reply_texts.specs.Kept.{has_event, has_nothing};
ghost use Rattle.reply_texts.specs.Objects.{has_sheet};

use game_case::{Case, Finding};

/// The answer about a record without an event.
pub const NO_GAME: &[u8] = b"no game\n";

/// Whether a record with this finding has an event.
pub fn is_with_event(finding: &Finding) -> bool
    ensures { result ≡ has_event finding.now }
{
    match finding {
        Finding::NoGame => false,
        Finding::Legal { .. } | Finding::Illegal { .. } | Finding::Unsettled => true,
    }
}

/// Whether the text of a case is a record without an event.
pub fn has_no_event(case: &Case) -> bool
    ensures { result ≡ has_nothing case.now.read }
{
    match &case.read {
        Ok(entry) => !is_with_event(&entry.finding),
        Err(_) => false,
    }
}

/// Whether the text of a case is a record with an event.
pub fn has_event(case: &Case) -> bool
    ensures { result ≡ has_sheet case.now.read }
{
    match &case.read {
        Ok(entry) => is_with_event(&entry.finding),
        Err(_) => false,
    }
}
