//! The likely repair of a case, if it is asked for.
ghost use Rattle.std.specs.Prelude.{◌≡◌, IfOk, OnOk};
ghost use Rattle.lex_check.specs.Pairs.{list_in};
ghost use Rattle.game_case.specs.Explaining.{HasItsWalk};
ghost use Rattle.page_answers.specs.Pages.{IsLikelyAsked};

use game_case::Case;
use lex_check::Checked;
use ref_tiles::Rules;
use repair_answers::{Likely, likely_in_case};
use std::alloc::{AllocError, Global};

/// The likely repair of a case, if it is asked for. Afterwards the case is as it was.
///
/// It fails only if memory runs out.
pub fn likely_asked(
    alloc: Global,
    rules: &Rules,
    pair: &Checked<'_>,
    case: &mut Case,
    asked: bool,
) -> Result<Option<Likely>, AllocError>
    requires { HasItsWalk rules.now (list_in pair.now) case.old }
    ensures likely { IfOk result (IsLikelyAsked asked rules.now (list_in pair.now) case.old.text.items case.old.read) }
    ensures same { OnOk result (case.new ≡ case.old) }
{
    if asked {
        likely_in_case(alloc, rules, pair, case)
    } else {
        Ok(None)
    }
}
