//! The page of a game.
ghost use Rattle.std.specs.Prelude.{ℕ, List, IfOk};
ghost use Rattle.lex_check.specs.Pairs.{list_in};
ghost use Rattle.game_case.specs.Explaining.{IsCaseOf, HasItsWalk};
ghost use Rattle.page_answers.specs.Pages.{IsPagedCase};
ghost use Rattle.reply_answers.specs.Given.{FailsForMemoryAlone, read_of};

use crate::games::case_in;
use crate::judges::Judges;
use engine_stages::RunFault;
use game_case::Case;
use page_answers::{PagedCase, likely_asked, paged_case};
use std::alloc::{AllocError, Global};

/// The page of a case, with its likely repair if that is requested.
#[tactic(auto, using(crate::proofs::Paging::paged))]
fn paged_of(
    alloc: Global,
    judges: &Judges<'_>,
    case: Case,
    likely: bool,
) -> Result<PagedCase, AllocError>
    requires { HasItsWalk judges.now.rules.now (list_in judges.now.pair.now) case }
    ensures { IfOk result (λ paged. (text : List ℕ) → IsCaseOf judges.now.rules.now (list_in judges.now.pair.now) text case
        → IsPagedCase likely judges.now.maker.now judges.now.rules.now (list_in judges.now.pair.now) text paged) }
{
    let mut case = case;
    let repair = likely_asked(alloc, judges.rules, judges.pair, &mut case, likely)?;
    paged_case(alloc, judges.rules, judges.pair, case, repair, judges.maker)
}

/// The page of a record, with its likely repair if that is requested: what `page` finds.
pub fn paged(
    alloc: Global,
    judges: &Judges<'_>,
    game: &[u8],
    likely: bool,
) -> Result<PagedCase, RunFault>
    ensures paged { IfOk result (IsPagedCase likely judges.now.maker.now judges.now.rules.now (list_in judges.now.pair.now) (read_of game.now)) }
    ensures memory { FailsForMemoryAlone result }
{
    let case = case_in(alloc, judges.rules, judges.pair, game)?;
    Ok(paged_of(alloc, judges, case, likely)?)
}
