//! The page of a case, as plain data.
ghost use Rattle.std.specs.Prelude.{◌≡◌, ℕ, Bool, List, IfOk};
ghost use Rattle.lex_check.specs.Pairs.{list_in};
ghost use Rattle.game_case.specs.Explaining.{IsCaseOf, HasItsWalk};
ghost use Rattle.page_answers.specs.Pages.{IsLikelyAsked, IsShownOf, IsPagedCase};

use crate::contents::{PageContents, contents_of};
use crate::makers::Maker;
use game_case::Case;
use lex_check::Checked;
use ref_tiles::Rules;
use repair_answers::Likely;
use std::alloc::{AllocError, Global};

/// A case with what its page shows, by some rules and a word list.
#[derive(Drop)]
pub struct PagedCase {
    /// The rules, for the premiums of the squares and the points of the tiles.
    pub rules: Rules,
    /// What the page is made by.
    pub maker: Maker,
    /// The bytes of the record, and what is found of it.
    pub case: Case,
    /// Its likely repair, if there is one that the page is to show.
    pub likely: Option<Likely>,
    /// What the page shows of the record; none if the text is not one.
    pub contents: Option<PageContents>,
}

/// What the page of a case shows; none if its text is not a record.
fn shown_of(
    alloc: Global,
    rules: &Rules,
    pair: &Checked<'_>,
    case: &Case,
    likely: &Option<Likely>,
) -> Result<Option<PageContents>, AllocError>
    requires { HasItsWalk rules.now (list_in pair.now) case.now }
    ensures { IfOk result (λ contents. (text : List ℕ) → IsCaseOf rules.now (list_in pair.now) text case.now
        → IsShownOf rules.now (list_in pair.now) text case.now.read likely.now contents) }
{
    let Ok(entry) = &case.read else {
        return Ok(None);
    };
    let Some(walk) = &case.walk else {
        return Ok(None);
    };
    let contents = contents_of(alloc, rules, pair, case, entry, walk, likely)?;
    Ok(Some(contents))
}

/// A case with what its page shows, by its likely repair if the page is to show that, and by what the page is made by.
///
/// It fails only if memory runs out.
///
/// The page shows the verdict line, what explains it, the encoding and the words of the record, the score sheet with the board at the faulty line or
/// at the end, the board with the repaired play, and, if there is no likely repair, the audit of a sheet with a wrong number; nothing if the text is
/// not a record. Of the maker only the number of words is promised.
pub fn paged_case(
    alloc: Global,
    rules: &Rules,
    pair: &Checked<'_>,
    case: Case,
    likely: Option<Likely>,
    maker: &Maker,
) -> Result<PagedCase, AllocError>
    requires { HasItsWalk rules.now (list_in pair.now) case }
    ensures same { IfOk result (λ paged. paged.case ≡ case) }
    ensures shown { IfOk result (λ paged. (text : List ℕ) (asked : Bool) → IsCaseOf rules.now (list_in pair.now) text case
        → IsLikelyAsked asked rules.now (list_in pair.now) text case.read likely
        → IsPagedCase asked maker.now rules.now (list_in pair.now) text paged) }
{
    let contents = shown_of(alloc, rules, pair, &case, &likely)?;
    Ok(PagedCase {
        rules: *rules,
        maker: *maker,
        case,
        likely,
        contents,
    })
}
