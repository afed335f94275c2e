//! Reading a rules text, line by line.
ghost use Rattle.std.specs.Prelude.{◌≡◌, ◌≤◌, IfOk, IfErr, length};
ghost use Rattle.text_lines.specs.Lines.{lines_in, lines_of};
ghost use Rattle.ref_tiles.specs.RulesTexts.{most_text_bytes, meaning_of, drafted, more_by, Gives, Makes, IsFaultOf, AreOnce};
ghost use Rattle.ref_tiles.specs.Statements.{statement_of, IsLinePlace};

use crate::assembling::finish;
use crate::drafts::Draft;
use crate::rulebook::Rules;
use crate::rules_faults::{RulesFault, RulesWhy};
use crate::statements::read_line;
use text_lines::{Lines, without_mark};

/// The maximum number of bytes of a rules text.
pub const MAX_RULES_BYTES: usize = 65_536;

impl Rules {
    /// Reads rules from a text, or gives its first fault: the first by line, and on a line the first in the order of [`RulesWhy`].
    ///
    /// A line is `tile K COUNT POINTS`, `row N CODES` with the premiums of the columns A to O, or a parameter and its
    /// number: `bonus N`, `exchange_min N`, `zero_limit N`, `challenge_unit N`, `time_step N`. Each of the 27 tiles A to Z
    /// and `?`, of the rows 1 to 15 and of the parameters has one line, in any order. Lines of only spaces and tabs, and
    /// those that begin with `#`, are ignored.
    #[tactic(auto, using(crate::proofs::RulesMeanings::text_meaning, crate::proofs::RulesMeanings::line_meaning, crate::proofs::RulesMeanings::text_fault, crate::proofs::RulesMeanings::whole_text, crate::proofs::RulesMeanings::too_long))]
    pub fn read(bytes: &[u8]) -> Result<Rules, RulesFault>
        ensures meaning { Gives result (meaning_of bytes.now) }
        ensures once { IfOk result (λ _. AreOnce (lines_of bytes.now)) }
        ensures fault { IfErr result (λ fault. IsFaultOf bytes.now fault) }
    {
        if bytes.len() > MAX_RULES_BYTES {
            return Err(RulesFault {
                line: 0,
                why: RulesWhy::TooLong,
            });
        }
        match read_lines(without_mark(bytes)) {
            Ok(draft) => finish(&draft),
            Err(fault) => Err(fault),
        }
    }
}

/// Reads the lines of a text.
#[tactic(auto, using(crate::proofs::RulesSteps::steps))]
fn read_lines(text: &[u8]) -> Result<Draft, RulesFault>
    requires { length text.now ≤ most_text_bytes }
    ensures { result ≡ drafted (lines_in text.now) }
{
    let mut draft = Draft::empty();
    let mut number = 0;
    for line in Lines::of(text) {
        number += 1;
        take_line(&mut draft, number, line)?;
    }
    Ok(draft)
}

/// Takes in what one line states.
fn take_line(draft: &mut Draft, line: u32, text: &[u8]) -> Result<(), RulesFault>
    ensures entries { Makes draft.new result (more_by draft.old line (statement_of text.now)) }
    ensures place { IsLinePlace (statement_of text.now) }
{
    let stated = match read_line(text) {
        Ok(stated) => stated,
        Err(why) => return Err(RulesFault { line, why }),
    };
    let Some(statement) = stated else {
        return Ok(());
    };
    if draft.at(statement.item).is_some() {
        return Err(RulesFault {
            line,
            why: RulesWhy::Twice,
        });
    }
    draft.put(statement.item, statement.entry);
    Ok(())
}
