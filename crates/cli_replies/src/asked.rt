//! What a command asks, and its replies.
ghost use Rattle.std.specs.Prelude.{◌≡◌, length, map, IfOk, IfErr};
ghost use Rattle.lex_check.specs.Pairs.{list_in};
ghost use Rattle.reply_answers.specs.Given.{FailsForMemoryAlone};
ghost use Rattle.cli_replies.specs.Asked.{first_of, second_of, IsMakerOf, IsReplyBy, IsReplyOn, IsReplyOnBoth, IsBoardOn};

use cli_args::PROGRAM;
use cli_files::{Digests, GivenFiles, RulesFile, Words, digests_of};
use engine_stages::RunFault;
use game_known::KnownBests;
use io_devices::FromRead;
use page_answers::Maker;
use ref_tiles::Rules;
use reply_answers::{Judges, Reply, board_reply, reply_to};
use reply_calls::{Asking, AskingByRules};
use reply_requests::{Request, Task};
use std::alloc::{AllocError, Global};
use std::io::Read;

/// What pages are made by, with the digests of the inputs.
fn maker_of<F: Read + Drop, S: Read + Drop>(
    given: &GivenFiles<'_, F, S>,
) -> Result<Maker, AllocError>
    ensures { IfOk result (IsMakerOf (list_in given.now.pair.now)) }
{
    let Digests { list, rules } = digests_of(given)?;
    Ok(Maker {
        program: PROGRAM,
        words: given.pair.list().len(),
        list,
        rules,
    })
}

/// The reply to a request.
fn reply_by<F: Read + Drop, S: Read + Drop>(
    alloc: Global,
    given: &GivenFiles<'_, F, S>,
    request: &Request<'_>,
) -> Result<Reply, RunFault>
    ensures reply { IfOk result (IsReplyBy given.now.rules.now (list_in given.now.pair.now) request.now) }
    ensures memory { FailsForMemoryAlone result }
{
    let maker = maker_of(given)?;
    let judges = Judges {
        rules: given.rules,
        pair: given.pair,
        maker: &maker,
    };
    let mut known = KnownBests::none(alloc);
    reply_to(alloc, &judges, request, &mut known)
}

/// The first of the sheets that were read; without one, no bytes.
fn first_of(sheets: &[Vec<u8>]) -> &[u8]
    ensures { result.now ≡ first_of (map (λ sheet. sheet.items) sheets.now) }
{
    match sheets {
        [] => b"",
        [first, ..] => first.as_slice(),
    }
}

/// The second of them.
fn second_of(sheets: &[Vec<u8>]) -> &[u8]
    ensures { result.now ≡ second_of (map (λ sheet. sheet.items) sheets.now) }
{
    match sheets {
        [] => b"",
        [_, rest @ ..] => first_of(rest),
    }
}

/// A request that is about no sheet.
#[derive(Clone, Copy)]
pub struct OfNone<'a> {
    /// It.
    pub request: &'a Request<'a>,
}

impl<F: Read + Drop, S: Read + Drop> Asking<RulesFile<F>, FromRead<Words<S>>> for OfNone<'_> {
    type Reply = Reply;

    ghost is_reply = { λ asked rules list texts reply. IsReplyBy rules list asked.request.now reply };

    fn reply(
        &self,
        alloc: Global,
        given: &GivenFiles<'_, F, S>,
        _sheets: &[Vec<u8>],
    ) -> Result<Reply, RunFault> {
        reply_by(alloc, given, self.request)
    }
}

/// What is asked of one sheet.
#[derive(Clone, Copy)]
pub struct OfOne<'a> {
    /// It.
    pub task: Task<'a>,
}

impl<F: Read + Drop, S: Read + Drop> Asking<RulesFile<F>, FromRead<Words<S>>> for OfOne<'_> {
    type Reply = Reply;

    ghost is_reply = { λ asked rules list texts reply. IsReplyOn rules list asked.task texts reply };

    fn reply(
        &self,
        alloc: Global,
        given: &GivenFiles<'_, F, S>,
        sheets: &[Vec<u8>],
    ) -> Result<Reply, RunFault> {
        reply_by(alloc, given, &self.task.of_game(first_of(sheets)))
    }
}

/// That two sheets are to be compared.
#[derive(Clone, Copy)]
pub struct OfBoth {
    /// Whether the merged record is requested.
    pub merged: bool,
    /// Whether the texts are those of drafts.
    pub draft: bool,
}

impl<F: Read + Drop, S: Read + Drop> Asking<RulesFile<F>, FromRead<Words<S>>> for OfBoth {
    type Reply = Reply;

    ghost is_reply = { λ asked rules list texts reply. IsReplyOnBoth rules list asked.merged asked.draft texts reply };

    fn reply(
        &self,
        alloc: Global,
        given: &GivenFiles<'_, F, S>,
        sheets: &[Vec<u8>],
    ) -> Result<Reply, RunFault> {
        let request = Request::Compare {
            first: first_of(sheets),
            second: second_of(sheets),
            merged: self.merged,
            draft: self.draft,
        };
        reply_by(alloc, given, &request)
    }
}

/// That the board of a sheet is to be shown, or of a draft, before a line if one is named.
#[derive(Clone, Copy)]
pub struct OfBoard {
    /// The line.
    pub line: Option<u32>,
    /// Whether the text is that of a draft.
    pub draft: bool,
}

impl AskingByRules for OfBoard {
    type Reply = Reply;

    ghost is_reply = { λ asked rules text reply. IsBoardOn rules asked.line asked.draft text reply };

    fn reply(&self, alloc: Global, rules: &Rules, sheet: &[u8]) -> Result<Reply, RunFault> {
        board_reply(alloc, rules, sheet, self.line, self.draft)
    }
}
