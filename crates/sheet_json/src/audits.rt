//! Audits as trees.
ghost use Rattle.std.specs.Prelude.{◌≡◌, codes, slice_get, Some, None, IfOk, map, option_map};
ghost use Rattle.std.specs.Option.{option_copied};
ghost use Rattle.json_trees.specs.Trees.{fields_view, view};
ghost use Rattle.json_trees.specs.Values.{array_of, or_null};
ghost use Rattle.sheet_json.specs.Audits.{ahead_value, amount_object, audit_fields, audit_object, direction_value, finding_ending, finding_fault, finding_line, finding_word, kind_value, line_value, place_value, symbols_value, wrong_object, wrong_of};

use game_case::Finding;
use game_corrections::Standing;
use gcg_read::{Event, Record, Seat};
use gcg_unread::UnreadLine;
use json_base::{
    ending_name, game_fault_tree, item_at, kind_direction_tree, kind_name, kind_place_tree,
    kind_symbols_tree, number_of, players_array, standing_tree, unread_array,
};
use json_trees::{
    Tree, array, count_tree, integer_or_null, integer_tree, name_tree, null_tree, object, text_tree,
};
use repair_answers::SheetAmount;
use repair_json::single_tree;
use sheet_audit::{AuditAnswer, ReportedNumber};
use std::alloc::{AllocError, Global};

/// What is found of the corrected record, by its name.
fn finding_name(finding: &Finding) -> &'static str
    ensures { result.now ≡ finding_word finding.now }
{
    match finding {
        Finding::NoGame => "no game",
        Finding::Legal { .. } => "legal",
        Finding::Illegal { .. } => "illegal",
        Finding::Unsettled => "unsettled",
    }
}

/// The line of the fault; null if the record is not illegal.
fn line_tree(finding: &Finding) -> Tree
    ensures { view result ≡ finding_line finding.now }
{
    match finding {
        Finding::Illegal { line, .. } => count_tree(*line),
        Finding::NoGame | Finding::Legal { .. } | Finding::Unsettled => null_tree(),
    }
}

/// The fault; null if the record is not illegal.
fn fault_tree(alloc: Global, finding: &Finding) -> Result<Tree, AllocError>
    ensures { IfOk result (λ tree. view tree ≡ finding_fault finding.now) }
{
    match finding {
        Finding::Illegal { fault, .. } => game_fault_tree(alloc, fault),
        Finding::NoGame | Finding::Legal { .. } | Finding::Unsettled => Ok(null_tree()),
    }
}

/// Whether a legal game has ended; null if the record is not legal.
fn ending_tree(finding: &Finding) -> Tree
    ensures { view result ≡ finding_ending finding.now }
{
    match finding {
        Finding::Legal { complete } => name_tree(ending_name(*complete)),
        Finding::NoGame | Finding::Illegal { .. } | Finding::Unsettled => null_tree(),
    }
}

/// Who is ahead; null if the rules do not allow each event of the corrected record, or if it has none.
fn ahead_tree(alloc: Global, finding: &Finding, standing: &Standing) -> Result<Tree, AllocError>
    ensures { IfOk result (λ tree. view tree ≡ ahead_value finding.now standing.now) }
{
    match finding {
        Finding::NoGame | Finding::Illegal { .. } => Ok(null_tree()),
        Finding::Legal { .. } | Finding::Unsettled => standing_tree(alloc, standing),
    }
}

/// The line of an event, if there is one.
fn event_line(event: Option<&Event>) -> Tree
    ensures { view result ≡ line_value (option_copied event.entry) }
{
    match event {
        Some(event) => count_tree(event.line),
        None => null_tree(),
    }
}

/// The kind of an event, if there is one.
fn event_kind(event: Option<&Event>) -> Tree
    ensures { view result ≡ kind_value (option_copied event.entry) }
{
    match event {
        Some(event) => name_tree(kind_name(&event.kind)),
        None => null_tree(),
    }
}

/// Where the play of an event begins, if it is one.
fn event_place(alloc: Global, event: Option<&Event>) -> Result<Tree, AllocError>
    ensures { IfOk result (λ tree. view tree ≡ place_value (option_copied event.entry)) }
{
    match event {
        Some(event) => kind_place_tree(alloc, &event.kind),
        None => Ok(null_tree()),
    }
}

/// The direction of the play of an event, if it is one.
fn event_direction(event: Option<&Event>) -> Tree
    ensures { view result ≡ direction_value (option_copied event.entry) }
{
    match event {
        Some(event) => kind_direction_tree(&event.kind),
        None => null_tree(),
    }
}

/// The text of the play of an event, if it is one.
fn event_symbols(alloc: Global, event: Option<&Event>) -> Result<Tree, AllocError>
    ensures { IfOk result (λ tree. view tree ≡ symbols_value (option_copied event.entry)) }
{
    match event {
        Some(event) => kind_symbols_tree(alloc, &event.kind),
        None => Ok(null_tree()),
    }
}

/// A wrong number of a player, with its event if it has one.
fn wrong_of(
    alloc: Global,
    game: &Record,
    what: &'static str,
    event: Option<&Event>,
    player: Seat,
    written: i32,
    sum: Option<i32>,
    right: Option<i32>,
) -> Result<Tree, AllocError>
    ensures { IfOk result (λ tree. view tree ≡ wrong_of game.now what.now (option_copied event.entry) player written sum right) }
{
    let nick = text_tree(alloc, game.players.of(player).nick.as_bytes())?;
    let place = event_place(alloc, event)?;
    let symbols = event_symbols(alloc, event)?;
    let fields = vec![in alloc;
        ("wrong", name_tree(what)),
        ("line", event_line(event)),
        ("player", count_tree(number_of(player))),
        ("nick", nick),
        ("kind", event_kind(event)),
        ("place", place),
        ("direction", event_direction(event)),
        ("text", symbols),
        ("written", integer_tree(written)),
        ("sum", integer_or_null(sum)),
        ("right", integer_or_null(right)),
    ]?;
    Ok(object(fields))
}

/// A wrong score.
fn score_tree(
    alloc: Global,
    game: &Record,
    place: usize,
    player: Seat,
    written: i32,
    right: i32,
) -> Result<Tree, AllocError>
    ensures { IfOk result (λ tree. view tree ≡ wrong_of game.now (codes "score") (slice_get game.now.events place) player written None (Some right)) }
{
    let event = item_at(game.events.as_slice(), place);
    wrong_of(
        alloc,
        game,
        "score",
        event,
        player,
        written,
        None,
        Some(right),
    )
}

/// A total that is neither the sum of its line nor the right one.
fn sum_tree(
    alloc: Global,
    game: &Record,
    place: usize,
    player: Seat,
    written: i32,
    sum: i32,
    right: Option<i32>,
) -> Result<Tree, AllocError>
    ensures { IfOk result (λ tree. view tree ≡ wrong_of game.now (codes "sum") (slice_get game.now.events place) player written (Some sum) right) }
{
    let event = item_at(game.events.as_slice(), place);
    wrong_of(alloc, game, "sum", event, player, written, Some(sum), right)
}

/// A wrong last total.
fn total_tree(
    alloc: Global,
    game: &Record,
    player: Seat,
    written: i32,
    right: i32,
) -> Result<Tree, AllocError>
    ensures { IfOk result (λ tree. view tree ≡ wrong_of game.now (codes "last total") None player written None (Some right)) }
{
    wrong_of(
        alloc,
        game,
        "last total",
        None,
        player,
        written,
        None,
        Some(right),
    )
}

/// A wrong number.
fn wrong_tree(alloc: Global, game: &Record, number: &ReportedNumber) -> Result<Tree, AllocError>
    ensures { IfOk result (λ tree. view tree ≡ wrong_object game.now number.now) }
{
    match number {
        ReportedNumber::Score {
            place,
            player,
            written,
            right,
            ..
        } => score_tree(alloc, game, *place, *player, *written, *right),
        ReportedNumber::Sum {
            place,
            player,
            written,
            sum,
            right,
            ..
        } => sum_tree(alloc, game, *place, *player, *written, *sum, *right),
        ReportedNumber::Total {
            player,
            written,
            right,
        } => total_tree(alloc, game, *player, *written, *right),
    }
}

/// The wrong numbers.
fn wrong_array(alloc: Global, game: &Record, numbers: &[ReportedNumber]) -> Result<Tree, AllocError>
    ensures { IfOk result (λ tree. view tree ≡ array_of (map (wrong_object game.now) numbers.now)) }
{
    let mut trees = Vec::new(alloc);
    for number in numbers {
        trees.push(wrong_tree(alloc, game, number)?)?;
    }
    Ok(array(trees))
}

/// A bonus or a penalty that would explain the numbers; null if there is none.
fn amount_tree(alloc: Global, amount: &Option<SheetAmount>) -> Result<Tree, AllocError>
    ensures { IfOk result (λ tree. view tree ≡ or_null (option_map amount_object amount.now)) }
{
    match amount {
        Some(amount) => single_tree(alloc, &amount.record, &amount.repair),
        None => Ok(null_tree()),
    }
}

/// An audit, as the fields of an object: the verdict of the corrected record, the players, each number that is wrong, who is ahead, a bonus or a penalty
/// that would explain the numbers, and the lines that are not read.
pub fn audit_fields(
    alloc: Global,
    answer: &AuditAnswer,
    unread: &[UnreadLine],
) -> Result<Vec<(&'static str, Tree)>, AllocError>
    ensures { IfOk result (λ fields. fields_view fields.items ≡ audit_fields answer.now unread.now) }
{
    let audit = &answer.audit;
    let finding = &audit.entry.finding;
    let fault = fault_tree(alloc, finding)?;
    let players = players_array(alloc, &audit.entry.record.players)?;
    let wrong = wrong_array(alloc, &audit.entry.record, answer.numbers.as_slice())?;
    let ahead = ahead_tree(alloc, finding, &audit.ahead)?;
    let by_sheet = ahead_tree(alloc, finding, &audit.written)?;
    let amount = amount_tree(alloc, &answer.amount)?;
    let unread = unread_array(alloc, unread)?;
    let fields = vec![in alloc;
        ("verdict", name_tree(finding_name(finding))),
        ("line", line_tree(finding)),
        ("fault", fault),
        ("ending", ending_tree(finding)),
        ("players", players),
        ("wrong", wrong),
        ("ahead", ahead),
        ("ahead_by_sheet", by_sheet),
        ("amount", amount),
        ("unread_lines", unread),
    ]?;
    Ok(fields)
}

/// An audit.
pub fn audit_tree(
    alloc: Global,
    answer: &AuditAnswer,
    unread: &[UnreadLine],
) -> Result<Tree, AllocError>
    ensures { IfOk result (λ tree. view tree ≡ audit_object answer.now unread.now) }
{
    Ok(object(audit_fields(alloc, answer, unread)?))
}
