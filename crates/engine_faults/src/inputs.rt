//! The faults of inputs by their names.
ghost use Rattle.std.specs.Prelude.{◌≡◌, ◌++◌, ◌∷◌, [], codes, map, Some, None};
ghost use Rattle.lex_check.specs.Checks.{symbol_of};
ghost use Rattle.engine_stages.specs.Reports.{line_text, bad_file_line};
ghost use Rattle.engine_faults.specs.Inputs.{fault_name_of, HasParts, input_text, IsNamedInput, lexicon_name, lexicon_path, line_of, path_of, what_of};

use arrayvec::ArrayVec;
use engine_stages::{InputFault, LexiconFault};
use lex_check::{Path, text_of};

/// What is wrong with an input, by its name.
#[derive(Drop)]
pub struct NamedInput {
    /// Which input is bad, as a report says it: `bad record`.
    pub what: &'static str,
    /// The line of the fault, counted from 1; 0 if it is on no line.
    pub line: u32,
    /// The name of the fault, if it has one.
    pub name: Option<&'static str>,
    /// The path of the first difference between a lexicon and a list, if there is one.
    pub path: Option<ArrayVec<u8, 17>>,
}

/// A fault on a line of an input.
fn on_line(what: &'static str, line: u32, name: &'static str) -> NamedInput
    ensures parts { HasParts what.now line (Some name.now) None result }
    ensures text { input_text result ≡ what.now ++ line_text line ++ codes ": " ++ name.now ++ 10 ∷ [] }
{
    NamedInput {
        what,
        line,
        name: Some(name),
        path: None,
    }
}

/// A fault of a lexicon.
fn in_lexicon(name: &'static str) -> NamedInput
    ensures parts { HasParts (codes "bad lexicon") 0 (Some name.now) None result }
    ensures text { input_text result ≡ codes "bad lexicon: " ++ name.now ++ 10 ∷ [] }
{
    NamedInput {
        what: "bad lexicon",
        line: 0,
        name: Some(name),
        path: None,
    }
}

/// A path at which a lexicon and a list differ.
fn at_path(name: &'static str, path: &Path) -> NamedInput
    ensures parts { HasParts (codes "bad lexicon") 0 (Some name.now) (Some (map symbol_of path.now.items)) result }
    ensures text { input_text result ≡ codes "bad lexicon: " ++ name.now ++ 32 ∷ map symbol_of path.now.items ++ 10 ∷ [] }
{
    NamedInput {
        what: "bad lexicon",
        line: 0,
        name: Some(name),
        path: Some(text_of(path)),
    }
}

/// That something requested does not exist.
fn nameless(what: &'static str) -> NamedInput
    ensures text { input_text result ≡ what.now ++ 10 ∷ [] }
    ensures parts { HasParts what.now 0 None None result }
{
    NamedInput {
        what,
        line: 0,
        name: None,
        path: None,
    }
}

/// What is wrong with a lexicon, by its name.
#[tactic(auto, unfolding(engine_stages::specs::Reports::bad_file_line))]
fn named_lexicon(fault: &LexiconFault) -> NamedInput
    ensures parts { HasParts (codes "bad lexicon") 0 (Some (lexicon_name fault.now)) (lexicon_path fault.now) result }
    ensures text { input_text result ≡ bad_file_line fault.now }
{
    match fault {
        LexiconFault::Form(first) => in_lexicon(first.name()),
        LexiconFault::Missing(path) => at_path("Missing", path),
        LexiconFault::Extra(path) => at_path("Extra", path),
        LexiconFault::WordCount => in_lexicon("WordCount"),
    }
}

/// What is wrong with an input, by its name: the parts from which a report makes its line.
#[tactic(auto, unfolding(engine_stages::specs::Reports::bad_list_line, engine_stages::specs::Reports::bad_rules_line, engine_stages::specs::Reports::bad_record_line, engine_stages::specs::Reports::too_many_arcs_line, engine_stages::specs::Reports::bad_rack_line))]
pub fn named_input(fault: &InputFault) -> NamedInput
    ensures parts { HasParts (what_of fault.now) (line_of fault.now) (fault_name_of fault.now) (path_of fault.now) result }
    ensures text { IsNamedInput fault.now result }
{
    match fault {
        InputFault::Words(first) => on_line("bad word list", first.line, first.why.name()),
        InputFault::Lexicon(first) => named_lexicon(first),
        InputFault::TooManyArcs => in_lexicon("TooManyArcs"),
        InputFault::Rules(first) => on_line("bad rules", first.line, first.why.name()),
        InputFault::Game(first) => on_line("bad record", first.line, first.why.name()),
        InputFault::Rack => nameless("bad rack"),
        InputFault::Line => nameless("bad line"),
    }
}
