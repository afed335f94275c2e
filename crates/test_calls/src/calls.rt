//! Calls of the engine over bytes.
ghost use Rattle.io_devices.specs.Devices.{HasRoom};

use crate::feeds::{Feed, NEVER};
use engine::{
    run, run_board, run_board_ruled, run_build, run_check, run_convert, run_ruled, run_settled,
    run_settled_ruled, run_tidy, run_top, run_top_before, run_top_before_ruled, run_top_ruled,
};
use engine_stages::{RunFault, Verdict};
use game_report::MOST_PLAYS;
use io_devices::Output;
use lex_file::Format;
use ref_tiles::{Rules, english_rules};
use std::alloc::Global;

/// A call of the engine.
#[derive(Clone, Copy, Debug)]
pub enum Call<'a> {
    /// To judge a game.
    Judge,
    /// To judge a game, and to search for a deal.
    Settle,
    /// To name the best plays by a rack.
    Top(&'a [u8]),
    /// To name the best plays before a line.
    TopBefore(Before<'a>),
    /// To build the lexicon of a word list.
    Build,
    /// To check a lexicon by a word list.
    Check,
    /// To convert a lexicon into a format.
    Convert(Format),
    /// To tidy a record.
    Tidy,
    /// To show the board before a line, or after the last event.
    Board(Option<u32>),
}

/// A question about the best plays before a line.
#[derive(Clone, Copy, Debug)]
pub struct Before<'a> {
    /// The rack, or that of the line.
    pub rack: Option<&'a [u8]>,
    /// How many plays are wanted. More than a hundred count as a hundred.
    pub number: usize,
    /// The line, or after the last event.
    pub line: Option<u32>,
}

/// The rules of a game.
#[derive(Clone, Copy)]
pub enum GameRules<'a> {
    /// Those of the English game.
    English,
    /// These.
    Known(&'a Rules),
    /// Those of a text.
    Text(&'a [u8]),
}

impl<'a> GameRules<'a> {
    /// The text; empty if the rules are not a text.
    pub fn text(self) -> &'a [u8] {
        match self {
            GameRules::Text(text) => text,
            GameRules::English | GameRules::Known(_) => b"",
        }
    }

    /// The rules, if they are not a text.
    fn known(self) -> Option<Rules> {
        match self {
            GameRules::English => Some(english_rules()),
            GameRules::Known(rules) => Some(*rules),
            GameRules::Text(_) => None,
        }
    }
}

/// What the inputs of a call hold. An input that the call does not have is empty.
#[derive(Clone, Copy)]
pub struct Inputs<'a> {
    /// The rules that it uses, if it is about a game.
    pub rules: GameRules<'a>,
    /// The word list.
    pub words: &'a [u8],
    /// The compiled lexicon.
    pub lexicon: &'a [u8],
    /// The record.
    pub game: &'a [u8],
}

/// Empty inputs, by the English rules.
pub const NO_INPUTS: Inputs<'static> = Inputs {
    rules: GameRules::English,
    words: b"",
    lexicon: b"",
    game: b"",
};

/// How inputs are read: the greatest number of bytes that a read gives, and for each input (words, lexicon, record, rules text)
/// the number of the read that fails.
#[derive(Clone, Copy, Debug)]
pub struct Reads {
    /// The bytes of a read.
    pub piece: usize,
    /// The reads that fail.
    pub failing: [usize; 4],
}

impl Reads {
    /// Reads that work, and give at most `piece` bytes.
    pub fn working(piece: usize) -> Reads {
        Reads {
            piece,
            failing: [NEVER; 4],
        }
    }
}

/// The result of a call, and its inputs as it leaves them.
#[derive(Drop)]
pub struct Asked<'a> {
    /// The answer.
    pub answer: Result<Verdict, RunFault>,
    /// The word list.
    pub words: Feed<'a>,
    /// The compiled lexicon.
    pub lexicon: Feed<'a>,
    /// The record.
    pub game: Feed<'a>,
    /// The rules text.
    pub text: Feed<'a>,
}

impl Asked<'_> {
    /// Whether an input failed.
    pub fn has_failed(&self) -> bool {
        self.words.has_failed()
            || self.lexicon.has_failed()
            || self.game.has_failed()
            || self.text.has_failed()
    }
}

/// Makes a call.
pub fn ask<'a, O: Output>(
    alloc: Global,
    call: Call<'_>,
    inputs: &Inputs<'a>,
    reads: &Reads,
    out: &mut O,
) -> Asked<'a>
    requires { HasRoom (O.device out.old) }
{
    let mut words = Feed::new(inputs.words, reads.piece, reads.failing[0]);
    let mut lexicon = Feed::new(inputs.lexicon, reads.piece, reads.failing[1]);
    let mut game = Feed::new(inputs.game, reads.piece, reads.failing[2]);
    let mut text = Feed::new(inputs.rules.text(), reads.piece, reads.failing[3]);
    let known = inputs.rules.known();
    let answer = answer(
        alloc,
        call,
        known.as_ref(),
        &mut text,
        &mut words,
        &mut lexicon,
        &mut game,
        out,
    );
    Asked {
        answer,
        words,
        lexicon,
        game,
        text,
    }
}

/// What a call answers by rules, or by those of the text.
fn answer<O: Output>(
    alloc: Global,
    call: Call<'_>,
    rules: Option<&Rules>,
    text: &mut Feed<'_>,
    words: &mut Feed<'_>,
    lexicon: &mut Feed<'_>,
    game: &mut Feed<'_>,
    out: &mut O,
) -> Result<Verdict, RunFault>
    requires { HasRoom (O.device out.old) }
{
    match call {
        Call::Judge => match rules {
            Some(rules) => run(alloc, words, lexicon, game, out, rules),
            None => run_ruled(alloc, text, words, lexicon, game, out),
        },
        Call::Settle => match rules {
            Some(rules) => run_settled(alloc, words, lexicon, game, out, rules),
            None => run_settled_ruled(alloc, text, words, lexicon, game, out),
        },
        Call::Top(rack) => match rules {
            Some(rules) => run_top(alloc, words, lexicon, game, rack, out, rules),
            None => run_top_ruled(alloc, text, words, lexicon, game, rack, out),
        },
        Call::TopBefore(Before { rack, number, line }) => {
            let number = number.min(MOST_PLAYS);
            match rules {
                Some(rules) => {
                    run_top_before(alloc, words, lexicon, game, rack, number, line, out, rules)
                }
                None => {
                    run_top_before_ruled(alloc, text, words, lexicon, game, rack, number, line, out)
                }
            }
        }
        Call::Board(line) => match rules {
            Some(rules) => run_board(alloc, game, line, out, rules),
            None => run_board_ruled(alloc, text, game, line, out),
        },
        Call::Build => run_build(alloc, words, out),
        Call::Check => run_check(alloc, words, lexicon, out),
        Call::Convert(format) => run_convert(alloc, lexicon, format, out),
        Call::Tidy => run_tidy(alloc, game, out),
    }
}
