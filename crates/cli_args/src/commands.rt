//! The commands that the program knows: a row for each, with what help says of it, its arguments, and what it asks for. A row
//! compiles once its case has an arm in `tasks.rt`, if it is about the game of a record, or in `requests.rt`; docs/CHANGING.md has the rest of a command.

use crate::arguments::{Argument, Form};
use clap::Command;
use clap::builder::ValueParser;
use std::alloc::{AllocError, Global};

/// What `--version` prints after the program's name.
pub const VERSION: &str = "1.2.0
records: GCG
word lists: one word a line
lexicons: GAD1, GAD2";

/// What `-V` prints after the program's name.
pub const SHORT_VERSION: &str = "1.2.0";

/// The name of the program. Its messages begin with it.
pub const PROGRAM_NAME: &str = "referee";

/// The name and the version of the program.
pub const PROGRAM: &str = "referee 1.2.0";

/// The name of the option that makes the program read only the first field of each line of a word list.
pub const FIRST_FIELD: &str = "first-field";

/// The name of the option that makes the program pass over lines of a word list that are not words.
pub const SKIP_OTHERS: &str = "skip-others";

/// The largest number of best plays that can be requested.
pub const MOST_PLAYS: u32 = 100;

/// The largest number of repairs that can be requested.
pub const MOST_REPAIRS: u32 = 100;

/// How many repairs are listed if no number is given.
pub const FEW_REPAIRS: u32 = 10;

/// What a command asks for.
#[derive(Clone, Copy)]
pub enum Asks {
    /// An answer about the game of a record.
    Game(GameCommand),
    Archive,
    Index,
    Build,
    Check,
    Convert,
    Tidy,
    Board,
    Serve,
    Word,
    Rules,
}

/// The commands that are about the game of a record.
#[derive(Clone, Copy)]
pub enum GameCommand {
    Judge,
    Audit,
    Fill,
    Explain,
    Repair,
    Compare,
    Page,
    Annotate,
    Top,
}

/// A command.
#[derive(Clone, Copy)]
struct CommandRow {
    name: &'static str,
    /// What it asks for.
    asks: Asks,
    /// What help says of it.
    about: &'static str,
    /// What help says after its arguments: an example, and the exit statuses.
    after_help: &'static str,
    /// Its arguments, in the order in which help shows them.
    arguments: &'static [Argument],
}

impl CommandRow {
    /// The command as `clap` has it.
    fn build<'a>(&self, alloc: Global) -> Result<Command<'a>, AllocError> {
        let mut command = Command::new(alloc, self.name)
            .about(self.about)
            .after_help(self.after_help);
        for argument in self.arguments {
            command = command.arg(argument.build(alloc)?)?;
        }
        Ok(command)
    }
}

/// The program with its commands.
pub fn command<'a>(alloc: Global) -> Result<Command<'a>, AllocError> {
    let mut command = Command::new(alloc, "referee")
        .about("Judges a game of Scrabble from its GCG record")
        .version(SHORT_VERSION)
        .long_version(VERSION)
        .subcommand_required(true);
    for row in COMMANDS {
        command = command.subcommand(row.build(alloc)?)?;
    }
    Ok(command)
}

/// What the command of this name asks for.
pub fn asks_of(name: &str) -> Option<Asks> {
    let row = COMMANDS.iter().find(|row| row.name == name)?;
    Some(row.asks)
}

/// An argument whose value may be any text.
macro_rules! argument {
    ($form:expr, $id:expr, $help:literal) => {
        Argument {
            id: $id,
            help: $help,
            form: $form,
            value: ValueParser::String,
            unless: None,
            against: None,
        }
    };
}

/// An option without a value.
macro_rules! flag {
    ($id:expr, $help:literal, $against:expr) => {
        Argument {
            id: $id,
            help: $help,
            form: Form::Flag,
            value: ValueParser::Bool,
            unless: None,
            against: $against,
        }
    };
}

const WORDS: Argument = argument!(Form::Needed, "WORDS", "the word list; - is standard input");

const LEXICON: Argument = argument!(Form::Needed, "LEXICON", "the lexicon file of the words");

/// The word list of a command that reads something else from standard input.
const WORDS_FILE: Argument = argument!(Form::Needed, "WORDS", "the word list");

/// A lexicon file that need not be the lexicon of a word list.
const LEXICON_FILE: Argument = argument!(Form::Needed, "LEXICON", "the lexicon file");

const GAME: Argument = argument!(Form::Needed, "GAME", "the GCG record; - is standard input");

/// The number of a line of a record, for an argument that is not any text.
const LINE_NUMBER: ValueParser<'static> = ValueParser::Signed(0, 4_294_967_295);

/// The lexicon file that a command writes.
const LEXICON_OUT: Argument = argument!(
    Form::Needed,
    "OUT",
    "the lexicon file to be written; - is standard output"
);

/// The line of a record before which the board is taken.
const BEFORE: Argument = Argument {
    value: LINE_NUMBER,
    ..argument!(
        Form::Option("LINE"),
        "before",
        "the line of the record before which the board is taken, counted from 1"
    )
};

const RULES: Argument = argument!(
    Form::Option("FILE"),
    "rules",
    "the rules text; without it the rules are the English ones"
);

const FIRST_FIELD_OPTION: Argument = flag!(
    FIRST_FIELD,
    "read the first field of each line of WORDS, and ignore lines that begin with #",
    None
);

/// The option of a command that takes a draft in place of a record.
const DRAFT: Argument = flag!(
    "draft",
    "read GAME as a draft, whose event lines may lack the total, or the score and the total",
    None
);

/// The option for an answer that is a JSON object.
const JSON: Argument = flag!("json", "write the answer as a JSON object", None);

const SKIP_OTHERS_OPTION: Argument = flag!(
    SKIP_OTHERS,
    "pass over the lines of WORDS that are not words of 2 to 15 letters",
    None
);

/// What help says after the arguments of a command: an example, and the exit statuses. Every command has the last two of these.
macro_rules! after_help {
    ($example:literal, $heading:literal, $($status:literal),+) => {
        concat!(
            "Example:\n  ",
            $example,
            "\n\n",
            $heading,
            $("\n  ", $status,)+
            "\n  4   a file could not be read or written, or there was no memory",
            "\n  64  the command line is wrong"
        )
    };
}

/// The commands, in the order in which help shows them.
const COMMANDS: [CommandRow; 19] = [
    JUDGE,
    ARCHIVE,
    INDEX,
    AUDIT,
    FILL,
    EXPLAIN,
    REPAIR,
    COMPARE,
    PAGE,
    ANNOTATE,
    BUILD,
    CHECK,
    WORD,
    CONVERT,
    TOP,
    TIDY,
    BOARD,
    SERVE,
    ENGLISH_RULES,
];

/// `judge [--first-field] [--skip-others] [--settle] [--json] [--rules FILE] WORDS LEXICON GAME`.
const JUDGE: CommandRow = CommandRow {
    name: "judge",
    asks: Asks::Game(GameCommand::Judge),
    about: "Judges a game, and prints the best play of each turn",
    after_help: after_help!(
        "referee judge --settle words.txt words.gad game.gcg",
        "Exit status:",
        "0   legal: every event stands, and some deal of the tiles yields every rack",
        "1   illegal: the report names the first line that does not stand, and why",
        "2   unsettled: every event stands, but no deal was found",
        "3   the rules text, the word list, the lexicon or the record is bad"
    ),
    arguments: &[
        WORDS,
        LEXICON,
        GAME,
        flag!(
            "settle",
            "search for a deal, or a proof that there is none, if the game would otherwise be unsettled",
            None
        ),
        JSON,
        FIRST_FIELD_OPTION,
        SKIP_OTHERS_OPTION,
        RULES,
    ],
};

/// `archive [--first-field] [--skip-others] [--rules FILE] [--names FILE] [--null] [--skip LINES] [--json] [--pages FOLDER] [--repairs] [--progress|--quiet] WORDS LEXICON [GAME...]`.
const ARCHIVE: CommandRow = CommandRow {
    name: "archive",
    asks: Asks::Archive,
    about: "Judges many games as judge --settle does, one line for each",
    after_help: after_help!(
        "referee archive --names names.txt words.txt words.gad",
        "Exit status, the greatest that applies to any game:",
        "0   legal",
        "1   illegal",
        "2   unsettled",
        "3   a record is bad or has no event; or the rules text, the word list or the lexicon is bad"
    ),
    arguments: &[
        WORDS,
        LEXICON,
        Argument {
            unless: Some("names"),
            against: Some("names"),
            ..argument!(
                Form::Several,
                "GAME",
                "the GCG records; - is standard input"
            )
        },
        argument!(
            Form::Option("FILE"),
            "names",
            "the names of the records, one a line; - is standard input"
        ),
        Argument {
            form: Form::Letter('0'),
            ..flag!(
                "null",
                "names of FILE end in a NUL and not in an LF",
                Some("GAME")
            )
        },
        argument!(
            Form::Option("LINES"),
            "skip",
            "pass over names that have a line in this file of lines; - is standard input"
        ),
        flag!("json", "write each line as a JSON object", None),
        argument!(
            Form::Option("FOLDER"),
            "pages",
            "write a page of each game, and their index, to this folder"
        ),
        flag!(
            "repairs",
            "end each line with the likely repair of an illegal game, and how many numbers are right with it",
            None
        ),
        flag!(
            "progress",
            "show on standard error how many games are done",
            Some("quiet")
        ),
        flag!("quiet", "do not show how many games are done", None),
        FIRST_FIELD_OPTION,
        SKIP_OTHERS_OPTION,
        RULES,
    ],
};

/// `index LINES OUT`.
const INDEX: CommandRow = CommandRow {
    name: "index",
    asks: Asks::Index,
    about: "Writes the index of the pages of one run of archive, or of many",
    after_help: after_help!(
        "referee index lines.tsv index.html",
        "Exit status:",
        "0   OUT has the index",
        "3   a line is not one that archive prints; then OUT is not touched"
    ),
    arguments: &[
        argument!(
            Form::Needed,
            "LINES",
            "the lines that archive printed, in either form; - is standard input"
        ),
        argument!(
            Form::Needed,
            "OUT",
            "the index to be written, in the folder of the pages"
        ),
    ],
};

/// `audit [--first-field] [--skip-others] [--json] [--rules FILE] [--corrected OUT] WORDS LEXICON GAME`.
const AUDIT: CommandRow = CommandRow {
    name: "audit",
    asks: Asks::Game(GameCommand::Audit),
    about: "Prints every wrong score and sum of a sheet, and can write the corrected record",
    after_help: after_help!(
        "referee audit --corrected right.gcg words.txt words.gad game.gcg",
        "Exit status:",
        "0   no number is wrong, and the game is legal",
        "1   a number is wrong, or the game is illegal",
        "2   the corrected game is unsettled: every event stands, but no deal was found",
        "3   the rules text, the word list, the lexicon or the record is bad"
    ),
    arguments: &[
        WORDS,
        LEXICON,
        GAME,
        argument!(
            Form::Option("OUT"),
            "corrected",
            "write the corrected record to this file, if nothing else is wrong; - is standard output"
        ),
        Argument {
            against: Some("corrected"),
            ..JSON
        },
        FIRST_FIELD_OPTION,
        SKIP_OTHERS_OPTION,
        RULES,
    ],
};

/// `fill [--first-field] [--skip-others] [--json] [--rules FILE] [--next] WORDS LEXICON DRAFT [OUT]`.
const FILL: CommandRow = CommandRow {
    name: "fill",
    asks: Asks::Game(GameCommand::Fill),
    about: "Puts the scores and totals that are missing into a draft of a record, and writes the record",
    after_help: after_help!(
        "referee fill words.txt words.gad draft.gcg game.gcg",
        "Exit status:",
        "0   no number is wrong, and the game is legal",
        "1   a number that is written is wrong, or the game is illegal; with --next, a line is illegal",
        "2   unsettled: every event stands, but no deal was found",
        "3   the rules text, the word list, the lexicon or the draft is bad; then OUT is not touched"
    ),
    arguments: &[
        WORDS,
        LEXICON,
        argument!(
            Form::Needed,
            "DRAFT",
            "a GCG record whose event lines may lack the total, or the score and the total; - is standard input"
        ),
        Argument {
            against: Some("next"),
            ..argument!(
                Form::Last,
                "OUT",
                "the record to be written, if no line is refused; without it, or as -, standard output"
            )
        },
        flag!(
            "next",
            "say what the next line is about: whose turn it is, the totals, the tiles on the racks and in the bag",
            None
        ),
        JSON,
        FIRST_FIELD_OPTION,
        SKIP_OTHERS_OPTION,
        RULES,
    ],
};

/// `explain [--first-field] [--skip-others] [--draft] [--json] [--rules FILE] WORDS LEXICON GAME [LINE]`.
const EXPLAIN: CommandRow = CommandRow {
    name: "explain",
    asks: Asks::Game(GameCommand::Explain),
    about: "Explains the verdict on a game, or one of its lines, in plain words",
    after_help: after_help!(
        "referee explain words.txt words.gad game.gcg",
        "Exit status:",
        "0   legal",
        "1   illegal",
        "2   unsettled: every event stands, but no deal was found",
        "3   the rules text, the word list, the lexicon or the record is bad, or no event is on the line or after it"
    ),
    arguments: &[
        WORDS,
        LEXICON,
        GAME,
        Argument {
            value: LINE_NUMBER,
            ..argument!(
                Form::Last,
                "LINE",
                "the line of the record to be explained, counted from 1; without it the one that the verdict names"
            )
        },
        DRAFT,
        JSON,
        FIRST_FIELD_OPTION,
        SKIP_OTHERS_OPTION,
        RULES,
    ],
};

/// `repair [--first-field] [--skip-others] [--draft] [--json] [--rules FILE] [--number N] [--repaired OUT] WORDS LEXICON GAME`.
const REPAIR: CommandRow = CommandRow {
    name: "repair",
    asks: Asks::Game(GameCommand::Repair),
    about: "Lists the single changes of a faulty record after which it is a game, the likeliest first",
    after_help: after_help!(
        "referee repair words.txt words.gad game.gcg",
        "Exit status:",
        "0   legal: there is nothing to repair",
        "1   illegal, whether a single change repairs it or none does",
        "2   unsettled: every event stands, but no deal was found",
        "3   the rules text, the word list, the lexicon or the record is bad, or it has no event"
    ),
    arguments: &[
        WORDS,
        LEXICON,
        GAME,
        Argument {
            value: ValueParser::Unsigned(1, MOST_REPAIRS as u64),
            ..argument!(
                Form::Option("N"),
                "number",
                "how many repairs are listed, 1 to 100; 10 without it"
            )
        },
        argument!(
            Form::Option("OUT"),
            "repaired",
            "write the sheet with the first repair to this file, if it is ahead of the second by a number; - is standard output"
        ),
        DRAFT,
        Argument {
            against: Some("repaired"),
            ..JSON
        },
        FIRST_FIELD_OPTION,
        SKIP_OTHERS_OPTION,
        RULES,
    ],
};

/// `compare [--first-field] [--skip-others] [--draft] [--json] [--rules FILE] [--merged OUT] WORDS LEXICON SHEET1 SHEET2`.
const COMPARE: CommandRow = CommandRow {
    name: "compare",
    asks: Asks::Game(GameCommand::Compare),
    about: "Compares two players' sheets of one game, and says which lines the rules support where they differ",
    after_help: after_help!(
        "referee compare words.txt words.gad anna.gcg ben.gcg",
        "Exit status:",
        "0   the sheets agree, their numbers are right, and the game is legal",
        "1   they differ, a number is wrong, or the game is illegal",
        "2   unsettled: every event stands with some choice of the lines, but no deal was found",
        "3   the rules text, the word list, the lexicon or a record is bad"
    ),
    arguments: &[
        WORDS,
        LEXICON,
        argument!(
            Form::Needed,
            "SHEET1",
            "the first sheet, a GCG record; - is standard input"
        ),
        argument!(Form::Needed, "SHEET2", "the second sheet"),
        argument!(
            Form::Option("OUT"),
            "merged",
            "write the merged record to this file, if one choice of the lines is ahead of all others; - is standard output"
        ),
        flag!(
            "draft",
            "read SHEET1 and SHEET2 as drafts, whose event lines may lack the total, or the score and the total",
            None
        ),
        Argument {
            against: Some("merged"),
            ..JSON
        },
        FIRST_FIELD_OPTION,
        SKIP_OTHERS_OPTION,
        RULES,
    ],
};

/// `page [--first-field] [--skip-others] [--rules FILE] WORDS LEXICON GAME OUT`.
const PAGE: CommandRow = CommandRow {
    name: "page",
    asks: Asks::Game(GameCommand::Page),
    about: "Writes a game as a web page: its verdict, its board and its sheet",
    after_help: after_help!(
        "referee page words.txt words.gad game.gcg game.html",
        "Exit status:",
        "0   legal",
        "1   illegal",
        "2   unsettled: every event stands, but no deal was found",
        "3   the rules text, the word list, the lexicon or the record is bad; then OUT is not touched"
    ),
    arguments: &[
        WORDS,
        LEXICON,
        GAME,
        argument!(
            Form::Needed,
            "OUT",
            "the page to be written; - is standard output"
        ),
        FIRST_FIELD_OPTION,
        SKIP_OTHERS_OPTION,
        RULES,
    ],
};

/// `annotate [--first-field] [--skip-others] [--rules FILE] [--top N] WORDS LEXICON GAME [OUT]`.
const ANNOTATE: CommandRow = CommandRow {
    name: "annotate",
    asks: Asks::Game(GameCommand::Annotate),
    about: "Writes a record with a note after each turn: the best play, and how many points more it gives",
    after_help: after_help!(
        "referee annotate words.txt words.gad game.gcg annotated.gcg",
        "Exit status:",
        "0   legal",
        "1   illegal: the note after the faulty line says why, and there is none after that",
        "2   unsettled: every event stands, but no deal was found",
        "3   the rules text, the word list, the lexicon or the record is bad; then OUT is not touched"
    ),
    arguments: &[
        WORDS,
        LEXICON,
        GAME,
        argument!(
            Form::Last,
            "OUT",
            "the annotated record to be written; without it, or as -, standard output"
        ),
        Argument {
            value: ValueParser::Unsigned(1, MOST_PLAYS as u64),
            ..argument!(
                Form::Option("N"),
                "top",
                "how many best plays a note has, 1 to 100; 1 without it"
            )
        },
        FIRST_FIELD_OPTION,
        SKIP_OTHERS_OPTION,
        RULES,
    ],
};

/// `build [--first-field] [--skip-others] WORDS OUT`.
const BUILD: CommandRow = CommandRow {
    name: "build",
    asks: Asks::Build,
    about: "Writes the compiled lexicon of a word list",
    after_help: after_help!(
        "referee build words.txt words.gad",
        "Exit status:",
        "0   OUT has the lexicon",
        "3   the word list is bad; the line that says so is in OUT"
    ),
    arguments: &[WORDS, LEXICON_OUT, FIRST_FIELD_OPTION, SKIP_OTHERS_OPTION],
};

/// `check [--first-field] [--skip-others] [--json] WORDS LEXICON`.
const CHECK: CommandRow = CommandRow {
    name: "check",
    asks: Asks::Check,
    about: "Says whether a file is exactly the lexicon of a word list",
    after_help: after_help!(
        "referee check words.txt words.gad",
        "Exit status:",
        "0   it is, and ok is printed with the number of words",
        "3   it is not, or the word list is bad"
    ),
    arguments: &[
        WORDS,
        LEXICON_FILE,
        JSON,
        FIRST_FIELD_OPTION,
        SKIP_OTHERS_OPTION,
    ],
};

/// `word [--each] [--first-field] [--skip-others] WORDS LEXICON WORD...`.
const WORD: CommandRow = CommandRow {
    name: "word",
    asks: Asks::Word,
    about: "Says whether words that are challenged are acceptable: whether all of them are in the list",
    after_help: after_help!(
        "referee word words.txt words.gad able about",
        "Exit status:",
        "0   each word is in the list",
        "1   a word is not in the list",
        "3   a word does not have 2 to 15 letters, or the word list or the lexicon is bad"
    ),
    arguments: &[
        WORDS,
        LEXICON,
        argument!(
            Form::SomeNeeded,
            "WORD",
            "the words, in letters of either case"
        ),
        flag!("each", "print a line for each word", None),
        FIRST_FIELD_OPTION,
        SKIP_OTHERS_OPTION,
    ],
};

/// `convert FORMAT LEXICON OUT`.
const CONVERT: CommandRow = CommandRow {
    name: "convert",
    asks: Asks::Convert,
    about: "Writes a lexicon in the format gad1 or gad2",
    after_help: after_help!(
        "referee convert gad2 words.gad words.gad2",
        "Exit status:",
        "0   OUT has the lexicon",
        "3   the lexicon is bad; the line that says so is in OUT"
    ),
    arguments: &[
        Argument {
            value: ValueParser::Names(&["gad1", "gad2"]),
            ..argument!(Form::Needed, "FORMAT", "the format")
        },
        LEXICON_FILE,
        LEXICON_OUT,
    ],
};

/// `top [--first-field] [--skip-others] [--json] [--rules FILE] [--number N] [--before LINE] WORDS LEXICON GAME [RACK]`.
const TOP: CommandRow = CommandRow {
    name: "top",
    asks: Asks::Game(GameCommand::Top),
    about: "Prints the best plays with RACK after the last event of a record, or before one of its lines",
    after_help: after_help!(
        "referee top --number 3 --before 12 words.txt words.gad game.gcg",
        "Exit status:",
        "0   the plays are printed, or none",
        "1   illegal: the report names the first line that does not stand, and why",
        "3   the rack, the line, the rules text, the word list, the lexicon or the record is bad"
    ),
    arguments: &[
        WORDS,
        LEXICON,
        GAME,
        Argument {
            unless: Some("before"),
            ..argument!(
                Form::Last,
                "RACK",
                "1 to 7 tiles: A to Z, and ? for a blank; without it, the rack of LINE"
            )
        },
        Argument {
            value: ValueParser::Unsigned(1, MOST_PLAYS as u64),
            ..argument!(
                Form::Option("N"),
                "number",
                "how many plays are printed at most, 1 to 100; 10 without it"
            )
        },
        BEFORE,
        JSON,
        FIRST_FIELD_OPTION,
        SKIP_OTHERS_OPTION,
        RULES,
    ],
};

/// `tidy GAME`.
const TIDY: CommandRow = CommandRow {
    name: "tidy",
    asks: Asks::Tidy,
    about: "Prints the players and events of a record in one normal form",
    after_help: after_help!(
        "referee tidy game.gcg",
        "Exit status:",
        "0   the record is printed",
        "3   the record is bad"
    ),
    arguments: &[GAME],
};

/// `board [--draft] [--json] [--rules FILE] [--before LINE] GAME`.
const BOARD: CommandRow = CommandRow {
    name: "board",
    asks: Asks::Board,
    about: "Shows the board after the last event of a record, or before one of its lines",
    after_help: after_help!(
        "referee board --before 12 game.gcg",
        "Exit status:",
        "0   the board is printed",
        "3   the rules text or the record is bad, or no event is on the line or after it"
    ),
    arguments: &[GAME, BEFORE, DRAFT, JSON, RULES],
};

/// `serve [--first-field] [--skip-others] [--rules FILE] WORDS LEXICON`.
const SERVE: CommandRow = CommandRow {
    name: "serve",
    asks: Asks::Serve,
    about: "Answers the requests of a program, one JSON object a line, until standard input ends",
    after_help: after_help!(
        "referee serve words.txt words.gad",
        "Exit status:",
        "0   standard input has ended",
        "3   the rules text, the word list or the lexicon is bad"
    ),
    arguments: &[
        WORDS_FILE,
        LEXICON,
        FIRST_FIELD_OPTION,
        SKIP_OTHERS_OPTION,
        RULES,
    ],
};

/// `rules`.
const ENGLISH_RULES: CommandRow = CommandRow {
    name: "rules",
    asks: Asks::Rules,
    about: "Prints the English rules as a rules text, from which others can be made",
    after_help: after_help!("referee rules", "Exit status:", "0   the text is printed"),
    arguments: &[],
};
