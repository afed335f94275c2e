//! What the program does: it parses the command line as a request, carries it out, and says what kept it from finishing.

use clap::Error;
use clap::error::ErrorKind;
use cli_archive::{archive, index};
use cli_args::{
    Asked, GameFiles, GameRequest, PROGRAM_NAME, PairFiles, Request, mistake, parse_arguments,
};
use cli_files::{STANDARD_OUTPUT, Trouble, input_under_pages, lost_input, write};
use cli_replies::{answer_game, board_in_json, board_of_draft, check_in_json, rule_on_words};
use cli_reports::{board, build, check, convert, judge, tidy, top};
use cli_serve::serve;
use engine_stages::Verdict;
use game_exits::Exit;
use io_watch::Reason;
use ref_tiles::ENGLISH_TEXT;
use reply_requests::Task;
use std::alloc::AllocError;
use std::rt::Runtime;
use std::{env, io};

/// Runs the program on the arguments of its command line. If something keeps it from finishing, standard error says what; `watched`
/// says whether somebody sees standard error.
pub fn run_program<R: Runtime + AllocGlobal>(rt: &R, watched: bool) -> Exit {
    let arguments = match arguments_of(rt) {
        Ok(arguments) => arguments,
        Err(error) => return refuse(rt, &error),
    };
    match parse_arguments(rt.alloc(), arguments.as_slice()) {
        Ok(request) => answer(rt, request, watched),
        Err(error) => refuse(rt, &error),
    }
}

/// The arguments of the command line, the program's name first.
fn arguments_of<R: Runtime + AllocGlobal>(rt: &R) -> Result<Vec<String>, Error> {
    match env::args(rt) {
        Ok(args) => Ok(args.collect(rt.alloc())?),
        Err(error) if error.kind() == io::ErrorKind::OutOfMemory => Err(Error::from(AllocError)),
        Err(_) => Err(mistake(rt.alloc(), "an argument is not UTF-8 text")),
    }
}

/// Answers a command line without a request. Help and the version go to standard output, a mistake to standard error.
fn refuse<R: Runtime>(rt: &R, error: &Error) -> Exit {
    if error.kind() == ErrorKind::OutOfMemory {
        return give_up(rt, Trouble::NoMemory);
    }
    if error.use_stderr() {
        let _ = rt.eprint(error);
        return Exit::Usage;
    }
    match rt.print(error) {
        Ok(()) => Exit::Fine,
        Err(error) => give_up(
            rt,
            Trouble::WriteFailed(STANDARD_OUTPUT, Reason::of(&error)),
        ),
    }
}

/// Says what kept the program from finishing.
fn give_up<R: Runtime>(rt: &R, trouble: Trouble<'_>) -> Exit {
    let _ = rt.eprintln(format_args!("{PROGRAM_NAME}: {trouble}"));
    Exit::Broken
}

/// Carries out the request, unless an output that it names is one of its inputs, which would be lost.
fn answer<R: Runtime + AllocGlobal>(rt: &R, request: Request<'_>, watched: bool) -> Exit {
    if let Some(input) = lost_input(rt, &request) {
        return refuse_loss(rt, "OUT", input);
    }
    match lost_to_pages(rt, &request) {
        Ok(None) => {}
        Ok(Some(input)) => return refuse_loss(rt, "a page in FOLDER", input),
        Err(_) => return give_up(rt, Trouble::NoMemory),
    }
    match carry_out(rt, request, watched) {
        Ok(exit) => exit,
        Err(trouble) => give_up(rt, trouble),
    }
}

/// What help calls the first input that a page of an archive would be written over, if there is one.
fn lost_to_pages<R: Runtime + AllocGlobal>(
    rt: &R,
    request: &Request<'_>,
) -> Result<Option<&'static str>, AllocError> {
    match request {
        Request::Archive(run) => input_under_pages(rt, run),
        _ => Ok(None),
    }
}

/// Says that an output is the same file as an input.
fn refuse_loss<R: Runtime + AllocGlobal>(rt: &R, out: &str, input: &str) -> Exit {
    match format!(in rt.alloc(); "{out} is the same file as {input}, which would be lost") {
        Ok(text) => refuse(rt, &mistake(rt.alloc(), text.as_str())),
        Err(_) => give_up(rt, Trouble::NoMemory),
    }
}

/// Carries out a request.
fn carry_out<'a, R: Runtime + AllocGlobal>(
    rt: &R,
    request: Request<'a>,
    watched: bool,
) -> Result<Exit, Trouble<'a>> {
    match request {
        Request::Game {
            files,
            request,
            json,
        } => answer_about_game(rt, files, request, json),
        Request::Archive(games) => archive(rt, &games, watched),
        Request::Index { lines, out } => index(rt, lines, out),
        Request::Build { words, out } => ended(build(rt, words, out)),
        Request::Check { pair, json } => check_pair(rt, pair, json),
        Request::Convert {
            format,
            lexicon,
            out,
        } => ended(convert(rt, format, lexicon, out)),
        Request::Tidy { game } => ended(tidy(rt, game)),
        Request::Board {
            rules,
            before,
            game,
            draft,
            json,
        } => show_board(rt, rules, before, game, draft, json),
        Request::Serve { rules, pair } => serve(rt, rules, pair),
        Request::Word { pair, each, words } => rule_on_words(rt, pair, words, each),
        Request::Rules => print_rules(rt),
    }
}

/// Carries out a request about the game of a record: answers in text, or with a JSON object. Without an object, `judge` and `top` are calls of their own.
fn answer_about_game<'a, R: Runtime + AllocGlobal>(
    rt: &R,
    files: GameFiles<'a>,
    request: GameRequest<'a>,
    json: bool,
) -> Result<Exit, Trouble<'a>> {
    match request.asked {
        Asked::OfOne(Task::Judge { settle, .. }) if !json => ended(judge(rt, settle, files)),
        Asked::OfOne(Task::Top { line, rack, number }) if !json => {
            ended(top(rt, files, line, rack, number))
        }
        _ => answer_game(rt, files, request, json),
    }
}

/// Checks a lexicon by its word list: answers in text, or with a JSON object.
fn check_pair<'a, R: Runtime + AllocGlobal>(
    rt: &R,
    pair: PairFiles<'a>,
    json: bool,
) -> Result<Exit, Trouble<'a>> {
    if json {
        check_in_json(rt, pair)
    } else {
        ended(check(rt, pair))
    }
}

/// Shows the board of a record or of a draft, before a line if one is named: in text, or as a JSON object. That of a record in text is a call of its own.
fn show_board<'a, R: Runtime + AllocGlobal>(
    rt: &R,
    rules: Option<&'a str>,
    before: Option<u32>,
    game: &'a str,
    draft: bool,
    json: bool,
) -> Result<Exit, Trouble<'a>> {
    if json {
        board_in_json(rt, rules, before, game, draft)
    } else if draft {
        board_of_draft(rt, rules, before, game)
    } else {
        ended(board(rt, rules, before, game))
    }
}

/// Writes the English rules text to standard output.
fn print_rules<'a, R: Runtime + AllocGlobal>(rt: &R) -> Result<Exit, Trouble<'a>> {
    write(rt, ENGLISH_TEXT)?;
    Ok(Exit::Fine)
}

/// How the program ends after a verdict.
fn ended<'a>(verdict: Result<Verdict, Trouble<'a>>) -> Result<Exit, Trouble<'a>> {
    match verdict {
        Ok(verdict) => Ok(Exit::from(verdict)),
        Err(trouble) => Err(trouble),
    }
}
