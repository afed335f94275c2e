//! A record that passed, with its rules and its list.
ghost use Rattle.std.specs.Prelude.{◌≡◌};
ghost use Rattle.game_turns.specs.Places.{AreAllowed, is_finished};

use gcg_read::Record;
use lex_list::WordList;
use ref_tiles::Rules;

/// A record all of whose events the rules allow, with the rules and the word list by which they do.
#[derive(Drop)]
pub struct Passed<'a> {
    pub(crate) rules: &'a Rules,
    pub(crate) record: &'a Record,
    pub(crate) list: &'a WordList,
    pub(crate) complete: bool,
    ghost allowed: { AreAllowed rules.now list.now record.now.events },
    ghost finished: { complete ≡ is_finished rules.now record.now.events },
}

impl<'a> Passed<'a> {
    ghost use Rattle.game_turns.specs.Passing.{rules_in, record_in, list_in};

    /// A record whose events were already judged, one by one: the rules allow each.
    pub fn of_allowed(
        rules: &'a Rules,
        game: &'a Record,
        list: &'a WordList,
        complete: bool,
    ) -> Passed<'a>
        requires allowed { AreAllowed rules.now list.now game.now.events }
        requires finished { complete ≡ is_finished rules.now game.now.events }
        ensures rules { rules_in result ≡ rules.now }
        ensures game { record_in result ≡ game.now }
        ensures list { list_in result ≡ list.now }
    {
        Passed {
            rules,
            record: game,
            list,
            complete,
        }
    }

    /// The rules.
    pub fn rules(&self) -> &'a Rules
        ensures { result.now ≡ rules_in self.now }
    {
        self.rules
    }

    /// The record. Every event of it is allowed.
    pub fn record(&self) -> &'a Record
        ensures record { result.now ≡ record_in self.now }
        ensures allowed { AreAllowed (rules_in self.now) (list_in self.now) (record_in self.now).events }
    {
        self.record
    }

    /// The word list.
    pub fn list(&self) -> &'a WordList
        ensures { result.now ≡ list_in self.now }
    {
        self.list
    }

    /// Whether the game is complete: the last racks are in.
    pub fn complete(&self) -> bool
        ensures { result ≡ is_finished (rules_in self.now) (record_in self.now).events }
    {
        self.complete
    }
}
