//! The best of the choices.
ghost use Rattle.std.specs.Prelude.{◌≡◌, ◌↔◌, ◌+◌, ◌<◌, ⊤, Some, None, IsTrue, OnOk};
ghost use Rattle.compare_alignments.specs.declared.merging.NumbersOf.TheVariants.{Taken};
ghost use Rattle.compare_choices.specs.Choices.{choice_events, cost_of};
ghost use Rattle.compare_choices.specs.Corrected.{IsCorrected};

use crate::best::Best;
use crate::corrections::{Corrected, Correction, correct};
use crate::costs::cost_of;
use crate::settling::{Outcome, settled};
use crate::sheets::Sheets;
use compare_alignments::{NumbersOf, count_other_racks};
use game_corrections::law_of_corrections;
use gcg_read::{Players, Record};
use lex_list::WordList;
use ref_tiles::Rules;
use std::alloc::{AllocError, Global};

/// The best of the choices.
#[derive(Drop)]
pub struct Find {
    /// One of those that make a game and cost the least; none if no choice is known to make a game.
    pub best: Option<Best>,
    /// The others that make a game and cost as little.
    pub rivals: Vec<usize>,
    /// Those for which it is not known whether they make a game, except some that cost more.
    pub remaining: Vec<usize>,
}

impl Find {
    ghost use Rattle.compare_choices.specs.Finds.{IsGameOf, IsAfter, IsAsGood, IsFoundTo};
    ghost use Rattle.std.specs.Prelude.{List, ℕ};
    ghost use Rattle.ref_tiles.specs.declared.rulebook.Rules.{Rules};

    /// What is found before any choice is tried.
    #[tactic(auto, using(crate::proofs::Found::none_found))]
    pub(crate) fn new(alloc: Global) -> Find
        ensures { (rules : Rules) (list : List (List ℕ)) (s : Sheets) → IsFoundTo rules list s 0 result }
    {
        Find {
            best: None,
            rivals: Vec::new(alloc),
            remaining: Vec::new(alloc),
        }
    }

    /// Whether there is a best that costs less.
    fn is_cheaper(&self, cost: u128) -> bool
        ensures { IsTrue result ↔ IsAfter self.now.best cost }
    {
        match &self.best {
            Some(best) => best.cost < cost,
            None => false,
        }
    }

    /// Whether there is a best that costs as much.
    fn is_as_good(&self, cost: u128) -> bool
        ensures { IsTrue result ↔ IsAsGood self.now.best cost }
    {
        match &self.best {
            Some(best) => best.cost == cost,
            None => false,
        }
    }

    /// Adds the next choice, which makes a game and costs no more than the best.
    fn push_game(
        &mut self,
        alloc: Global,
        rules: &Rules,
        list: &WordList,
        sheets: &Sheets,
        game: Best,
    ) -> Result<(), AllocError>
        requires found { IsFoundTo rules.now list.now sheets.now game.choice self.old }
        requires game { IsGameOf rules.now list.now sheets.now game }
        requires least { IsAfter self.old.best game.cost → ⊥ }
        ensures { OnOk result (IsFoundTo rules.now list.now sheets.now (game.choice + 1) self.new) }
    {
        law_of_corrections();
        if self.is_as_good(game.cost) {
            self.rivals.push(game.choice)?;
            return Ok(());
        }
        self.best = Some(game);
        self.rivals = Vec::new(alloc);
        Ok(())
    }

    /// Tries the next choice, whose events have right numbers.
    fn try_right(
        &mut self,
        alloc: Global,
        rules: &Rules,
        list: &WordList,
        sheets: &Sheets,
        choice: usize,
        corrected: Corrected,
    ) -> Result<(), AllocError>
        requires found { IsFoundTo rules.now list.now sheets.now choice self.old }
        requires right { IsCorrected rules.now list.now (choice_events sheets.now Taken choice) corrected }
        ensures { OnOk result (IsFoundTo rules.now list.now sheets.now (choice + 1) self.new) }
    {
        law_of_corrections();
        let cost = cost_of(alloc, sheets, choice, &corrected)?;
        if self.is_cheaper(cost) {
            return Ok(());
        }
        let unlisted = corrected.unlisted;
        let players = Players::unnamed(alloc);
        let game = Record {
            players,
            events: corrected.right,
        };
        match settled(alloc, rules, list, &game)? {
            Outcome::NoGame => Ok(()),
            Outcome::Unsettled => {
                self.remaining.push(choice)?;
                Ok(())
            }
            Outcome::Game { complete } => {
                let right = game.events;
                let game = Best {
                    choice,
                    right,
                    cost,
                    unlisted,
                    complete,
                };
                self.push_game(alloc, rules, list, sheets, game)
            }
        }
    }

    /// Tries the next choice.
    ///
    /// It fails only if memory runs out.
    pub(crate) fn try_choice(
        &mut self,
        alloc: Global,
        rules: &Rules,
        list: &WordList,
        sheets: &Sheets,
        choice: usize,
    ) -> Result<(), AllocError>
        requires { IsFoundTo rules.now list.now sheets.now choice self.old }
        ensures { OnOk result (IsFoundTo rules.now list.now sheets.now (choice + 1) self.new) }
    {
        let racks = count_other_racks(choice, sheets.pairs.as_slice());
        if self.is_cheaper(racks as u128) {
            return Ok(());
        }
        let written = sheets.events(alloc, NumbersOf::Taken, choice)?;
        match correct(alloc, rules, list, written)? {
            Correction::Stops(_) => Ok(()),
            Correction::Right(corrected) => {
                self.try_right(alloc, rules, list, sheets, choice, corrected)
            }
        }
    }
}
