//! What repairs a record.
ghost use Rattle.std.specs.Prelude.{◌≡◌, OnOk};
ghost use Rattle.repair_changes.specs.Applied.{applied};
ghost use Rattle.repair_single.specs.Trying.{IsWritable};

use crate::candidate::Candidate;
use crate::comparing::is_among;
use crate::correcting::corrected;
use crate::listed::Listed;
use crate::outcome::Outcome;
use crate::remaining::what_remains;
use crate::repair::Repair;
use crate::settling::settled;
use crate::weighers::Weigher;
use gcg_read::{Event, Events, Players, Record};
use lex_list::WordList;
use ref_tiles::Rules;
use std::alloc::{AllocError, Global};

/// What repairs a record.
#[derive(Drop)]
pub struct Found {
    /// The first repairs, the likeliest first.
    pub reported: Vec<Repair>,
    /// The changes for which it is not known whether they are repairs, since neither a deal nor a proof that there is none was
    /// found.
    pub remaining: Vec<Listed>,
    /// The first place whose changes were tried, counted from 0. Where the changes of a record take more steps than they may, those at the first places
    /// are not tried.
    pub from: usize,
}

impl Found {
    ghost use Rattle.repair_single.specs.Reporting.{IsTried, IsTriedWith};
    ghost use Rattle.repair_single.specs.Weighers.{wrong_by};

    /// Adds a change with which the record has these right events, if no repair makes the same record and some deal yields every rack.
    fn push_right(
        &mut self,
        alloc: Global,
        rules: &Rules,
        list: &WordList,
        weigher: &Weigher,
        events: &[Event],
        listed: Listed,
        right: Events,
    ) -> Result<(), AllocError>
        requires { IsWritable rules.now list.now (applied listed.change events.now) right }
        ensures tried { OnOk result (IsTriedWith (wrong_by weigher.now) rules.now list.now events.now listed right self.old self.new) }
        ensures from { OnOk result (self.new.from ≡ self.old.from) }
    {
        if is_among(self.reported.as_slice(), right.as_slice()) {
            return Ok(());
        }
        let players = Players::unnamed(alloc);
        let game = Record {
            players,
            events: right,
        };
        match settled(alloc, rules, list, &game)? {
            Outcome::Game => {
                let right = &game.events;
                let remains = what_remains(
                    alloc,
                    rules,
                    list,
                    weigher,
                    &listed.change,
                    events,
                    right,
                )?;
                self.reported.push(Repair {
                    listed,
                    right: game.events,
                    remains,
                })?;
                Ok(())
            }
            Outcome::NoGame => Ok(()),
            Outcome::Unsettled => {
                self.remaining.push(listed)?;
                Ok(())
            }
        }
    }

    /// Adds a candidate, if it is a repair that makes a different record from those before.
    pub(crate) fn push_candidate(
        &mut self,
        alloc: Global,
        rules: &Rules,
        list: &WordList,
        weigher: &Weigher,
        events: &[Event],
        candidate: Candidate,
    ) -> Result<(), AllocError>
        ensures tried { OnOk result (IsTried (wrong_by weigher.now) rules.now list.now events.now candidate self.old self.new) }
        ensures from { OnOk result (self.new.from ≡ self.old.from) }
    {
        match corrected(alloc, rules, list, &candidate.listed.change, events)? {
            Some(right) => self.push_right(
                alloc,
                rules,
                list,
                weigher,
                events,
                candidate.listed,
                right,
            ),
            None => Ok(()),
        }
    }
}
