//! What a page shows of a record, as its parts are written from it.

use crate::lines::Line;
use game_case::Finding;
use gcg_about::Encoding;
use gcg_read::{Event, Player, Record, Seat};
use page_answers::{Maker, PageContents, PageSheet, PagedCase};
use ref_tiles::Rules;

/// What a page shows of a record.
#[derive(Clone, Copy)]
pub struct Shown<'a> {
    /// The rules, for the premiums of the squares and the points of the tiles.
    pub rules: &'a Rules,
    /// The record.
    pub game: &'a Record,
    /// What is found of it.
    pub finding: Finding,
    /// What is shown of it.
    pub contents: &'a PageContents,
    /// What the page is made by.
    pub maker: &'a Maker,
    /// How many folders above the page its index is, if it has one.
    pub up: Option<usize>,
}

impl<'a> Shown<'a> {
    /// What the page of a case shows, with its index so many folders above it, if it has one; none if the text of the case is not a record.
    pub fn of(paged: &'a PagedCase, up: Option<usize>) -> Option<Shown<'a>> {
        let Ok(entry) = &paged.case.read else {
            return None;
        };
        let Some(contents) = &paged.contents else {
            return None;
        };
        Some(Shown {
            rules: &paged.rules,
            game: &entry.record,
            finding: entry.finding,
            contents,
            maker: &paged.maker,
            up,
        })
    }

    /// How names are read.
    pub fn encoding(&self) -> Encoding {
        self.contents.encoding
    }

    /// The score sheet.
    pub fn sheet(&self) -> &'a PageSheet {
        &self.contents.sheet
    }

    /// The player of a seat.
    pub fn player(&self, seat: Seat) -> &'a Player {
        match seat {
            Seat::First => &self.game.players.first,
            Seat::Second => &self.game.players.second,
        }
    }

    /// The event at a place, if there is one.
    pub fn event_at(&self, place: usize) -> Option<&'a Event> {
        self.game.events.as_slice().get(place)
    }

    /// The line of the event at a place, if there is one.
    pub fn line_at(&self, place: usize) -> Option<Line<'a>> {
        let event = self.event_at(place)?;
        let sheet = self.sheet();
        let row = sheet.rows.as_slice().get(place)?;
        Some(Line {
            encoding: self.encoding(),
            player: self.player(event.player),
            event,
            row,
            picture: sheet.boards.as_slice().get(place),
            position: sheet.positions.as_slice().get(place),
            is_faulty: self.contents.faulty == Some(place),
        })
    }
}

/// The line of the fault, if there is one.
pub fn faulty_line(finding: &Finding) -> Option<u32> {
    match finding {
        Finding::Illegal { line, .. } => Some(*line),
        Finding::NoGame | Finding::Legal { .. } | Finding::Unsettled => None,
    }
}
