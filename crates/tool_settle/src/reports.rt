//! What is printed.

use deal_cuts::{Cut, Earlier};
use deal_search::Settling;
use deal_steps::{Held, Step};
use itoa::Buffer;
use ref_tiles::{Counts, KINDS};
use std::alloc::Global;

/// The letters of the kinds, a blank as `?`.
const LETTERS: [&str; KINDS] = [
    "A", "B", "C", "D", "E", "F", "G", "H", "I", "J", "K", "L", "M", "N", "O", "P", "Q", "R", "S",
    "T", "U", "V", "W", "X", "Y", "Z", "?",
];

/// The text that is printed at the end. If memory is refused, it lacks what came then.
#[derive(Drop)]
pub struct Report {
    text: String,
    is_whole: bool,
}

impl Report {
    /// A report without text.
    pub fn new(alloc: Global) -> Report {
        Report {
            text: String::new(alloc),
            is_whole: true,
        }
    }

    /// Its text.
    pub fn text(&self) -> &str {
        self.text.as_str()
    }

    /// Whether no memory was refused.
    pub fn is_whole(&self) -> bool {
        self.is_whole
    }

    /// Appends a line.
    pub fn push_line(&mut self, line: &str) {
        self.push(line);
        self.push("\n");
    }

    /// Appends what was found of some steps.
    pub fn push_settled(&mut self, steps: &[Step], settled: &Settling) {
        match settled {
            Settling::Dealt(deal) => self.push_deal(deal.as_slice()),
            Settling::NoDeal { cut, earlier } => self.push_cut(steps, cut, *earlier),
            Settling::Unknown => self.push_line("unknown"),
        }
    }

    /// Appends a time in nanoseconds.
    pub fn push_time(&mut self, time: u128) {
        let mut buffer = Buffer::new();
        self.push("time ");
        self.push_line(buffer.format(time));
    }

    /// Appends a deal, step by step.
    fn push_deal(&mut self, deal: &[Held]) {
        self.push_line("dealt");
        for held in deal {
            self.push_letters(&held.racks.first);
            self.push(" ");
            self.push_letters(&held.racks.second);
            self.push(" ");
            self.push_letters(&held.thrown);
            self.push("\n");
        }
    }

    /// Appends a cut, step by step, with the line of each, and whether the steps before the last one have a deal.
    fn push_cut(&mut self, steps: &[Step], cut: &Cut, earlier: Earlier) {
        self.push("cut ");
        self.push_letters(&Counts::of(cut.kinds.map(|counted| u8::from(counted))));
        self.push_line(match earlier {
            Earlier::Dealt => " dealt",
            Earlier::Unsettled => " unsettled",
        });
        for (places, step) in cut.places.iter().zip(steps) {
            let mut buffer = Buffer::new();
            self.push(buffer.format(step.line));
            self.push_flag(places.bag);
            self.push_flag(places.first);
            self.push_flag(places.second);
            self.push("\n");
        }
    }

    /// Appends a truth value after a space.
    fn push_flag(&mut self, flag: bool) {
        self.push(if flag { " true" } else { " false" });
    }

    /// Appends the letters of some tiles after a point.
    fn push_letters(&mut self, tiles: &Counts) {
        let numbers = tiles.numbers();
        self.push(".");
        for kind in 0..KINDS {
            self.push_times(LETTERS[kind], numbers[kind]);
        }
    }

    /// Appends a letter `times` times.
    fn push_times(&mut self, letter: &str, times: u8) {
        for _ in 0..times {
            self.push(letter);
        }
    }

    /// Appends text.
    fn push(&mut self, part: &str) {
        if self.text.push_str(part).is_err() {
            self.is_whole = false;
        }
    }
}
