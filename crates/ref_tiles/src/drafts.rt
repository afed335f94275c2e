//! What a rules text has stated so far.
ghost use Rattle.std.specs.Prelude.{◌≡◌, ◌<◌, None, Some, is_some, slice_set, replicate};
ghost use Rattle.std.specs.List.{list_all};
ghost use Rattle.ref_tiles.specs.RulesTexts.{entry_at};

use crate::statements::{Entry, ITEMS};
use std::marker::Model;

/// What the lines of a rules text so far state of each item. Contracts see the list of entries.
#[derive(Clone, Copy)]
pub struct Draft {
    entries: [Option<Entry>; ITEMS],
}

impl Model for Draft {
    ghost use Rattle.std.specs.Prelude.{◌≡◌, List, Option, length};
    ghost use Rattle.ref_tiles.specs.declared.statements.Entry.{Entry};

    ghost Value = { List (Option Entry) };

    ghost view = { λ d. d.entries };

    ghost invariant = { λ d. length d.entries ≡ 47 };

    ghost inverse = { λ entries. record { entries = entries } };
}

impl Draft {
    ghost use Rattle.ref_tiles.specs.declared.statements.Entry.{Entry};

    /// A draft with no entry.
    pub fn empty() -> Draft
        ensures { result ≡ replicate 47 None }
    {
        Draft {
            entries: [None; ITEMS],
        }
    }

    /// What is stated of an item.
    pub fn at(&self, item: usize) -> Option<Entry>
        requires { item < 47 }
        ensures { result ≡ entry_at self.now item }
    {
        self.entries[item]
    }

    /// Records what is stated of an item.
    pub fn put(&mut self, item: usize, entry: Entry)
        requires { item < 47 }
        ensures { self.new ≡ slice_set self.old item (Some entry) }
    {
        self.entries[item] = Some(entry);
    }

    /// Whether something is stated of each item.
    pub fn is_whole(&self) -> bool
        ensures { result ≡ list_all is_some self.now }
    {
        self.entries.iter().all(Option::is_some)
    }
}
