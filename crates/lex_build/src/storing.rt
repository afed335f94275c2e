//! A node as the words of a file, in either format.
ghost use Rattle.std.specs.Prelude.{◌≡◌, ◌+◌, ◌≤◌, length, OnOk};
ghost use Rattle.lex_file.specs.FileWords.{body_of};
ghost use Rattle.lex_build.specs.Bodies.{IsWhole};
ghost use Rattle.lex_build.specs.Stores.{limit_of, words_for, IsSoundBody, AreNextArcs, HasStored};

use crate::mask_writing::store_mask;
use crate::run_writing::store_run;
use lex_file::{Arc, Format};
use std::alloc::AllocError;

/// Appends a node in a format, after all that are already stored.
pub fn store_node(bytes: &mut Vec<u8>, format: Format, arcs: &[Arc]) -> Result<(), AllocError>
    requires whole { IsWhole bytes.old.items }
    requires sound { IsSoundBody format (body_of bytes.old.items) }
    requires arcs { AreNextArcs format (body_of bytes.old.items) arcs.now }
    requires room { length (body_of bytes.old.items) + words_for format (length arcs.now) ≤ limit_of format }
    ensures { OnOk result (HasStored format bytes.old.items bytes.new.items arcs.now) }
{
    match format {
        Format::Gad1 => store_run(bytes, arcs),
        Format::Gad2 => store_mask(bytes, arcs),
    }
}
