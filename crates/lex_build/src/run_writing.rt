//! The words of a node in a GAD1 file: a word for each arc, the last with the bit that says so.
ghost use Rattle.std.specs.Prelude.{◌≡◌, ◌+◌, ◌≤◌, length, OnOk};
ghost use Rattle.lex_file.specs.declared.formats.Format.TheVariants as form;
ghost use Rattle.lex_file.specs.FileWords.{body_of};
ghost use Rattle.lex_file.specs.Formats.{greatest_label, most_arcs};
ghost use Rattle.lex_build.specs.Bodies.{IsWhole, IsBody, HasAppended};
ghost use Rattle.lex_build.specs.NodeWords.{HaveLabels, HaveTargets, word_of, words_of};
ghost use Rattle.lex_build.specs.Stores.{AreNextArcs, HasStored};

use crate::arcs::{arc_word, last_arc_word};
use crate::writing::push_word;
use lex_file::Arc;
use std::alloc::AllocError;

/// The word of an arc, without the bit of a last arc.
#[tactic(auto, using(crate::proofs::ArcStoring::word_is))]
fn open_word(arc: &Arc) -> u32
    requires label { arc.now.label ≤ greatest_label }
    requires target { arc.now.target ≤ most_arcs }
    ensures { result ≡ word_of arc.now }
{
    arc_word(arc.label, arc.accepts, arc.target)
}

/// Appends the words of arcs, none with the bit of a last arc.
#[tactic(auto, using(crate::proofs::ArcStoring::label_fits, crate::proofs::ArcStoring::target_fits))]
fn push_open_words(bytes: &mut Vec<u8>, arcs: &[Arc]) -> Result<(), AllocError>
    requires whole { IsWhole bytes.old.items }
    requires labels { HaveLabels arcs.now }
    requires targets { HaveTargets arcs.now }
    ensures { OnOk result (HasAppended bytes.old.items bytes.new.items (words_of arcs.now)) }
{
    for arc in arcs {
        push_word(bytes, open_word(arc))?;
    }
    Ok(())
}

/// Appends the words of a node.
pub fn store_run(bytes: &mut Vec<u8>, arcs: &[Arc]) -> Result<(), AllocError>
    requires whole { IsWhole bytes.old.items }
    requires sound { IsBody (body_of bytes.old.items) }
    requires arcs { AreNextArcs form.Gad1 (body_of bytes.old.items) arcs.now }
    requires room { length (body_of bytes.old.items) + length arcs.now ≤ most_arcs }
    ensures { OnOk result (HasStored form.Gad1 bytes.old.items bytes.new.items arcs.now) }
{
    let Some((last, inner)) = arcs.split_last() else {
        return Ok(());
    };
    push_open_words(bytes, inner)?;
    push_word(bytes, last_arc_word(open_word(last)))?;
    Ok(())
}
