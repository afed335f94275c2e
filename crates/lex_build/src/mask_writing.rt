//! The words of a node in a GAD2 file: a label word, an accept word and a target for each label.
ghost use Rattle.std.specs.Prelude.{◌≡◌, ◌+◌, ◌≤◌, length, OnOk};
ghost use Rattle.lex_file.specs.declared.formats.Format.TheVariants as form;
ghost use Rattle.lex_file.specs.FileWords.{body_of};
ghost use Rattle.lex_file.specs.Formats.{most_body_words};
ghost use Rattle.lex_build.specs.Bodies.{IsWhole, HasAppended};
ghost use Rattle.lex_build.specs.NodeWords.{HaveLabels, IsLabelWord, IsAcceptWord, targets_of};
ghost use Rattle.lex_build.specs.Stores.{IsMaskBody, AreNextArcs, HasStored};

use crate::writing::push_word;
use lex_file::Arc;
use std::alloc::AllocError;

/// The bit of a label word.
const MARK: u32 = 1 << 31;

/// The label word of a node.
#[tactic(auto, using(crate::proofs::MaskBits::no_label, crate::proofs::MaskBits::label_more, crate::proofs::MaskBits::label_low))]
fn label_word(arcs: &[Arc]) -> u32
    requires { HaveLabels arcs.now }
    ensures { IsLabelWord arcs.now result }
{
    let mut word = MARK;
    for arc in arcs {
        word |= 1 << arc.label;
    }
    word
}

/// The accept word of a node.
#[tactic(auto, using(crate::proofs::MaskBits::no_accept, crate::proofs::MaskBits::accept_more, crate::proofs::MaskBits::accept_passed, crate::proofs::MaskBits::label_low))]
fn accept_word(arcs: &[Arc]) -> u32
    requires { HaveLabels arcs.now }
    ensures { IsAcceptWord arcs.now result }
{
    let mut word = 0;
    for arc in arcs {
        if arc.accepts {
            word |= 1 << arc.label;
        }
    }
    word
}

/// Appends the targets of arcs.
fn push_targets(bytes: &mut Vec<u8>, arcs: &[Arc]) -> Result<(), AllocError>
    requires { IsWhole bytes.old.items }
    ensures { OnOk result (HasAppended bytes.old.items bytes.new.items (targets_of arcs.now)) }
{
    for arc in arcs {
        push_word(bytes, arc.target)?;
    }
    Ok(())
}

/// Appends the words of a node.
pub fn store_mask(bytes: &mut Vec<u8>, arcs: &[Arc]) -> Result<(), AllocError>
    requires whole { IsWhole bytes.old.items }
    requires sound { IsMaskBody (body_of bytes.old.items) }
    requires arcs { AreNextArcs form.Gad2 (body_of bytes.old.items) arcs.now }
    requires room { length (body_of bytes.old.items) + (2 + length arcs.now) ≤ most_body_words }
    ensures { OnOk result (HasStored form.Gad2 bytes.old.items bytes.new.items arcs.now) }
{
    push_word(bytes, label_word(arcs))?;
    push_word(bytes, accept_word(arcs))?;
    push_targets(bytes, arcs)?;
    Ok(())
}
