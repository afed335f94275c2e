//! The writer that stores equal nodes once.
ghost use Rattle.std.specs.Prelude.{◌≡◌, ◌+◌, ◌<◌, ◌≤◌, ℕ, [], ◌∷◌, ◌++◌, false, None, length, drop, slice_index, OnOk, IfOk, IfErr};
ghost use Rattle.lex_file.specs.Arcs.{is_last};
ghost use Rattle.lex_file.specs.FileWords.{body_of};
ghost use Rattle.lex_file.specs.declared.formats.Format.TheVariants as form;
ghost use Rattle.lex_file.specs.Formats.{header_bytes};
ghost use Rattle.lex_build.specs.Headers.{header_of};
ghost use Rattle.lex_build.specs.Bodies.{IsWhole, HasAppended, IsArcList, IsKept, IsPlaced, IsUnplaced, run_with, number_in};

use crate::arcs::{Arcs, last_arc_word};
use crate::faults::BuildFault;
use crate::heading::with_header;
use byteorder::{ByteOrder, LittleEndian};
use indexmap::IndexMap;
use lex_file::{Format, HEADER_BYTES, MAX_ARCS};
use std::alloc::{AllocError, Global};

/// A file while it is written.
#[derive(Drop)]
pub struct Writer {
    /// The header, to be filled in at the end, and the words of the nodes written so far.
    pub bytes: Vec<u8>,
    /// The number of each written node, by its arcs.
    pub nodes: IndexMap<Arcs, u32>,
}

impl Writer {
    /// A file without nodes.
    #[tactic(auto, using(crate::proofs::Bytes::none_kept, crate::proofs::Bytes::none_body))]
    pub fn new(alloc: Global) -> Result<Writer, AllocError>
        ensures kept { IfOk result (λ writer. IsKept writer.bytes.items writer.nodes.entries) }
        ensures empty { IfOk result (λ writer. body_of writer.bytes.items ≡ []) }
    {
        let mut bytes = Vec::new(alloc);
        bytes.extend_from_slice(&[0; HEADER_BYTES])?;
        Ok(Writer {
            bytes,
            nodes: IndexMap::new(alloc),
        })
    }

    /// The number of arcs written so far.
    pub fn arc_count(&self) -> usize
        requires { IsWhole self.now.bytes.items }
        ensures { result ≡ length (body_of self.now.bytes.items) }
    {
        (self.bytes.len() - HEADER_BYTES) / 4
    }

    /// The number of the written node with these arcs, if there is one.
    #[tactic(auto, unfolding(crate::specs::Bodies::number_in))]
    fn number_of(&self, arcs: &Arcs) -> Option<u32>
        ensures { result ≡ number_in self.now.nodes.entries arcs.now.items }
    {
        self.nodes.get(arcs).copied()
    }

    /// The number of the node with these arcs, which is written if there is none yet.
    pub fn place_node(&mut self, arcs: Arcs) -> Result<u32, BuildFault>
        requires kept { IsKept self.old.bytes.items self.old.nodes.entries }
        requires arcs { IsArcList (body_of self.old.bytes.items) arcs.items }
        requires some { 0 < length arcs.items }
        ensures kept { OnOk result (IsKept self.new.bytes.items self.new.nodes.entries) }
        ensures placed { IfOk result (λ n. IsPlaced (body_of self.old.bytes.items) (body_of self.new.bytes.items) arcs.items n) }
        ensures fault { IfErr result (λ why. IsUnplaced (body_of self.old.bytes.items) arcs.items why) }
    {
        if let Some(number) = self.number_of(&arcs) {
            return Ok(number);
        }
        self.add_node(arcs)
    }

    /// Writes a node that is not there yet.
    fn add_node(&mut self, arcs: Arcs) -> Result<u32, BuildFault>
        requires kept { IsKept self.old.bytes.items self.old.nodes.entries }
        requires arcs { IsArcList (body_of self.old.bytes.items) arcs.items }
        requires some { 0 < length arcs.items }
        requires new { number_in self.old.nodes.entries arcs.items ≡ None }
        ensures kept { OnOk result (IsKept self.new.bytes.items self.new.nodes.entries) }
        ensures placed { IfOk result (λ n. IsPlaced (body_of self.old.bytes.items) (body_of self.new.bytes.items) arcs.items n) }
        ensures fault { IfErr result (λ why. IsUnplaced (body_of self.old.bytes.items) arcs.items why) }
    {
        let before = self.arc_count();
        if arcs.len() > MAX_ARCS as usize - before {
            return Err(BuildFault::TooManyArcs);
        }
        let Ok(()) = push_arcs(&mut self.bytes, arcs.as_slice()) else {
            return Err(BuildFault::NoMemory);
        };
        let number = before as u32 + 1;
        let Ok(_) = self.nodes.insert(arcs, number) else {
            return Err(BuildFault::NoMemory);
        };
        Ok(number)
    }

    /// The bytes of the file, with a root and a number of words.
    pub fn finish(self, root: u32, words: u32) -> Vec<u8>
        requires { IsKept self.bytes.items self.nodes.entries }
        ensures { result.items ≡ header_of form.Gad1 (length (body_of self.bytes.items)) root words ++ drop header_bytes self.bytes.items }
    {
        let arcs = self.arc_count() as u32;
        let Writer { bytes, .. } = self;
        with_header(bytes, Format::Gad1, arcs, root, words)
    }
}

/// Appends the word of an arc.
#[tactic(auto, using(crate::proofs::Bytes::pushed))]
pub fn push_word(bytes: &mut Vec<u8>, word: u32) -> Result<(), AllocError>
    requires { IsWhole bytes.old.items }
    ensures { OnOk result (HasAppended bytes.old.items bytes.new.items (word ∷ [])) }
{
    let mut four = [0; 4];
    LittleEndian::write_u32(&mut four, word);
    bytes.extend_from_slice(&four)?;
    Ok(())
}

/// Appends words.
#[tactic(auto, using(crate::proofs::Bytes::start_appended, crate::proofs::Bytes::more_appended, crate::proofs::Bytes::all_appended))]
fn push_words(bytes: &mut Vec<u8>, words: &[u32]) -> Result<(), AllocError>
    requires { IsWhole bytes.old.items }
    ensures { OnOk result (HasAppended bytes.old.items bytes.new.items words.now) }
{
    for word in words {
        push_word(bytes, *word)?;
    }
    Ok(())
}

/// Appends the words of the arcs of a node, the last with the bit that says so.
#[tactic(auto, using(crate::proofs::Bytes::none_appended, crate::proofs::Bytes::last_of))]
fn push_arcs(bytes: &mut Vec<u8>, arcs: &[u32]) -> Result<(), AllocError>
    requires whole { IsWhole bytes.old.items }
    requires unmarked { (place : ℕ) → place < length arcs.now → is_last (slice_index arcs.now place) ≡ false }
    ensures { OnOk result (HasAppended bytes.old.items bytes.new.items (run_with arcs.now)) }
{
    let Some((last, inner)) = arcs.split_last() else {
        return Ok(());
    };
    push_words(bytes, inner)?;
    push_word(bytes, last_arc_word(*last))?;
    Ok(())
}
