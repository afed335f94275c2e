//! Converting a file into the other format, node by node.
ghost use Rattle.std.specs.Prelude.{◌≡◌, ◌<◌, ◌≤◌, [], ◌∷◌, length, map, slice_index, MatchResult, OnOk, IfOk, IfErr};
ghost use Rattle.lex_file.specs.FileWords.{body_of};
ghost use Rattle.lex_file.specs.Files.{bytes_of, number_of};
ghost use Rattle.lex_file.specs.Shapes.{file_node};
ghost use Rattle.lex_build.specs.Bodies.{IsWhole};
ghost use Rattle.lex_build.specs.Stores.{limit_of, words_for};
ghost use Rattle.lex_build.specs.Converts.{renamed, IsConverted, IsUnconverted};
ghost use Rattle.lex_build.specs.Conversions.{IsConvertedTo, IsConvertedBefore, IsConvertedWhole, IsNumbered};

use crate::faults::BuildFault;
use crate::heading::with_header;
use crate::storing::store_node;
use arrayvec::ArrayVec;
use lex_file::{
    Arc, Format, HEADER_BYTES, LABELS, LexFile, MAX_ARCS, MAX_BODY_WORDS, Node, PathLex,
};
use std::alloc::{AllocError, Global};

/// The maximum number of arcs of a node: one for each label.
const NODE_ARCS: usize = LABELS as usize;

/// Converts a compiled lexicon into a format: every stored node in the order of the file, even one that no walk reaches, with the
/// number of words that the file states.
///
/// It takes time linear in the number of words of the file, and memory for the result plus four bytes for each of them.
///
/// # Errors
///
/// `TooManyArcs` comes exactly when the result would have more arcs, or words, than its format can number, `NoMemory`
/// if memory ran out.
pub fn convert(alloc: Global, file: &LexFile<'_>, format: Format) -> Result<Vec<u8>, BuildFault>
    ensures { MatchResult result (λ bytes. IsConverted format (bytes_of file.now) bytes.items) (λ why. IsUnconverted format (bytes_of file.now) why) }
{
    let mut conversion = match Conversion::new(alloc, format) {
        Ok(conversion) => conversion,
        Err(_) => return Err(BuildFault::NoMemory),
    };
    match conversion.add_nodes(file) {
        Ok(()) => Ok(conversion.finish(file)),
        Err(why) => Err(why),
    }
}

/// A file whose stored nodes are converted, one after another.
#[derive(Drop)]
struct Conversion {
    /// The format of the result.
    format: Format,
    /// The header, to be filled in at the end, and the words of the nodes written so far.
    bytes: Vec<u8>,
    /// The new number of each node, at the number by which the file names it; 0 if there is none.
    numbers: Vec<u32>,
}

impl Conversion {
    /// A conversion into a format, before the first node.
    #[tactic(auto, using(crate::proofs::Bytes::none_body))]
    fn new(alloc: Global, format: Format) -> Result<Conversion, AllocError>
        ensures format { IfOk result (λ conversion. conversion.format ≡ format) }
        ensures whole { IfOk result (λ conversion. IsWhole conversion.bytes.items) }
        ensures empty { IfOk result (λ conversion. body_of conversion.bytes.items ≡ []) }
        ensures numbers { IfOk result (λ conversion. conversion.numbers.items ≡ 0 ∷ []) }
    {
        let mut bytes = Vec::new(alloc);
        bytes.extend_from_slice(&[0; HEADER_BYTES])?;
        let mut numbers = Vec::new(alloc);
        numbers.extend_from_slice(&[0])?;
        Ok(Conversion {
            format,
            bytes,
            numbers,
        })
    }

    /// Converts all stored nodes of a file, in its order.
    fn add_nodes(&mut self, file: &LexFile<'_>) -> Result<(), BuildFault>
        requires whole { IsWhole self.old.bytes.items }
        requires start { IsConvertedTo self.old.format (bytes_of file.now) (body_of self.old.bytes.items) self.old.numbers.items 0 }
        ensures format { self.new.format ≡ self.old.format }
        ensures whole { OnOk result (IsWhole self.new.bytes.items) }
        ensures converted { OnOk result (IsConvertedWhole self.new.format (bytes_of file.now) (body_of self.new.bytes.items) self.new.numbers.items) }
        ensures fault { IfErr result (λ why. IsUnconverted self.old.format (bytes_of file.now) why) }
    {
        let mut next = file.first();
        while let Some(node) = next {
            match self.add_node(file, node) {
                Ok(()) => {}
                Err(why) => return Err(why),
            }
            next = file.after(node);
        }
        Ok(())
    }

    /// Converts the next stored node.
    fn add_node(&mut self, file: &LexFile<'_>, node: Node) -> Result<(), BuildFault>
        requires whole { IsWhole self.old.bytes.items }
        requires next { IsConvertedBefore self.old.format (bytes_of file.now) (body_of self.old.bytes.items) self.old.numbers.items (number_of node) }
        ensures format { self.new.format ≡ self.old.format }
        ensures whole { OnOk result (IsWhole self.new.bytes.items) }
        ensures converted { OnOk result (IsConvertedTo self.new.format (bytes_of file.now) (body_of self.new.bytes.items) self.new.numbers.items (number_of node)) }
        ensures fault { IfErr result (λ why. IsUnconverted self.old.format (bytes_of file.now) why) }
    {
        let arcs = self.new_arcs(file, node);
        let before = self.word_count();
        if words_for(self.format, arcs.len()) > most_words(self.format) - before {
            return Err(BuildFault::TooManyArcs);
        }
        let Ok(()) = store_node(&mut self.bytes, self.format, arcs.as_slice()) else {
            return Err(BuildFault::NoMemory);
        };
        let place = file.place(node) as usize;
        let Ok(()) = put_number(&mut self.numbers, place, before as u32 + 1) else {
            return Err(BuildFault::NoMemory);
        };
        Ok(())
    }

    /// The arcs of the next stored node, with the new numbers of their targets.
    #[tactic(auto, using(crate::proofs::NewArcs::renamed_none, crate::proofs::NewArcs::renamed_all))]
    fn new_arcs(&self, file: &LexFile<'_>, node: Node) -> ArrayVec<Arc, NODE_ARCS>
        requires { IsConvertedBefore self.now.format (bytes_of file.now) (body_of self.now.bytes.items) self.now.numbers.items (number_of node) }
        ensures { result.items ≡ map (renamed (slice_index self.now.numbers.items)) (file_node (bytes_of file.now) (number_of node)) }
    {
        let mut arcs = ArrayVec::new();
        let mut from = 0;
        while let Some(arc) = file.arc_from(node, from) {
            arcs.push(self.renumbered(arc));
            from = arc.label + 1;
        }
        arcs
    }

    /// An arc with the new number of its target.
    fn renumbered(&self, arc: Arc) -> Arc
        requires { arc.target < length self.now.numbers.items }
        ensures { result ≡ renamed (slice_index self.now.numbers.items) arc }
    {
        Arc {
            target: self.numbers[arc.target as usize],
            ..arc
        }
    }

    /// The number of words written so far.
    fn word_count(&self) -> usize
        requires { IsWhole self.now.bytes.items }
        ensures { result ≡ length (body_of self.now.bytes.items) }
    {
        (self.bytes.len() - HEADER_BYTES) / 4
    }

    /// The bytes of the new file, once all nodes of the old one are written.
    fn finish(self, file: &LexFile<'_>) -> Vec<u8>
        requires whole { IsWhole self.bytes.items }
        requires converted { IsConvertedWhole self.format (bytes_of file.now) (body_of self.bytes.items) self.numbers.items }
        ensures { IsConverted self.format (bytes_of file.now) result.items }
    {
        let count = self.word_count() as u32;
        let root = self.numbers[file.place(file.root()) as usize];
        let Conversion { format, bytes, .. } = self;
        with_header(bytes, format, count, root, file.word_count())
    }
}

/// The maximum number of words after the header of a file of a format.
fn most_words(format: Format) -> usize
    ensures { result ≡ limit_of format }
{
    match format {
        Format::Gad1 => MAX_ARCS as usize,
        Format::Gad2 => MAX_BODY_WORDS as usize,
    }
}

/// The number of words of a node with a number of arcs, in a format.
fn words_for(format: Format, arcs: usize) -> usize
    requires { arcs ≤ 27 }
    ensures { result ≡ words_for format arcs }
{
    match format {
        Format::Gad1 => arcs,
        Format::Gad2 => 2 + arcs,
    }
}

/// Puts a number at a place after the end of a list, with 0 at the places between.
#[tactic(auto, using(crate::proofs::NewArcs::same_padded, crate::proofs::NewArcs::numbered))]
fn put_number(numbers: &mut Vec<u32>, place: usize, number: u32) -> Result<(), AllocError>
    requires { length numbers.old.items ≤ place }
    ensures { OnOk result (IsNumbered numbers.old.items numbers.new.items place number) }
{
    for _ in numbers.len()..place {
        numbers.extend_from_slice(&[0])?;
    }
    numbers.extend_from_slice(&[number])?;
    Ok(())
}
