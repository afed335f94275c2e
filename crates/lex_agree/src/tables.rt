//! A table of the counts of nodes, by their numbers.
ghost use Rattle.std.specs.Prelude.{◌≡◌, ◌+◌, ◌≤◌, IfOk, OnOk, length};
ghost use Rattle.std.specs.Bool.{OnTrue};
ghost use Rattle.lex_file.specs.Files.{bytes_of, number_of};
ghost use Rattle.lex_file.specs.Languages.{file_tail};
ghost use Rattle.lex_agree.specs.Counts.{slot_of, IsCount, IsCounted, AreCountedBelow, AreCountedBeside, IsFirstTable, IsPut};

use lex_file::{Format, LexFile, Node, PathLex};
use std::alloc::{AllocError, Global};

/// The byte of a node whose count is stored separately.
const BESIDE: u8 = 255;

/// The counts of the strings of nodes, stored in rising order of the nodes' numbers. A count below 255 is the byte of its node. The
/// others are stored separately, with the numbers of their nodes: a lexicon of words has few of them.
#[derive(Drop)]
pub struct CountTable {
    thirds: bool,
    small: Vec<u8>,
    nodes: Vec<u32>,
    large: Vec<u32>,
}

impl CountTable {
    /// A table for the nodes of a file in which only the number 0 has a count: it has no strings.
    pub fn new(alloc: Global, file: &LexFile<'_>) -> Result<CountTable, AllocError>
        ensures { IfOk result (λ table. IsFirstTable table) }
    {
        Ok(CountTable {
            thirds: file.format() == Format::Gad2,
            small: vec![in alloc; 0]?,
            nodes: Vec::new(alloc),
            large: Vec::new(alloc),
        })
    }

    /// The count of a node, or the greatest number if it is not found.
    #[inline(always)]
    pub fn of(&self, file: &LexFile<'_>, node: Node) -> u32
        requires { IsCounted (bytes_of file.now) self.now (number_of node) }
        ensures { IsCount (file_tail (bytes_of file.now) (number_of node)) result }
    {
        let number = file.place(node);
        let byte = self.small[slot_of(self.thirds, number)];
        if byte < BESIDE {
            return u32::from(byte);
        }
        self.large_of(file, number)
    }

    /// The count of a node that is stored separately, or the greatest number if there is none.
    #[tactic(auto, using(crate::proofs::Bounds::found_beside, crate::proofs::Bounds::not_found))]
    #[cold]
    #[inline(never)]
    fn large_of(&self, file: &LexFile<'_>, number: u32) -> u32
        requires { AreCountedBeside (bytes_of file.now) self.now.nodes.items self.now.large.items }
        ensures { IsCount (file_tail (bytes_of file.now) number) result }
    {
        match self.nodes.binary_search(&number) {
            Ok(place) => self.large[place],
            Err(_) => u32::MAX,
        }
    }

    /// Whether the place of a node is after those of the nodes that have counts.
    pub fn has_room(&self, file: &LexFile<'_>, node: Node) -> bool
        ensures { OnTrue result (length self.now.small.items ≤ slot_of self.now.thirds (number_of node)) }
    {
        self.small.len() <= slot_of(self.thirds, file.place(node))
    }

    /// Adds the count of a node after those of the nodes before it.
    #[tactic(auto, using(crate::proofs::Bounds::put_below))]
    #[inline(always)]
    pub fn put(&mut self, file: &LexFile<'_>, node: Node, count: u32) -> Result<(), AllocError>
        requires room { length self.old.small.items ≤ slot_of self.old.thirds (number_of node) }
        requires before { AreCountedBelow (bytes_of file.now) self.old (number_of node) }
        requires count { IsCount (file_tail (bytes_of file.now) (number_of node)) count }
        ensures { OnOk result (AreCountedBelow (bytes_of file.now) self.new (number_of node + 1)) }
    {
        if count >= u32::from(BESIDE) {
            return self.put_large(file, node, count);
        }
        let slot = slot_of(self.thirds, file.place(node));
        put_byte(&mut self.small, slot, count as u8)?;
        Ok(())
    }

    /// Stores the count of a node separately.
    #[tactic(auto, using(crate::proofs::Bounds::put_below, crate::proofs::Bounds::beside_more))]
    #[cold]
    #[inline(never)]
    fn put_large(&mut self, file: &LexFile<'_>, node: Node, count: u32) -> Result<(), AllocError>
        requires room { length self.old.small.items ≤ slot_of self.old.thirds (number_of node) }
        requires before { AreCountedBelow (bytes_of file.now) self.old (number_of node) }
        requires count { IsCount (file_tail (bytes_of file.now) (number_of node)) count }
        ensures { OnOk result (AreCountedBelow (bytes_of file.now) self.new (number_of node + 1)) }
    {
        let number = file.place(node);
        self.nodes.push(number)?;
        self.large.push(count)?;
        put_byte(&mut self.small, slot_of(self.thirds, number), BESIDE)?;
        Ok(())
    }
}

/// The place of a node in a table. In GAD2 a node takes at least three words, so a third of the places is enough.
#[inline(always)]
fn slot_of(thirds: bool, number: u32) -> usize
    ensures { result ≡ slot_of thirds number }
{
    if thirds {
        (number as usize + 2) / 3
    } else {
        number as usize
    }
}

/// Puts a byte at a place after the end of a list.
#[inline(always)]
fn put_byte(bytes: &mut Vec<u8>, place: usize, byte: u8) -> Result<(), AllocError>
    requires { length bytes.old.items ≤ place }
    ensures { OnOk result (IsPut bytes.old.items bytes.new.items place byte) }
{
    for _ in bytes.len()..place {
        bytes.push(BESIDE)?;
    }
    bytes.push(byte)?;
    Ok(())
}
