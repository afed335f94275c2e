//! The rotated paths of a word.
ghost use Rattle.std.specs.Prelude.{◌≡◌, ◌+◌, ◌≤◌, ◌<◌, ◌++◌, [], length, map, reverse, OnOk, IfOk, IsTrue, take, drop};
ghost use Rattle.std.specs.Char.{is_ascii_uppercase};
ghost use Rattle.std.specs.List.{list_all};
ghost use Rattle.lex_list.specs.Words.{is_word};
ghost use Rattle.lex_list.specs.RotatedPaths.{label_of, path_of};
ghost use Rattle.lex_check.specs.Rotations.{paths_of, gathered};

use crate::rotated::{MAX_LABELS, Rotated};
use arrayvec::ArrayVec;
use lex_agree::{label_of, letter_count};
use lex_file::MARK;
use lex_list::WordList;
use std::alloc::{AllocError, Global};

/// The labels of the front of a word, from the last letter to the first.
fn labels_back(front: &[u8]) -> ArrayVec<u8, MAX_LABELS>
    requires capitals { IsTrue (list_all is_ascii_uppercase front.now) }
    requires few { length front.now ≤ 15 }
    ensures { result.items ≡ map label_of (reverse front.now) }
{
    let mut labels = ArrayVec::new();
    for letter in front.iter().rev().copied() {
        labels.push(label_of(letter));
    }
    labels
}

/// Appends the labels of the back of a word.
fn push_labels(labels: &mut ArrayVec<u8, MAX_LABELS>, back: &[u8])
    requires capitals { IsTrue (list_all is_ascii_uppercase back.now) }
    requires few { length labels.old.items + length back.now ≤ 16 }
    ensures { labels.new.items ≡ labels.old.items ++ map label_of back.now }
{
    for letter in back {
        labels.push(label_of(*letter));
    }
}

/// The labels of the rotated path of a word that is split into a front and a back.
fn labels_of(front: &[u8], back: &[u8]) -> ArrayVec<u8, MAX_LABELS>
    requires front { IsTrue (list_all is_ascii_uppercase front.now) }
    requires back { IsTrue (list_all is_ascii_uppercase back.now) }
    requires few { length front.now + length back.now ≤ 15 }
    ensures { result.items ≡ path_of front.now back.now }
{
    let mut labels = labels_back(front);
    if !back.is_empty() {
        labels.push(MARK);
        push_labels(&mut labels, back);
    }
    labels
}

/// The rotated path of a word that is split into a front and a back.
#[tactic(auto, using(crate::proofs::Rotations::labels_of_path))]
fn rotated(front: &[u8], back: &[u8]) -> Rotated
    requires front { IsTrue (list_all is_ascii_uppercase front.now) }
    requires back { IsTrue (list_all is_ascii_uppercase back.now) }
    requires few { length front.now + length back.now ≤ 15 }
    ensures { result ≡ path_of front.now back.now }
{
    Rotated::of_labels(&labels_of(front, back))
}

/// Appends the rotated paths of a word, one for each front that is not empty.
fn push_paths(paths: &mut Vec<Rotated>, word: &[u8]) -> Result<(), AllocError>
    requires { IsTrue (is_word word.now) }
    ensures { OnOk result (paths.new.items ≡ paths.old.items ++ paths_of word.now (length word.now)) }
{
    for split in 0..word.len() {
        let (front, back) = word.split_at(split + 1);
        paths.push(rotated(front, back))?;
    }
    Ok(())
}

/// The rotated paths of the words of a list, word by word. There are as many as letters: each letter ends one front.
pub fn gather(alloc: Global, list: &WordList) -> Result<Vec<Rotated>, AllocError>
    ensures { IfOk result (λ paths. paths.items ≡ gathered list.now (length list.now)) }
{
    let mut paths = Vec::with_capacity(alloc, letter_count(list))?;
    for place in 0..list.len() {
        push_paths(&mut paths, list.word(place))?;
    }
    Ok(paths)
}
