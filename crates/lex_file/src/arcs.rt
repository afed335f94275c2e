//! Arcs of a compiled lexicon.
ghost use Rattle.std.specs.Prelude.{◌≡◌, ◌<◌, ◌^◌};

/// An arc of a compiled lexicon.
#[derive(Clone, Copy, Debug, Default, PartialEq, Eq)]
pub struct Arc {
    /// The label: 0 for the mark, 1 to 26 for the letters A to Z.
    pub label: u8,
    /// Whether the string that ends with this arc is in the set.
    pub accepts: bool,
    /// The number of the node to which the arc leads, 0 for none.
    pub target: u32,
}

/// Which arc of a node is sought, by its label.
#[derive(Clone, Copy)]
pub enum Sought {
    /// The one with this label.
    Exactly(u8),
    /// The first one with this label or a higher one.
    AtLeast(u8),
}

/// An arc of a node, and where its node continues after it.
#[derive(Clone, Copy)]
pub struct ArcOn {
    /// The arc.
    pub arc: Arc,
    /// The number of the arc after it, 0 if it is the last of its node.
    pub rest: usize,
}

impl Sought {
    ghost use Rattle.lex_file.specs.Arcs.{is_sought};

    /// Whether an arc is the one that is sought.
    #[inline(always)]
    pub(crate) fn is_met_by(self, arc: Arc) -> bool
        ensures { result ≡ is_sought self arc }
    {
        match self {
            Sought::Exactly(label) => arc.label == label,
            Sought::AtLeast(label) => label <= arc.label,
        }
    }
}

impl Arc {
    ghost use Rattle.lex_file.specs.Arcs.{arc_of};

    /// The arc that a word of a GAD1 file stores.
    #[inline(always)]
    pub(crate) fn of_word(word: u32) -> Arc
        ensures { result ≡ arc_of word }
    {
        Arc {
            label: (word % 32) as u8,
            accepts: word / 32 % 2 == 1,
            target: word / 128,
        }
    }
}
