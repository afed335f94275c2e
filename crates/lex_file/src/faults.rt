//! Why bytes are not a compiled lexicon.

/// Why bytes are not a compiled lexicon. `Short` to `Root` are checked first, in this order. For a GAD1 file, `Label` to `DeadArc`
/// come next, arc by arc in rising order, and then `OpenRun`; for a GAD2 file `NoMark`, `Mask`, `OpenRun`, `Accept` and then, label
/// by label, `Target` and `DeadArc`, node by node in rising order.
#[derive(Clone, Copy, Debug, PartialEq, Eq)]
pub enum FileFault {
    /// There are fewer than 16 bytes, too few for a header.
    Short,
    /// The first four bytes are not those of a format.
    Magic,
    /// There are more than 33,554,431 arcs, or more than 67,108,863 words after the header of a GAD2 file; or the length
    /// is not that of the header and the arcs or words.
    Length,
    /// The root is not the number of a node; if there are no nodes, it is not 0.
    Root,
    /// The label of an arc is over 26.
    Label,
    /// An arc is not the first of its node, and its label is not above that of the arc before.
    Order,
    /// The target of an arc is not 0, and not the number of a node before the arc's own.
    Target,
    /// An arc neither accepts nor has a target.
    DeadArc,
    /// The last arc of a GAD1 file is not the last of its node; or fewer words follow the label word of a GAD2 node than its labels
    /// require.
    OpenRun,
    /// The word at which a GAD2 node must begin is not a label word.
    NoMark,
    /// A label word of a GAD2 node has no label, or one over 26.
    Mask,
    /// An accept word of a GAD2 node has a bit that is not a label of the node.
    Accept,
}

impl FileFault {
    ghost use Rattle.std.specs.Prelude.{◌≡◌};
    ghost use Rattle.lex_file.specs.Faults.{name_of};

    /// The name of the fault, as reports print it.
    pub fn name(&self) -> &'static str
        ensures { result.now ≡ name_of self.now }
    {
        match self {
            FileFault::Short => "Short",
            FileFault::Magic => "Magic",
            FileFault::Length => "Length",
            FileFault::Root => "Root",
            FileFault::Label => "Label",
            FileFault::Order => "Order",
            FileFault::Target => "Target",
            FileFault::DeadArc => "DeadArc",
            FileFault::OpenRun => "OpenRun",
            FileFault::NoMark => "NoMark",
            FileFault::Mask => "Mask",
            FileFault::Accept => "Accept",
        }
    }
}
