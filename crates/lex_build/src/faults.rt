//! Why a file is not built.
/// Why a lexicon file was not made, from a word list or from a file in another format.
#[derive(Clone, Copy, Debug, PartialEq, Eq)]
pub enum BuildFault {
    /// The file would have more arcs, or words after its header, than its format can number.
    TooManyArcs,
    /// Memory ran out.
    NoMemory,
}
