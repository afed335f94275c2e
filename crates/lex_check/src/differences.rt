//! Where a lexicon and a list of paths first differ.
ghost use Rattle.std.specs.Prelude.{◌≡◌, ◌<◌, [], ◌∷◌, length};
ghost use Rattle.lex_check.specs.Differences.{path_of, IsLonger};

use arrayvec::ArrayVec;

/// The labels of a path that is named: at most 16 of a rotated word, and one more if a lexicon continues after it.
pub type Path = ArrayVec<u8, 17>;

/// Where a compiled lexicon and a list of paths first differ, in the order of strings of labels.
#[derive(Debug, Drop, PartialEq, Eq)]
pub enum Difference {
    /// This path is one of the list's, and the compiled lexicon does not have it.
    Missing(Path),
    /// The compiled lexicon has this string, or one that begins with it; the list does not have it, or has none that begins with it.
    Extra(Path),
}

/// The path of one label.
pub fn only(label: u8) -> Path
    ensures { result.items ≡ label ∷ [] }
{
    let mut path = Path::new();
    path.push(label);
    path
}

/// The path with a label in front.
pub fn with_front(label: u8, path: Path) -> Path
    requires { length path.items < 17 }
    ensures { result.items ≡ label ∷ path.items }
{
    let mut longer = path;
    longer.insert(0, label);
    longer
}

/// The difference with a label in front of its path.
pub fn longer(label: u8, difference: Difference) -> Difference
    requires { length (path_of difference) < 17 }
    ensures { IsLonger label difference result }
{
    match difference {
        Difference::Missing(path) => Difference::Missing(with_front(label, path)),
        Difference::Extra(path) => Difference::Extra(with_front(label, path)),
    }
}
