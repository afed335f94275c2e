//! What an answer to a program has.
ghost use Rattle.std.specs.Prelude.{◌≡◌, option_map};
ghost use Rattle.std.specs.Option.{option_copied};
ghost use Rattle.json_trees.specs.Trees.{view};

use json_trees::Tree;

/// What an answer to a program has: an object, a text, or both.
#[derive(Drop)]
pub enum Body {
    /// A JSON object.
    Object(Tree),
    /// A text.
    Text(Vec<u8>),
    /// An object, and a text.
    Both(Tree, Vec<u8>),
}

impl Body {
    ghost use Rattle.reply_texts.specs.Bodies.{object_in, text_in};

    /// Its object, if it has one.
    pub fn object(&self) -> Option<&Tree>
        ensures { option_map view (option_copied result) ≡ object_in self.now }
    {
        match self {
            Body::Object(tree) | Body::Both(tree, _) => Some(tree),
            Body::Text(_) => None,
        }
    }

    /// Its text, if it has one.
    pub fn text(&self) -> Option<&[u8]>
        ensures { option_copied result ≡ text_in self.now }
    {
        match self {
            Body::Text(text) | Body::Both(_, text) => Some(text.as_slice()),
            Body::Object(_) => None,
        }
    }
}
