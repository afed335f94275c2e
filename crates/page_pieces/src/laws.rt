//! Laws about the definitions that contracts of this crate cite: those of [`PageText::push`](crate::PageText::push), of
//! [`push_text`](crate::push_text) and of [`push_page_name`](crate::push_page_name). The functions do nothing: their contracts are the laws.
ghost use Rattle.page_pieces.specs.Pieces.{AreOfMarkup, DependOnShape};
ghost use Rattle.page_pieces.specs.Laws.{HasNoMark, HasOnlyNames, IsUndone};
ghost use Rattle.page_pieces.specs.NameLaws.{AreNamedApart, NoneIsIndex, StayInside};

/// The bytes `<`, `>`, `"` and `'` of a page are those of its pieces of markup, in the same order; so its markup depends only on the shape
/// of its pieces, and on no text, number or name in them.
#[tactic(auto, using(crate::proofs::Marks::of_markup, crate::proofs::Marks::by_shape_alone))]
pub fn law_of_pieces()
    ensures markup { AreOfMarkup }
    ensures shape { DependOnShape }
{}

/// The written form of a text has no byte `<`, `>`, `"` or `'`, and each `&` in it begins one of the names `&amp;`, `&lt;`,
/// `&gt;`, `&quot;` and `&#39;`. With the sign in place of each name it is the text again.
#[tactic(auto, using(crate::proofs::Safe::safe, crate::proofs::Safe::named, crate::proofs::Undone::undone_again))]
pub fn law_of_texts()
    ensures safe { HasNoMark }
    ensures named { HasOnlyNames }
    ensures undone { IsUndone }
{}

/// Two games have the same page only if they have the same name; no page has the name of the index; and none is outside the folder of the
/// pages.
pub fn law_of_page_names()
    ensures apart { AreNamedApart }
    ensures no_index { NoneIsIndex }
    ensures inside { StayInside }
{}
