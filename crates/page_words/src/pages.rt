//! The page of a case.

use crate::sentences::sentences_of;
use page_answers::PagedCase;
use page_game::{Shown, push_page};
use page_pieces::PageText;
use std::alloc::{AllocError, Global};

/// Appends the page of a case, with its index so many folders above it, if it has one; nothing if the text of the case is not a record.
///
/// It fails only if memory runs out.
pub fn push_paged(
    alloc: Global,
    page: &mut PageText,
    paged: &PagedCase,
    up: Option<usize>,
) -> Result<(), AllocError> {
    let Some(shown) = Shown::of(paged, up) else {
        return Ok(());
    };
    let said = sentences_of(alloc, paged, &shown)?;
    push_page(
        page,
        &shown,
        said.reason.as_slice(),
        said.likely.as_slice(),
        said.lead.as_slice(),
    )
}

/// The page of a case, with its index so many folders above it, if it has one; nothing if the text of the case is not a record.
///
/// It fails only if memory runs out.
pub fn page_text(
    alloc: Global,
    paged: &PagedCase,
    up: Option<usize>,
) -> Result<PageText, AllocError> {
    let mut page = PageText::new(alloc);
    push_paged(alloc, &mut page, paged, up)?;
    Ok(page)
}
