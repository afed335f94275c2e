//! The output that a command names in addition to its report.
ghost use Rattle.std.specs.Prelude.{ℕ, List, OnOk, OnErr};

/// That the text could not be kept.
#[derive(Clone, Copy)]
pub struct KeepFailed;

/// A place for the text that a command writes in addition to its report: a corrected sheet, a page.
pub trait Outlet {
    // That it holds a text.
    ghost holds: { Self → List ℕ → Type 0 };

    // That a text could not be kept there.
    ghost has_failed: { Self → Type 0 };

    /// Keeps a text there.
    fn keep(&mut self, text: &[u8]) -> Result<(), KeepFailed>
        ensures kept { OnOk result (holds self.new text.now) }
        ensures failed { OnErr result (has_failed self.new) };
}
