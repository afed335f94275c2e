//! What is written of a reply.

use std::alloc::{AllocError, Global};

/// What is written of a reply.
#[derive(Drop)]
pub struct Printed {
    /// The report.
    pub report: Vec<u8>,
    /// The text for the output that the command names, if one is to be written.
    pub kept: Option<Vec<u8>>,
}

impl Printed {
    ghost use Rattle.std.specs.Prelude.{◌≡◌, None, IfOk};

    /// A report alone.
    pub fn report(report: Vec<u8>) -> Printed
        ensures report { result.report ≡ report }
        ensures kept { result.kept ≡ None }
    {
        Printed { report, kept: None }
    }

    /// A report of these bytes alone.
    pub fn of_bytes(alloc: Global, report: &[u8]) -> Result<Printed, AllocError>
        ensures report { IfOk result (λ printed. printed.report.items ≡ report.now) }
        ensures kept { IfOk result (λ printed. printed.kept ≡ None) }
    {
        Ok(Printed::report(Vec::from_slice(alloc, report)?))
    }
}
