//! A verdict with its report.
ghost use Rattle.std.specs.Prelude.{◌≡◌, IfOk, is_some};
ghost use Rattle.engine_stages.specs.InputFaults.{input_verdict, input_line, is_bad_input, verdict_with, report_with};
ghost use Rattle.engine_stages.specs.Reporting.{IsReported};

use crate::input_faults::{InputFault, input_line, input_verdict};
use crate::verdicts::Verdict;
use std::alloc::{AllocError, Global};

/// A verdict and its report.
#[derive(Drop)]
pub struct Decision {
    /// The verdict.
    pub verdict: Verdict,
    /// The bytes that report it.
    pub report: Vec<u8>,
    /// What is wrong with an input, exactly if the verdict is that one is bad; then the report is the line that says so.
    pub fault: Option<InputFault>,
    pub ghost bad: { is_bad_input verdict ≡ is_some fault },
    pub ghost verdict_is: { verdict ≡ verdict_with fault verdict },
    pub ghost report_is: { report.items ≡ report_with fault report.items },
}

impl Decision {
    /// The verdict that an input is bad, with the line that says what is wrong with it.
    #[tactic(auto, using(crate::proofs::Refusals::each_is_bad))]
    pub fn refused(alloc: Global, fault: InputFault) -> Result<Decision, AllocError>
        ensures { IfOk result (λ d. IsReported (input_verdict fault) (input_line fault) d.verdict d.report.items) }
    {
        let report = input_line(alloc, &fault)?;
        Ok(Decision {
            verdict: input_verdict(&fault),
            report,
            fault: Some(fault),
        })
    }
}
