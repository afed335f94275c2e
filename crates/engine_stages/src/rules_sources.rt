//! Where the rules of a call come from.
ghost use Rattle.std.specs.Prelude.{Option, Some, None};
ghost use Rattle.io_devices.specs.Devices.{Device, HasRoom};
ghost use Rattle.ref_tiles.specs.declared.rulebook.Rules.{Rules};
ghost use Rattle.engine_stages.specs.Sources.{known_but, no_device, device_in};
ghost use Rattle.engine_stages.specs.Stages.{AreRead};

use crate::decisions::Decision;
use crate::faults::RunFault;
use crate::meanings::read_rules;
use io_devices::Input;
use ref_tiles::Rules;
use std::alloc::Global;

/// Where the rules of a call come from: they are known, or an input has a text that states them.
pub trait RulesSource {
    // The rules, if they are known.
    ghost known: { Self → Option Rules };

    // The input that has the text, if they are not.
    ghost text: { Self → Device };

    /// The rules, or the decision that the text is bad.
    ///
    /// # Errors
    ///
    /// If the input failed or memory was refused.
    fn read(&mut self, alloc: Global) -> Result<Result<Rules, Decision>, RunFault>
        requires { HasRoom (text self.old) }
        ensures { AreRead (known self.old) (text self.old) (text self.new) result };
}

/// Rules that are known.
#[derive(Clone, Copy)]
pub struct KnownRules<'a> {
    /// The rules.
    pub rules: &'a Rules,
}

impl RulesSource for KnownRules<'_> {
    ghost known = { λ s. Some s.rules.now };

    ghost text = { λ s. no_device };

    fn read(&mut self, _alloc: Global) -> Result<Result<Rules, Decision>, RunFault> {
        Ok(Ok(*self.rules))
    }
}

/// Rules that are known, or the input of a text that states others.
#[derive(Drop)]
pub struct RulesInput<R> {
    /// The rules if there is no text.
    pub rules: Rules,
    /// The input of the text, if there is one.
    pub text: Option<R>,
}

impl<R: Input> RulesSource for RulesInput<R> {
    ghost known = { λ s. known_but s.text s.rules };

    ghost text = { λ s. device_in R.device s.text };

    fn read(&mut self, alloc: Global) -> Result<Result<Rules, Decision>, RunFault> {
        match &mut self.text {
            None => Ok(Ok(self.rules)),
            Some(text) => read_rules(alloc, text),
        }
    }
}

impl<R: Input> RulesSource for R {
    ghost known = { λ s. None };

    ghost text = { R.device };

    fn read(&mut self, alloc: Global) -> Result<Result<Rules, Decision>, RunFault> {
        read_rules(alloc, self)
    }
}
