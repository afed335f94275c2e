//! The arguments of commands as data, and what `clap` makes of them.

use clap::builder::ValueParser;
use clap::{Arg, ArgAction};
use std::alloc::{AllocError, Global};

/// The form of an argument on a command line.
#[derive(Clone, Copy)]
pub enum Form {
    /// One word that the command needs.
    Needed,
    /// One word at the end, which may be left out.
    Last,
    /// All words at the end.
    Several,
    /// All words at the end; the command needs at least one.
    SomeNeeded,
    /// An option without a value.
    Flag,
    /// An option without a value that also has a letter or a digit.
    Letter(char),
    /// An option with a value that help calls by this name.
    Option(&'static str),
}

/// An argument of a command.
#[derive(Clone, Copy)]
pub struct Argument {
    /// The name by which its value is read. An option has it on the command line too.
    pub id: &'static str,
    /// What help says of it.
    pub help: &'static str,
    /// Its form on the command line.
    pub form: Form,
    /// What its value has to be.
    pub value: ValueParser<'static>,
    /// If this option is missing, the argument is needed.
    pub unless: Option<&'static str>,
    /// If this argument is present too, that is a mistake.
    pub against: Option<&'static str>,
}

impl Argument {
    /// The argument as `clap` has it.
    pub fn build<'a>(&self, alloc: Global) -> Result<Arg<'a>, AllocError> {
        let argument = self.formed(alloc).help(self.help).value_parser(self.value);
        let argument = match self.unless {
            Some(option) => argument.required_unless_present(option)?,
            None => argument,
        };
        match self.against {
            Some(option) => argument.conflicts_with(option),
            None => Ok(argument),
        }
    }

    /// An argument of this form.
    fn formed<'a>(&self, alloc: Global) -> Arg<'a> {
        let argument = Arg::new(alloc, self.id);
        match self.form {
            Form::Needed => argument.required(true),
            Form::Last => argument,
            Form::Several => argument.action(ArgAction::Append).num_args(1..),
            Form::SomeNeeded => argument
                .required(true)
                .action(ArgAction::Append)
                .num_args(1..),
            Form::Flag => argument.long(self.id).action(ArgAction::SetTrue),
            Form::Letter(letter) => argument
                .short(letter)
                .long(self.id)
                .action(ArgAction::SetTrue),
            Form::Option(value) => argument.long(self.id).value_name(value),
        }
    }
}
