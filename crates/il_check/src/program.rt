// A checked program. Its invariant: it is sound.
ghost use Rattle.std.specs.Prelude.{◌≡◌};
ghost use Rattle.il_check.specs.ProgramViews.{checked_view};
ghost use Rattle.il_check.specs.Sound.{IsSound};

use crate::typed::{External, Timer, TypedItem, Variable};
use std::marker::Model;

/// A checked program: its externals, variables and timers, each in the order of their declarations,
/// and its items. Each name is resolved, and each literal has the type that its instruction works
/// on.
#[derive(Drop)]
pub struct Typed {
    externals: Vec<External>,
    variables: Vec<Variable>,
    timers: Vec<Timer>,
    items: Vec<TypedItem>,
}

impl Model for Typed {
    ghost use Rattle.std.specs.Coded.{codes};
    ghost use Rattle.il_check.specs.contracts.typed.TypedEntry as entry;
    ghost use Rattle.il_check.specs.Contents.{Contents};
    ghost use Rattle.il_check.specs.ProgramViews.{checked_view};
    ghost use Rattle.il_check.specs.Sound.{IsSound};

    ghost Value = { Contents };

    ghost coded = { Prim.hlevel (codes, entry.the_row.coded) };

    ghost view = { λ t. record {
      externals = t.externals.items;
      variables = t.variables.items;
      timers = t.timers.items;
      items = t.items.items;
    } };

    ghost invariant = { λ t. IsSound (checked_view
        (record {
          externals = t.externals.items;
          variables = t.variables.items;
          timers = t.timers.items;
          items = t.items.items;
        })) };
}

/// The parts of a checked program.
#[derive(Drop)]
pub(crate) struct Parts {
    pub externals: Vec<External>,
    pub variables: Vec<Variable>,
    pub timers: Vec<Timer>,
    pub items: Vec<TypedItem>,
}

impl Typed {
    ghost use Rattle.il_check.specs.PartsView.{parts_view};

    /// Creates the program of these parts. Does not allocate.
    pub(crate) fn of_parts(parts: Parts) -> Self
        requires { IsSound (checked_view (parts_view parts)) }
        ensures { result ≡ parts_view parts }
    {
        let Parts {
            externals,
            variables,
            timers,
            items,
        } = parts;
        Typed {
            externals,
            variables,
            timers,
            items,
        }
    }

    /// Returns the externals in the order of their declarations.
    pub fn externals(&self) -> &[External]
        ensures { result.now ≡ self.now.externals }
    {
        self.externals.as_slice()
    }

    /// Returns the variables in the order of their declarations.
    pub fn variables(&self) -> &[Variable]
        ensures { result.now ≡ self.now.variables }
    {
        self.variables.as_slice()
    }

    /// Returns the timers in the order of their declarations.
    pub fn timers(&self) -> &[Timer]
        ensures { result.now ≡ self.now.timers }
    {
        self.timers.as_slice()
    }

    /// Returns the items in the order of the text. The program is the result of checking a program
    /// without a fault, and it is well typed.
    pub fn items(&self) -> &[TypedItem]
        ensures value { result.now ≡ self.now.items }
        ensures sound { IsSound (checked_view self.now) }
    {
        self.items.as_slice()
    }
}
