// The names that a program declares.
ghost use Rattle.std.specs.Prelude.{◌≡◌, IfOk, OnOk, map};
ghost use Rattle.il_text.specs.ItemViews.{declared_name};
ghost use Rattle.bay_load.specs.Names.{no_names, with_declared};
ghost use Rattle.bay_load.specs.Names as spec;

use bay_base::text::Text;
use il_text::program::{Declaration, DeclaredType, VariableScope};
use std::alloc::{AllocError, Global};
use std::marker::Model;

/// The names of a program's variables and timers, each in the order of their declarations. An image
/// has none.
#[derive(Drop)]
pub struct DeclaredNames {
    variables: Vec<Text>,
    timers: Vec<Text>,
}

impl Model for DeclaredNames {
    ghost use Rattle.bay_load.specs.Names.{NamesData};

    ghost Value = { NamesData };

    ghost view = { λ n. record { variables = n.variables.items; timers = n.timers.items } };
}

impl DeclaredNames {
    /// Returns no names. Does not allocate.
    pub(crate) fn none(alloc: Global) -> Self
        ensures { result ≡ no_names }
    {
        DeclaredNames {
            variables: Vec::new(alloc),
            timers: Vec::new(alloc),
        }
    }

    /// Returns the names of the variables.
    pub fn variables(&self) -> &[Text]
        ensures { result.now ≡ self.now.variables }
    {
        self.variables.as_slice()
    }

    /// Returns the names of the timers.
    pub fn timers(&self) -> &[Text]
        ensures { result.now ≡ self.now.timers }
    {
        self.timers.as_slice()
    }

    // Adds the name of a declaration, if it is a variable or a timer of the program.
    fn add(&mut self, alloc: Global, declared: &Declaration<'_>) -> Result<(), AllocError>
        ensures { OnOk result (self.new ≡ with_declared self.old (declared_name declared.now)) }
    {
        match (declared.scope, declared.kind) {
            (VariableScope::External, _) => {}
            (VariableScope::Local, DeclaredType::Elementary(_)) => {
                let name = Text::from_str(alloc, declared.name)?;
                self.variables.push(name)?;
            }
            (VariableScope::Local, DeclaredType::Timer(_)) => {
                let name = Text::from_str(alloc, declared.name)?;
                self.timers.push(name)?;
            }
        }
        Ok(())
    }
}

/// Returns the names of these declarations. Fails only if an allocation fails.
pub(crate) fn names_of(
    alloc: Global,
    declarations: &[Declaration<'_>],
) -> Result<DeclaredNames, AllocError>
    ensures { IfOk result (λ names. names ≡ spec.names_of (map declared_name declarations.now)) }
{
    let mut names = DeclaredNames::none(alloc);
    for declared in declarations {
        names.add(alloc, declared)?;
    }
    Ok(names)
}
