// The names of what a program retains from scan to scan.
ghost use Rattle.std.specs.Prelude.{◌≡◌};
ghost use Rattle.cmd_audit.specs.Names.{program_names};

use bay_load::loaded::Loaded;
use bay_load::names::DeclaredNames;
use il_image::image::ImagePoint;
use std::marker::Model;

/// The names of what a program retains: its writable points among all its points, and its variables
/// and timers, each in the order of their declarations. An image has no names of variables and
/// timers.
#[derive(Drop)]
pub struct StateNames<'a> {
    pub points: &'a [ImagePoint],
    pub declared: &'a DeclaredNames,
}

impl<'a> Model for StateNames<'a> {
    ghost use Rattle.cmd_audit.specs.Names.{ProgramNames};

    ghost Value = { ProgramNames };

    ghost view = { λ n. record {
      points = n.points.now;
      variables = n.declared.now.variables;
      timers = n.declared.now.timers;
    } };
}

impl<'a> StateNames<'a> {
    /// Returns the names of the program that was loaded.
    pub fn of(loaded: &'a Loaded) -> Self
        ensures { result ≡ program_names loaded.now }
    {
        StateNames {
            points: loaded.verified().image().points(),
            declared: loaded.names(),
        }
    }
}
