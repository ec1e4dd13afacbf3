// What is loaded of a bay file and a program or an image.
ghost use Rattle.std.specs.Prelude.{◌≡◌};
ghost use Rattle.bay_load.specs.Loads.{IsSoundLoad};
ghost use Rattle.bay_load.specs.Report.{IsReport};

use crate::names::DeclaredNames;
use crate::report::{Report, report_of};
use bay_config::bay::Bay;
use il_verify::verify::Verified;
use std::marker::Model;

/// A bay that a file describes, the names of its program, and the program's image, which is
/// verified for the points of the bay.
#[derive(Drop)]
pub struct Loaded {
    pub(crate) bay: Box<Bay>,
    pub(crate) names: DeclaredNames,
    pub(crate) verified: Verified,
}

impl Model for Loaded {
    ghost use Rattle.bay_load.specs.Loads.{IsSoundLoad, LoadData};

    ghost Value = { LoadData };

    ghost view = { λ l. record { bay = l.bay.value; names = l.names; image = l.verified } };

    ghost invariant = { λ l. IsSoundLoad l.bay.value l.verified };
}

impl Loaded {
    /// Returns the bay.
    pub fn bay(&self) -> &Bay
        ensures { result.now ≡ self.now.bay }
    {
        &self.bay
    }

    /// Returns the names of the program's variables and timers.
    pub fn names(&self) -> &DeclaredNames
        ensures { result.now ≡ self.now.names }
    {
        &self.names
    }

    /// Returns the verified program.
    pub fn verified(&self) -> &Verified
        ensures { result.now ≡ self.now.image }
    {
        &self.verified
    }

    /// Returns the number of instructions of the program, and the maximum stack depth and number of
    /// steps of a scan. Goes over the code once.
    pub fn report(&self) -> Report
        ensures { IsReport self.now.image result }
    {
        report_of(&self.verified)
    }

    /// Returns the bay and the verified program.
    pub fn into_parts(self) -> (Box<Bay>, Verified)
        ensures bay { result.0.value ≡ self.bay }
        ensures program { result.1 ≡ self.image }
        ensures sound { IsSoundLoad self.bay self.image }
    {
        (self.bay, self.verified)
    }
}
