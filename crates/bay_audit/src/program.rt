// A program on a bay, and the states that its scans can reach.
ghost use Rattle.std.specs.Prelude.{◌≡◌, ◌+◌, IfOk, IfSome, length};
ghost use Rattle.il_scan.specs.Scans.{first_machine};
ghost use Rattle.bay_audit.specs.Rules.{PredictsRanges, PredictsFirst, program_of};

use crate::start::{first_ranges, no_delays};
use bay_base::listing::Listing;
use bay_base::text::Text;
use bay_config::bay::{Bay, Point, Source};
use bay_process::bind::sources_of;
use il_image::image::{Image, ImagePoint};
use il_range::delay::KnownDelay;
use il_range::memory::memory_ranges;
use il_range::range::Range;
use il_range::scan::{ScanPrediction, scan_ranges};
use il_scan::machine::Machine;
use il_verify::fault::VerifyFault;
use il_verify::verify::{Verified, verify};
use std::alloc::{AllocError, Global};
use std::marker::Model;

/// A program on a bay: its image, and the sources of the points that it only reads, and of those
/// that it may write.
#[derive(Drop)]
pub struct AuditedProgram<'a> {
    points: &'a [Point],
    verified: &'a Verified,
    reads: Vec<Source>,
    writes: Vec<Source>,
    // The ranges of the slots in all states that scans reach from the program's first values.
    memory: Vec<Range>,
}

impl<'a> Model for AuditedProgram<'a> {
    ghost use Rattle.bay_audit.specs.Rules.{BoundProgram, program};
    ghost use Rattle.il_range.specs.Predictions.{IsMemory};

    ghost Value = { BoundProgram };

    ghost view = { λ p. program p.verified.now p.reads.items p.writes.items };

    ghost invariant = { λ p. IsMemory p.verified.now p.memory.items };
}

// Copies the points of an image.
fn points_of(alloc: Global, points: &[ImagePoint]) -> Result<Listing<ImagePoint>, AllocError>
    ensures { IfOk result (λ copy. copy ≡ points.now) }
{
    let mut copy = Vec::new(alloc);
    for point in points {
        copy.push(ImagePoint {
            name: Text::from_str(alloc, point.name.as_str())?,
            elementary: point.elementary,
            writable: point.writable,
        })?;
    }
    Ok(Listing::new(copy))
}

// Copies an image.
fn copy_of(alloc: Global, image: &Image) -> Result<Image, AllocError>
    ensures { IfOk result (λ copy. copy ≡ image.now) }
{
    let points = points_of(alloc, image.points())?;
    let variables = Listing::new(Vec::from_slice(alloc, image.variables())?);
    let timers = Listing::new(Vec::from_slice(alloc, image.timers())?);
    let code = Listing::new(Vec::from_slice(alloc, image.code())?);
    Ok(Image::new(points, variables, timers, code))
}

impl<'a> AuditedProgram<'a> {
    /// Binds a program to a bay. Fails only if an allocation fails.
    pub fn new(
        alloc: Global,
        bay: &'a Bay,
        verified: &'a Verified,
    ) -> Result<AuditedProgram<'a>, AllocError>
        ensures { IfOk result (λ program. program ≡ program_of bay.now verified.now) }
    {
        let points = verified.image().points();
        Ok(AuditedProgram {
            points: bay.points.as_slice(),
            verified,
            reads: sources_of(alloc, false, bay.points.as_slice(), points)?,
            writes: sources_of(alloc, true, bay.points.as_slice(), points)?,
            memory: memory_ranges(alloc, verified)?,
        })
    }

    /// Returns the program's image.
    pub fn image(&self) -> &Image
        ensures { result.now ≡ self.now.image }
    {
        self.verified.image()
    }

    /// Returns the sources of the points that the program only reads.
    pub fn reads(&self) -> &[Source]
        ensures { result.now ≡ self.now.reads }
    {
        self.reads.as_slice()
    }

    /// Returns the sources of the points that the program may write.
    pub fn writes(&self) -> &[Source]
        ensures { result.now ≡ self.now.writes }
    {
        self.writes.as_slice()
    }

    /// Predicts a scan from every state that the program can reach, with inputs in these ranges and
    /// with delays of timers within the limits. Fails only if an allocation fails.
    pub fn scan(
        &self,
        alloc: Global,
        limits: &[KnownDelay],
        given: &[Range],
    ) -> Result<ScanPrediction, AllocError>
        ensures size { IfOk result
            (λ f. length f.ranges.items ≡ length self.now.image.points
            + length self.now.image.variables) }
        ensures predicts { IfOk result
            (λ f. PredictsRanges self.now limits.now given.now f.delays.items
            f.ranges.items) }
    {
        let memory = self.memory.as_slice();
        let found = scan_ranges(alloc, self.verified, memory, limits, given)?;
        Ok(found)
    }

    /// Predicts the first scan after a load, with inputs in these ranges: the program's slots have
    /// their first values, and no delay runs. Fails only if an allocation fails.
    pub fn first_scan(&self, alloc: Global, given: &[Range]) -> Result<ScanPrediction, AllocError>
        ensures size { IfOk result
            (λ f. length f.ranges.items ≡ length self.now.image.points
            + length self.now.image.variables) }
        ensures predicts { IfOk result
            (λ f. PredictsFirst self.now given.now f.ranges.items) }
    {
        let memory = first_ranges(alloc, self.image())?;
        let limits = no_delays(alloc, self.image().timers().len())?;
        let found = scan_ranges(
            alloc,
            self.verified,
            memory.as_slice(),
            limits.as_slice(),
            given,
        )?;
        Ok(found)
    }

    /// Returns a machine with the program in its state before the first scan; `None` if the
    /// verifier refuses the copy of the image. Fails only if an allocation fails.
    pub fn machine(&self, alloc: Global) -> Result<Option<Machine>, AllocError>
        ensures { IfOk result (λ made. IfSome made (λ m. m ≡ first_machine self.now.image)) }
    {
        match verify(alloc, copy_of(alloc, self.image())?, self.points) {
            Ok(verified) => Ok(Some(Machine::new(alloc, verified)?)),
            Err(refused) => match refused.fault {
                VerifyFault::OutOfMemory => Err(AllocError),
                _ => Ok(None),
            },
        }
    }
}
