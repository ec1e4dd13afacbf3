// Programs from their text to the image, images from their octets, and scans of the machine that
// runs the last one.
ghost use Rattle.std.specs.Prelude.{◌<◌, length};

use crate::texts::expand_text;
use anyhow::{Context, Result, bail};
use bay_base::listing::Listing;
use bay_config::bay::Point;
use bay_config::read::read_bay;
use cases::octets::octets_of;
use cases::words::first_word;
use il_check::check::check;
use il_compile::compile::compile;
use il_image::decode::decode;
use il_image::encode::encode;
use il_image::image::{Image, ImagePoint};
use il_image::read::instr_at;
use il_image::value::Value;
use il_scan::machine::Machine;
use il_text::read::read_program;
use il_verify::verify::verify;
use std::alloc::{AllocError, Global};

// Counts the instructions of code.
fn count_instructions(code: &[u8]) -> u32 {
    let mut count = 0u32;
    let mut place = 0;
    for _ in 0..code.len() {
        if let Some((_, next)) = instr_at(code, place) {
            count = count.saturating_add(1);
            place = next;
        }
    }
    count
}

// Returns an image's octets, its points, each with its name, its type and whether it is writable,
// its variables and its timers.
fn image_text(alloc: Global, image: &Image) -> Result<String, AllocError> {
    let mut text = String::new(alloc);
    for point in image.points() {
        let (name, kind, writable) = (point.name.as_str(), point.elementary, point.writable);
        write!(text, "{name} {kind:?} {writable}; ")?;
    }
    let octets = hex::encode(alloc, encode(alloc, image)?.as_slice())?;
    write!(
        text,
        "{:?} {:?} |{octets}",
        image.variables(),
        image.timers()
    )?;
    Ok(text)
}

// Returns the image that octets encode, or the number and the message of their fault.
fn decode_image(alloc: Global, octets: &[u8]) -> Result<String> {
    Ok(match decode(alloc, octets) {
        Ok(image) => image_text(alloc, &image),
        Err(fault) => format!(in alloc; "{} {fault}", fault.code().unwrap_or(0)),
    }?)
}

// Returns the image that comes back, in the refusal of the image that octets encode.
fn returned_image(alloc: Global, octets: &[u8], points: &[Point]) -> Result<String> {
    match verify(alloc, decode(alloc, octets)?, points) {
        Ok(_) => bail!("the image is accepted"),
        Err(refused) => Ok(image_text(alloc, &refused.image)?),
    }
}

// Counts the results for octets with the one at an index changed to each other value: an image, or
// refused with 80, 81, 82 or 83.
fn count_at(alloc: Global, octets: &mut [u8], at: usize, counts: &mut [u32; 5])
    requires { at < length octets.old }
{
    let was = octets[at];
    for value in 0..=255u8 {
        octets[at] = value;
        let place = match decode(alloc, octets) {
            Ok(_) => 0,
            Err(fault) => usize::from(fault.code().unwrap_or(0)).wrapping_sub(79),
        };
        if value != was && place < 5 {
            counts[place] = counts[place].saturating_add(1);
        }
    }
    octets[at] = was;
}

// Counts the same over all octets.
fn count_changed(alloc: Global, octets: &mut [u8]) -> Result<String, AllocError> {
    let mut counts = [0u32; 5];
    for at in 0..octets.len() {
        count_at(alloc, octets, at, &mut counts);
    }
    format!(in alloc; "{counts:?}")
}

// Returns the values of the read-only points that these numbers denote, with commas between them.
fn inputs_of(alloc: Global, points: &[ImagePoint], numbers: &str) -> Result<Vec<Value>> {
    let mut inputs = Vec::new(alloc);
    let mut words = numbers.split(",");
    for point in points {
        if !point.writable {
            let number = words.next().unwrap_or("").parse::<i64>()?;
            inputs.push(Value::of(point.elementary, number).context("no such value")?)?;
        }
    }
    Ok(inputs)
}

/// The declarations of the next programs, and the machine that runs the scans.
#[derive(Drop)]
pub struct Programs<'a> {
    alloc: Global,
    points: Listing<Point>,
    declared: &'a str,
    machine: Option<Machine>,
}

impl<'a> Programs<'a> {
    /// Creates the state for the points of a bay, with no declarations and no machine.
    pub fn new(alloc: Global, bay: &str) -> Result<Programs<'a>> {
        Ok(Programs {
            alloc,
            points: read_bay(alloc, bay)?.points,
            declared: "",
            machine: None,
        })
    }

    /// Reads a line that is no case: the declarations of the next programs.
    pub fn take(&mut self, line: &'a str) -> Result<()> {
        self.declared = line.strip_prefix("= ").context("no answer")?;
        Ok(())
    }

    // Returns the report of an image, whose machine runs the next scans, or the number, the offset
    // and the message of its fault.
    fn verdict(&mut self, image: Image) -> Result<String, AllocError> {
        match verify(self.alloc, image, self.points.as_slice()) {
            Ok(verified) => {
                let (depth, budget) = (verified.depth(), verified.budget());
                let count = count_instructions(verified.image().code());
                self.machine = Machine::new(self.alloc, verified).ok();
                format!(in self.alloc; "{count} {depth} {budget}")
            }
            Err(refused) => {
                let code = refused.fault.code().unwrap_or(0);
                format!(in self.alloc; "{code} {} {}", refused.place, refused.fault)
            }
        }
    }

    // Returns the result of a program: the number, the line and the message of the fault that the
    // checks find, or `0 0`; the octets of its image; or the report of the image.
    fn program(&mut self, kind: &str, lines: &str) -> Result<String> {
        let (alloc, declared) = (self.alloc, self.declared);
        let spelled = format!(in alloc; "PROGRAM P\\n{declared}\\n{lines}\\nEND_PROGRAM\\n")?;
        let text = expand_text(alloc, spelled.as_str())?;
        let program = read_program(alloc, text.as_str())?;
        let typed = match check(alloc, &program, self.points.as_slice()) {
            Ok(typed) => typed,
            Err(fault) => {
                let (code, line) = (fault.code().unwrap_or(0), fault.line());
                return Ok(format!(in alloc; "{code} {line} {fault}")?);
            }
        };
        if kind == "check" {
            return Ok(format!(in alloc; "0 0")?);
        }
        Ok(match compile(alloc, &typed) {
            Ok(image) => match kind {
                "octets" => image_text(alloc, &image),
                _ => self.verdict(image),
            },
            Err(fault) => format!(in alloc; "{} {fault}", fault.code().unwrap_or(0)),
        }?)
    }

    // Returns the steps and the outputs of a scan at a time.
    fn scan(&mut self, now: &str, numbers: &str) -> Result<String> {
        let machine = self.machine.as_mut().context("no machine")?;
        let inputs = inputs_of(self.alloc, machine.verified().image().points(), numbers)?;
        if !machine.fits(inputs.as_slice()) {
            bail!("these are no inputs of the program");
        }
        let scan = machine.scan(inputs.as_slice(), now.parse::<u64>()?);
        Ok(format!(in self.alloc; "{} {:?}", scan.steps, scan.outputs)?)
    }

    /// Returns the answer to a line.
    pub fn answer(&mut self, kind: &str, words: &str) -> Result<String> {
        let (alloc, (first, rest)) = (self.alloc, first_word(words));
        match kind {
            "check" | "octets" | "report" => return self.program(kind, words),
            "scan" => return self.scan(first, rest),
            _ => {}
        }
        let mut octets = octets_of(alloc, words)?;
        match kind {
            "decoded" => decode_image(alloc, octets.as_slice()),
            "returned" => returned_image(alloc, octets.as_slice(), self.points.as_slice()),
            "changed" => Ok(count_changed(alloc, octets.as_mut_slice())?),
            _ => Ok(self.verdict(decode(alloc, octets.as_slice())?)?),
        }
    }
}
