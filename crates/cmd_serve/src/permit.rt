// Judges the rules and the diagram of a service, and writes the verdicts.
ghost use Rattle.cmd_serve.specs.Permits.{WritesOnDiagram, WritesOnRules};

use bay_base::listing::Listing;
use bay_io::calls::Sink;
use bay_io::outbox::WriteFault;
use bay_io::writer::WatchedWriter;
use bay_load::loaded::Loaded;
use cmd_audit::judging::{RulesVerdict, judge_rules, write_verdict};
use cmd_audit::judging_diagram::{DiagramVerdict, judge_diagram, write_diagram_verdict};
use std::alloc::Global;

/// Whether a service may go on after a verdict.
#[derive(Clone, Copy)]
pub enum Permit {
    /// It may: this many rules or releases hold, which are all.
    Granted(usize),
    /// It may not: the command ends with this status.
    Denied(u8),
}

/// Judges rules for what was loaded, if there are some, and writes the verdict. Grants the permit
/// without rules, and if each rule holds. Fails if a write or a flush fails.
pub fn prove_rules<W: Sink>(
    alloc: Global,
    load: &Loaded,
    rules: &Option<Listing<u8>>,
    writer: &mut WatchedWriter<W>,
) -> Result<Permit, WriteFault>
    ensures { WritesOnRules W.contents W.does load.now rules.now writer.old writer.new result }
{
    let Some(rules) = rules else {
        return Ok(Permit::Granted(0));
    };
    let verdict = judge_rules(alloc, load, rules.as_slice());
    let status = write_verdict(writer, &verdict)?;
    match verdict {
        RulesVerdict::Hold(count) => Ok(Permit::Granted(count)),
        RulesVerdict::Unproved(_) => Ok(Permit::Denied(status)),
        RulesVerdict::Refused(_) => Ok(Permit::Denied(status)),
        RulesVerdict::OutOfMemory => Ok(Permit::Denied(status)),
    }
}

/// Judges the releases by a diagram for what was loaded, if there is one, and writes the verdict.
/// Grants the permit without a diagram, and if each release holds. Fails if a write or a flush
/// fails.
pub fn prove_diagram<W: Sink>(
    alloc: Global,
    load: &Loaded,
    diagram: &Option<Listing<u8>>,
    writer: &mut WatchedWriter<W>,
) -> Result<Permit, WriteFault>
    ensures { WritesOnDiagram W.contents W.does load.now diagram.now writer.old writer.new result }
{
    let Some(diagram) = diagram else {
        return Ok(Permit::Granted(0));
    };
    let verdict = judge_diagram(alloc, load, diagram.as_slice());
    let status = write_diagram_verdict(writer, &verdict)?;
    match verdict {
        DiagramVerdict::Hold(count) => Ok(Permit::Granted(count)),
        DiagramVerdict::Unproved(_) => Ok(Permit::Denied(status)),
        DiagramVerdict::Refused(_) => Ok(Permit::Denied(status)),
        DiagramVerdict::OutOfMemory => Ok(Permit::Denied(status)),
    }
}
