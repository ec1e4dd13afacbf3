// The releases of bays, judged by the hazards in their diagrams.
use crate::bays::{Fault, KEYED, LINE, TRANSFORMER, Texts};
use bay_audit::effort::{EFFORT, PassBudget};
use bay_audit::program::AuditedProgram;
use bay_audit::release::find_release;
use bay_audit_hazards::answer::HazardAnswer;
use bay_audit_hazards::explain::explain;
use bay_audit_hazards::judge::judge;
use bay_base::switch::Operation;
use bay_config::bay::Bay;
use bay_config::read::read_bay;
use bay_diagram::network::Network;
use bay_diagram_file::read::read_diagram;
use il_check::check::check;
use il_compile::compile::compile;
use il_text::read::read_program;
use il_verify::verify::{Verified, verify};
use std::alloc::Global;
use std::process::Abort;
use std::test::Fail;

// Returns the text of a program, with a mistake if there is one.
fn text_of(alloc: Global, texts: Texts, fault: Option<Fault>) -> Result<String, Fail> {
    let mut text = String::new(alloc);
    for (index, line) in texts.program.iter().enumerate() {
        match fault {
            Some(fault) if fault.line == index => text.push_str(fault.text)?,
            _ => text.push_str(line)?,
        }
        text.push('\n')?;
    }
    Ok(text)
}

// Returns the verified image of a program.
fn verify_program(alloc: Global, bay: &Bay, text: &str) -> Result<Verified, Fail> {
    let points = bay.points.as_slice();
    let program = read_program(alloc, text)?;
    let typed = check(alloc, &program, points)?;
    let image = compile(alloc, &typed)?;
    match verify(alloc, image, points) {
        Ok(verified) => Ok(verified),
        Err(refused) => Err(Fail::from(refused.fault)),
    }
}

// Returns what a list has of an answer; `None` for a release that holds. A broken release has a
// hazard with walks that show it.
fn word_of(answer: &HazardAnswer, is_shown: bool) -> Option<&'static str> {
    match answer {
        HazardAnswer::Holds { .. } => None,
        HazardAnswer::Broken { .. } if is_shown => Some(""),
        HazardAnswer::Broken { .. } => Some(" is not shown"),
        HazardAnswer::Open { .. } => Some(" is not decided by the process"),
        HazardAnswer::Undecided => Some(" is not decided"),
    }
}

// Returns whether the hazard of a broken release is shown.
fn is_shown(
    alloc: Global,
    bay: &Bay,
    network: &Network,
    switch: usize,
    operation: Operation,
    answer: &HazardAnswer,
) -> Result<bool, Fail> {
    match answer {
        HazardAnswer::Broken { case } => {
            Ok(explain(alloc, bay, network, switch, operation, case)?.is_some())
        }
        _ => Ok(false),
    }
}

// Appends the operation of a switch to a list, and a word.
fn put(list: &mut String, id: &str, operation: Operation, word: &str) -> Result<(), Fail> {
    if !list.is_empty() {
        list.push_str(", ")?;
    }
    list.push_str(id)?;
    list.push_str(match operation {
        Operation::Open => " open",
        Operation::Close => " close",
    })?;
    list.push_str(word)?;
    Ok(())
}

// Reads the diagram of a bay.
fn network_of(alloc: Global, bay: &Bay, texts: Texts) -> Result<Network, Fail> {
    match read_diagram(alloc, bay, texts.diagram) {
        Ok(network) => Ok(network),
        Err(fault) => Err(Fail::from(fault.kind)),
    }
}

// Returns the operations of which the release is a hazard.
fn broken_releases(alloc: Global, texts: Texts, fault: Option<Fault>) -> Result<String, Fail> {
    let bay = read_bay(alloc, texts.bay)?;
    let network = network_of(alloc, &bay, texts)?;
    let text = text_of(alloc, texts, fault)?;
    let verified = verify_program(alloc, &bay, text.as_str())?;
    let program = AuditedProgram::new(alloc, &bay, &verified)?;
    let switches = bay.switches.as_slice();
    let answers = switches.len().saturating_mul(4);
    let mut budget = PassBudget::new(verified.image(), EFFORT, answers);
    let mut found = String::new(alloc);
    for (index, switch) in switches.iter().enumerate() {
        for operation in [Operation::Open, Operation::Close] {
            let release = find_release(alloc, &bay, &program, index, operation, &mut budget)?;
            let answer = judge(alloc, &bay, &program, &network, release, &mut budget)?;
            let is_shown = is_shown(alloc, &bay, &network, index, operation, &answer)?;
            if let Some(word) = word_of(&answer, is_shown) {
                put(&mut found, switch.id.as_str(), operation, word)?;
            }
        }
    }
    Ok(found)
}

// Checks that just these releases of a program are hazards: none, or those that a mistake makes so.
fn check_releases(
    rt: &impl Abort,
    alloc: Global,
    texts: Texts,
    fault: Option<Fault>,
    wanted: &'static str,
) -> Result<(), Fail> {
    let found = broken_releases(alloc, texts, fault)?;
    assert_eq!(rt; found.as_str(), wanted);
    Ok(())
}

// Checks a program, and the program with each mistake.
fn check_bay(rt: &impl Abort, alloc: Global, texts: Texts) -> Result<(), Fail> {
    check_releases(rt, alloc, texts, None, "")?;
    let faults = texts.faults;
    for index in 0..faults.len() {
        let fault = faults[index];
        check_releases(rt, alloc, texts, Some(fault), fault.broken)?;
    }
    Ok(())
}

// Shows P-150, P-152.
#[test]
fn releases_of_a_line_bay(rt: HostRuntime) -> Result<(), Fail> {
    check_bay(&rt, rt.alloc(), LINE)
}

// Shows P-150, P-152.
#[test]
fn releases_of_a_transformer_bay(rt: HostRuntime) -> Result<(), Fail> {
    check_bay(&rt, rt.alloc(), TRANSFORMER)
}

// Shows P-143, P-150, P-152.
#[test]
fn releases_of_a_bay_with_keys(rt: HostRuntime) -> Result<(), Fail> {
    check_bay(&rt, rt.alloc(), KEYED)
}
