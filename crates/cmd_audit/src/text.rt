// The lines of an audit.
ghost use Rattle.std.specs.Prelude.{◌≡◌, ◌++◌, codes, OnOk, slice_get, map, zip};
ghost use Rattle.std.specs.Fmt.{decimal, signed_decimal};
ghost use Rattle.std.specs.List.{list_all};
ghost use Rattle.cmd_audit.specs.Text as spec;

use crate::state_names::StateNames;
use bay_audit::answer::{CaseRelease, Release, ReportedCase, RuleAnswer, StateDependencies};
use bay_audit::case::Case;
use bay_audit_rules::rule::Rule;
use bay_base::position::Dbpos;
use bay_base::switch::Operation;
use bay_base::text::Text;
use bay_config::bay::{Bay, MeterField, Point, Source, SwitchPoint};
use itoa::Buffer;
use std::alloc::AllocError;

// Adds a number.
fn put_number(text: &mut Vec<u8>, number: u64) -> Result<(), AllocError>
    ensures { OnOk result (text.new.items ≡ text.old.items ++ decimal number) }
{
    text.extend_from_slice(Buffer::new().format(number).as_bytes())
}

// Adds a number with its sign.
fn put_signed(text: &mut Vec<u8>, number: i64) -> Result<(), AllocError>
    ensures { OnOk result (text.new.items ≡ text.old.items ++ signed_decimal number) }
{
    text.extend_from_slice(Buffer::new().format(number).as_bytes())
}

// Adds the digit of a position, if the switch may have it, after a bar if another digit precedes
// it.
fn put_position(
    text: &mut Vec<u8>,
    may_be: bool,
    is_behind: bool,
    digit: &[u8],
) -> Result<(), AllocError>
    ensures { OnOk result
        (text.new.items ≡ text.old.items ++ spec.position_text may_be is_behind digit.now) }
{
    if !may_be {
        return Ok(());
    }
    if is_behind {
        text.extend_from_slice(b"|")?;
    }
    text.extend_from_slice(digit)
}

// Adds the positions that a switch may have.
fn put_positions(text: &mut Vec<u8>, case: &Case, switch: usize) -> Result<(), AllocError>
    ensures { OnOk result
        (text.new.items ≡ text.old.items ++ spec.positions_text case.now switch) }
{
    let intermediate = case.may_be(switch, Dbpos::Intermediate);
    let off = case.may_be(switch, Dbpos::Off);
    let on = case.may_be(switch, Dbpos::On);
    let bad = case.may_be(switch, Dbpos::Bad);
    put_position(text, intermediate, false, b"0")?;
    put_position(text, off, intermediate, b"1")?;
    put_position(text, on, intermediate || off, b"2")?;
    put_position(text, bad, intermediate || off || on, b"3")
}

// Returns whether a switch may have each position.
fn is_any_position(case: &Case, switch: usize) -> bool
    ensures { result ≡ spec.is_any_position case.now switch }
{
    case.may_be(switch, Dbpos::Intermediate)
        && case.may_be(switch, Dbpos::Off)
        && case.may_be(switch, Dbpos::On)
        && case.may_be(switch, Dbpos::Bad)
}

// Adds ` NAME=`.
fn put_name(text: &mut Vec<u8>, name: &str) -> Result<(), AllocError>
    ensures { OnOk result (text.new.items ≡ text.old.items ++ spec.name_text name.now) }
{
    text.extend_from_slice(b" ")?;
    text.extend_from_slice(name.as_bytes())?;
    text.extend_from_slice(b"=")
}

// Adds the positions that a case allows the switch with this id, unless it allows each.
fn put_switch_positions(
    text: &mut Vec<u8>,
    case: &Case,
    switch: usize,
    id: &str,
) -> Result<(), AllocError>
    ensures { OnOk result
        (text.new.items ≡ text.old.items ++ spec.switch_positions case.now switch id.now) }
{
    if is_any_position(case, switch) {
        return Ok(());
    }
    put_name(text, id)?;
    put_positions(text, case, switch)
}

// Adds the positions that a case allows a switch, unless it allows each.
fn put_switch(text: &mut Vec<u8>, bay: &Bay, case: &Case, switch: usize) -> Result<(), AllocError>
    ensures { OnOk result (text.new.items ≡ text.old.items
        ++ spec.switch_text case.now switch (slice_get bay.now.switches switch)) }
{
    match bay.switches.as_slice().get(switch) {
        Some(found) => put_switch_positions(text, case, switch, found.id.as_str()),
        None => Ok(()),
    }
}

// Adds the value that a case allows an input, unless it allows both.
fn put_input(text: &mut Vec<u8>, case: &Case, input: usize, name: &str) -> Result<(), AllocError>
    ensures { OnOk result
        (text.new.items ≡ text.old.items ++ spec.input_text case.now input name.now) }
{
    let is_true = case.input_may(input, true);
    if is_true && case.input_may(input, false) {
        return Ok(());
    }
    put_name(text, name)?;
    let digit: &[u8] = if is_true { b"1" } else { b"0" };
    text.extend_from_slice(digit)
}

// Adds a range of numbers.
fn put_range(text: &mut Vec<u8>, low: i64, high: i64) -> Result<(), AllocError>
    ensures { OnOk result (text.new.items ≡ text.old.items ++ spec.range_text low high) }
{
    put_signed(text, low)?;
    if low == high {
        return Ok(());
    }
    text.extend_from_slice(b"..")?;
    put_signed(text, high)
}

// Adds the range that a case allows a measured value, unless it allows each value.
fn put_measure(
    text: &mut Vec<u8>,
    case: &Case,
    meter: usize,
    field: MeterField,
    name: &str,
) -> Result<(), AllocError>
    ensures { OnOk result
        (text.new.items ≡ text.old.items ++ spec.measure_text case.now meter field name.now) }
{
    let low = case.low_of(meter, field);
    let high = case.high_of(meter, field);
    if low == i64::from(i32::MIN) && high == i64::from(i32::MAX) {
        return Ok(());
    }
    put_name(text, name)?;
    put_range(text, low, high)
}

// Adds the values that a case allows the source of a point. A switch is written at the point of its
// position.
fn put_point(text: &mut Vec<u8>, bay: &Bay, case: &Case, point: &Point) -> Result<(), AllocError>
    ensures { OnOk result
        (text.new.items ≡ text.old.items ++ spec.point_text bay.now case.now point.now) }
{
    match point.source {
        Source::Switch {
            switch,
            point: SwitchPoint::Position,
        } => put_switch(text, bay, case, switch),
        Source::Switch { .. } => Ok(()),
        Source::Input { input } => put_input(text, case, input, point.name.as_str()),
        Source::Meter { meter, field } => {
            put_measure(text, case, meter, field, point.name.as_str())
        }
    }
}

/// Adds a case: ` ID=P`, ` NAME=V`, ` NAME=N` or ` NAME=N..M` for each switch, input and measured
/// value that it restricts, in the order of the bay file. Fails only if an allocation fails.
pub fn put_case(text: &mut Vec<u8>, bay: &Bay, case: &Case) -> Result<(), AllocError>
    ensures { OnOk result (text.new.items ≡ text.old.items ++ spec.case_text bay.now case.now) }
{
    for point in bay.points.as_slice() {
        put_point(text, bay, case, point)?;
    }
    Ok(())
}

// Adds the name at an index, or, if there is none, a word and the index.
fn put_named(
    text: &mut Vec<u8>,
    names: &[Text],
    index: usize,
    word: &[u8],
) -> Result<(), AllocError>
    ensures { OnOk result (text.new.items ≡ text.old.items
        ++ spec.named_text word.now index (slice_get names.now index)) }
{
    text.extend_from_slice(b" ")?;
    match names.get(index) {
        Some(name) => text.extend_from_slice(name.as_str().as_bytes()),
        None => {
            text.extend_from_slice(word)?;
            put_number(text, index as u64)
        }
    }
}

// Adds the name of a slot: that of a point, or of a variable.
fn put_slot(text: &mut Vec<u8>, names: &StateNames<'_>, slot: usize) -> Result<(), AllocError>
    ensures { OnOk result
        (text.new.items ≡ text.old.items ++ spec.slot_text names.now slot) }
{
    if slot < names.points.len() {
        text.extend_from_slice(b" ")?;
        return text.extend_from_slice(names.points[slot].name.as_str().as_bytes());
    }
    put_named(
        text,
        names.declared.variables(),
        slot - names.points.len(),
        b"variable",
    )
}

// Adds the name of a timer.
fn put_timer(text: &mut Vec<u8>, names: &StateNames<'_>, timer: usize) -> Result<(), AllocError>
    ensures { OnOk result
        (text.new.items ≡ text.old.items ++ spec.timer_text names.now timer) }
{
    put_named(text, names.declared.timers(), timer, b"timer")
}

// Adds what an answer depends on, if anything is known: a word, and the names of points, variables
// and timers.
fn put_dependencies(
    text: &mut Vec<u8>,
    word: &[u8],
    names: &StateNames<'_>,
    depends_on: &StateDependencies,
) -> Result<(), AllocError>
    ensures { OnOk result
        (text.new.items ≡ text.old.items
        ++ spec.dependencies_text word.now names.now depends_on.now) }
{
    if depends_on.slots.as_slice().is_empty() && depends_on.timers.as_slice().is_empty() {
        return Ok(());
    }
    text.extend_from_slice(word)?;
    for slot in depends_on.slots.as_slice() {
        put_slot(text, names, *slot)?;
    }
    for timer in depends_on.timers.as_slice() {
        put_timer(text, names, *timer)?;
    }
    Ok(())
}

// Adds a word, the id of a switch and an operation.
fn put_operation_of(
    text: &mut Vec<u8>,
    word: &[u8],
    id: &str,
    operation: Operation,
) -> Result<(), AllocError>
    ensures { OnOk result
        (text.new.items ≡ text.old.items ++ spec.switch_operation_text word.now id.now operation) }
{
    text.extend_from_slice(word)?;
    text.extend_from_slice(id.as_bytes())?;
    let operation: &[u8] = match operation {
        Operation::Open => b" open",
        Operation::Close => b" close",
    };
    text.extend_from_slice(operation)
}

/// Adds a word, the id of the switch at an index, if the bay has it, and an operation. Fails only
/// if an allocation fails.
pub fn put_switch_operation(
    text: &mut Vec<u8>,
    bay: &Bay,
    word: &[u8],
    switch: usize,
    operation: Operation,
) -> Result<(), AllocError>
    ensures { OnOk result (text.new.items ≡ text.old.items
        ++ spec.switch_operation_text word.now (spec.id_of (slice_get bay.now.switches switch))
        operation) }
{
    match bay.switches.as_slice().get(switch) {
        Some(found) => put_operation_of(text, word, found.id.as_str(), operation),
        None => put_operation_of(text, word, "", operation),
    }
}

// Adds the beginning of the line of a rule's answer: the rule's line, its switch and its operation.
fn put_rule_head(text: &mut Vec<u8>, bay: &Bay, rule: &Rule) -> Result<(), AllocError>
    ensures { OnOk result
        (text.new.items ≡ text.old.items ++ spec.rule_start_text bay.now rule.now) }
{
    text.extend_from_slice(b"rule ")?;
    put_number(text, rule.line as u64)?;
    put_switch_operation(text, bay, b" ", rule.switch, rule.operation)
}

/// Adds that a rule or a release holds, and by how many cases. Fails only if an allocation fails.
pub fn put_holds(text: &mut Vec<u8>, cases: u32) -> Result<(), AllocError>
    ensures { OnOk result (text.new.items ≡ text.old.items ++ spec.holds_text cases) }
{
    text.extend_from_slice(b" holds cases=")?;
    put_number(text, u64::from(cases))
}

// Adds a rule's answer.
fn put_rule_answer(
    text: &mut Vec<u8>,
    bay: &Bay,
    names: &StateNames<'_>,
    answer: &RuleAnswer,
) -> Result<(), AllocError>
    ensures { OnOk result
        (text.new.items ≡ text.old.items ++ spec.verdict_text bay.now names.now answer.now) }
{
    match answer {
        RuleAnswer::Holds { cases } => put_holds(text, *cases),
        RuleAnswer::Broken { case } => {
            text.extend_from_slice(b" broken")?;
            put_case(text, bay, case)
        }
        RuleAnswer::Open { case, depends_on } => {
            text.extend_from_slice(b" open")?;
            put_case(text, bay, case)?;
            put_dependencies(text, b" by", names, depends_on)
        }
        RuleAnswer::Since { timer, cases } => {
            put_holds(text, *cases)?;
            text.extend_from_slice(b" by")?;
            put_timer(text, names, *timer)
        }
        RuleAnswer::TooMany => text.extend_from_slice(b" many"),
    }
}

/// Adds the line of a rule's answer. Fails only if an allocation fails.
pub fn put_answer(
    text: &mut Vec<u8>,
    bay: &Bay,
    names: &StateNames<'_>,
    rule: &Rule,
    answer: &RuleAnswer,
) -> Result<(), AllocError>
    ensures { OnOk result (text.new.items ≡ text.old.items
        ++ spec.answer_text bay.now names.now (rule.now, answer.now)) }
{
    put_rule_head(text, bay, rule)?;
    put_rule_answer(text, bay, names, answer)?;
    text.extend_from_slice(b"\n")
}

// Adds a word and a case.
fn put_word(text: &mut Vec<u8>, bay: &Bay, word: &[u8], case: &Case) -> Result<(), AllocError>
    ensures { OnOk result
        (text.new.items ≡ text.old.items ++ (word.now ++ spec.case_text bay.now case.now)) }
{
    text.extend_from_slice(word)?;
    put_case(text, bay, case)
}

// Adds a case of a release, and whether the switch is released in it.
fn put_case_of_release(
    text: &mut Vec<u8>,
    bay: &Bay,
    names: &StateNames<'_>,
    release: &ReportedCase,
) -> Result<(), AllocError>
    ensures { OnOk result (text.new.items ≡ text.old.items
        ++ spec.case_release_text bay.now names.now release.now.case release.now.release) }
{
    match &release.release {
        CaseRelease::Released => put_word(text, bay, b"released", &release.case),
        CaseRelease::Refused => put_word(text, bay, b"blocked", &release.case),
        CaseRelease::Depends(depends_on) => {
            put_word(text, bay, b"depends", &release.case)?;
            put_dependencies(text, b" on", names, depends_on)
        }
    }
}

// Adds the line of a case of a release.
fn put_case_line(
    text: &mut Vec<u8>,
    bay: &Bay,
    names: &StateNames<'_>,
    release: &ReportedCase,
) -> Result<(), AllocError>
    ensures { OnOk result
        (text.new.items ≡ text.old.items ++ spec.reported_case_text bay.now names.now release.now) }
{
    put_case_of_release(text, bay, names, release)?;
    text.extend_from_slice(b"\n")
}

// Adds the number of the cases of a release and the line of each.
fn put_cases(
    text: &mut Vec<u8>,
    bay: &Bay,
    names: &StateNames<'_>,
    cases: &[ReportedCase],
) -> Result<(), AllocError>
    ensures { OnOk result
        (text.new.items ≡ text.old.items ++ spec.cases_text bay.now names.now cases.now) }
{
    text.extend_from_slice(b" cases=")?;
    put_number(text, cases.len() as u64)?;
    text.extend_from_slice(b"\n")?;
    for release in cases {
        put_case_line(text, bay, names, release)?;
    }
    Ok(())
}

// Adds the lines of a release of the switch with this id.
fn put_release(
    text: &mut Vec<u8>,
    bay: &Bay,
    names: &StateNames<'_>,
    id: &str,
    release: &Release,
) -> Result<(), AllocError>
    ensures { OnOk result (text.new.items ≡ text.old.items
        ++ spec.release_lines bay.now names.now id.now release.now) }
{
    put_operation_of(text, b"release ", id, release.operation)?;
    if release.left.as_slice().is_empty() {
        put_cases(text, bay, names, release.cases.as_slice())
    } else {
        text.extend_from_slice(b" many\n")
    }
}

/// Adds the lines of a release, if the bay has its switch. Fails only if an allocation fails.
pub fn put_release_of(
    text: &mut Vec<u8>,
    bay: &Bay,
    names: &StateNames<'_>,
    release: &Release,
) -> Result<(), AllocError>
    ensures { OnOk result
        (text.new.items ≡ text.old.items ++ spec.release_text bay.now names.now release.now) }
{
    match bay.switches.as_slice().get(release.switch) {
        Some(found) => put_release(text, bay, names, found.id.as_str(), release),
        None => Ok(()),
    }
}

// Adds a word, the id of a switch, an operation, and whether it is released.
fn put_state(
    text: &mut Vec<u8>,
    names: &StateNames<'_>,
    word: &[u8],
    id: &str,
    operation: Operation,
    release: &CaseRelease,
) -> Result<(), AllocError>
    ensures { OnOk result (text.new.items
        ≡ text.old.items ++ (spec.switch_operation_text word.now id.now operation
        ++ (spec.lost_release_text names.now release.now ++ codes "\n"))) }
{
    put_operation_of(text, word, id, operation)?;
    match release {
        CaseRelease::Released => text.extend_from_slice(b" released\n"),
        CaseRelease::Refused => text.extend_from_slice(b" blocked\n"),
        CaseRelease::Depends(depends_on) => {
            text.extend_from_slice(b" depends")?;
            put_dependencies(text, b" on", names, depends_on)?;
            text.extend_from_slice(b"\n")
        }
    }
}

// Adds the line of a release while the process is lost, if the bay has its switch.
fn put_lost_of(
    text: &mut Vec<u8>,
    bay: &Bay,
    names: &StateNames<'_>,
    release: &Release,
) -> Result<(), AllocError>
    ensures { OnOk result
        (text.new.items ≡ text.old.items ++ spec.lost_text bay.now names.now release.now) }
{
    match bay.switches.as_slice().get(release.switch) {
        Some(found) => put_state(
            text,
            names,
            b"lost ",
            found.id.as_str(),
            release.operation,
            &release.lost,
        ),
        None => Ok(()),
    }
}

// Adds the line of a release by the first scan, if the bay has its switch.
fn put_start_of(
    text: &mut Vec<u8>,
    bay: &Bay,
    names: &StateNames<'_>,
    release: &Release,
) -> Result<(), AllocError>
    ensures { OnOk result
        (text.new.items ≡ text.old.items ++ spec.start_text bay.now names.now release.now) }
{
    match bay.switches.as_slice().get(release.switch) {
        Some(found) => put_state(
            text,
            names,
            b"start ",
            found.id.as_str(),
            release.operation,
            &release.start,
        ),
        None => Ok(()),
    }
}

/// Adds the lines of the releases while the process is lost, then those of the releases by the
/// first scan. Fails only if an allocation fails.
pub fn put_states(
    text: &mut Vec<u8>,
    bay: &Bay,
    names: &StateNames<'_>,
    releases: &[Release],
) -> Result<(), AllocError>
    ensures { OnOk result
        (text.new.items ≡ text.old.items ++ spec.states_text bay.now names.now releases.now) }
{
    for release in releases {
        put_lost_of(text, bay, names, release)?;
    }
    for release in releases {
        put_start_of(text, bay, names, release)?;
    }
    Ok(())
}

/// Returns whether a rule holds.
pub fn is_passed(answer: &RuleAnswer) -> bool
    ensures { result ≡ spec.is_passed answer.now }
{
    match answer {
        RuleAnswer::Holds { .. } | RuleAnswer::Since { .. } => true,
        RuleAnswer::Broken { .. } | RuleAnswer::Open { .. } | RuleAnswer::TooMany => false,
    }
}

/// Returns whether each rule holds.
pub fn are_passed(answers: &[RuleAnswer]) -> bool
    ensures { result ≡ list_all spec.is_passed answers.now }
{
    answers.iter().all(|answer| is_passed(answer))
}
