// Chooses the test by which an undecided case is split. Any test is sound, so no clause says which
// one it is.
ghost use Rattle.std.specs.Prelude.{IfOk};
ghost use Rattle.bay_audit.specs.Rules.{IsUndecided};

use crate::answer::{StateDependencies, Verdict};
use crate::case::{Case, Test, only};
use crate::demand::{Demand, Goal};
use crate::program::AuditedProgram;
use crate::verdict::release_index;
use bay_audit_rules::rule::{ConditionItem, Relation};
use bay_base::position::Dbpos;
use bay_config::bay::{MeterField, Source, SwitchPoint};
use il_image::image::ImagePoint;
use il_image::instr::Instr;
use il_image::read::instr_at;
use il_image::value::Value;
use il_range::range::Positions;
use il_range::scan::ScanPrediction;
use std::alloc::{AllocError, Global};

const POSITIONS: [Dbpos; 4] = [Dbpos::Off, Dbpos::On, Dbpos::Intermediate, Dbpos::Bad];

// Returns the positions that a case allows a switch.
fn allowed_positions(case: &Case, switch: usize) -> Positions {
    Positions {
        intermediate: case.may_be(switch, Dbpos::Intermediate),
        off: case.may_be(switch, Dbpos::Off),
        on: case.may_be(switch, Dbpos::On),
        bad: case.may_be(switch, Dbpos::Bad),
    }
}

// Returns the positions of the first set that are in the second, or those that are not.
fn part_of(one: Positions, other: Positions, is_in: bool) -> Positions {
    Positions {
        intermediate: one.intermediate && other.intermediate == is_in,
        off: one.off && other.off == is_in,
        on: one.on && other.on == is_in,
        bad: one.bad && other.bad == is_in,
    }
}

// Returns the positions that are in one of the sets alone.
fn difference(one: Positions, other: Positions) -> Positions {
    Positions {
        intermediate: one.intermediate != other.intermediate,
        off: one.off != other.off,
        on: one.on != other.on,
        bad: one.bad != other.bad,
    }
}

// Returns whether a set has a position.
fn has_any(positions: Positions) -> bool {
    positions.intermediate || positions.off || positions.on || positions.bad
}

// Returns whether a set parts the positions that a case allows in two.
fn splits(allowed: Positions, positions: Positions) -> bool {
    has_any(part_of(allowed, positions, true)) && has_any(part_of(allowed, positions, false))
}

// Returns whether two sets part the positions that a case allows in the same way.
fn split_alike(allowed: Positions, one: Positions, other: Positions) -> bool {
    let differs = difference(one, other);
    !has_any(part_of(allowed, differs, true)) || !has_any(part_of(allowed, differs, false))
}

// Returns the test of a set of positions; `None` if the case decides it.
fn set_part(allowed: Positions, switch: usize, positions: Positions) -> Option<Test> {
    if splits(allowed, positions) {
        Some(Test::Position { switch, positions })
    } else {
        None
    }
}

// Returns the test of the first position of a switch that the case leaves open.
fn any_position_test(case: &Case, switch: usize) -> Option<Test> {
    let allowed = allowed_positions(case, switch);
    POSITIONS
        .iter()
        .find_map(|position| set_part(allowed, switch, only(*position)))
}

// The sets of positions by which a test parts the four positions in two, those of one position
// first.
const SETS: [[Dbpos; 2]; 7] = [
    [Dbpos::Off, Dbpos::Off],
    [Dbpos::On, Dbpos::On],
    [Dbpos::Intermediate, Dbpos::Intermediate],
    [Dbpos::Bad, Dbpos::Bad],
    [Dbpos::Off, Dbpos::On],
    [Dbpos::Intermediate, Dbpos::Off],
    [Dbpos::Intermediate, Dbpos::On],
];

// Returns a set with the positions of another.
fn unite(one: Positions, other: Positions) -> Positions {
    Positions {
        intermediate: one.intermediate || other.intermediate,
        off: one.off || other.off,
        on: one.on || other.on,
        bad: one.bad || other.bad,
    }
}

// Returns the set of two positions.
fn set_of_two(two: [Dbpos; 2]) -> Positions {
    unite(only(two[0]), only(two[1]))
}

// Returns whether a goal distinguishes these positions of a switch from the others.
fn is_distinguished(
    allowed: Positions,
    switch: usize,
    positions: Positions,
    prediction: &ScanPrediction,
    goal: usize,
) -> bool {
    for two in SETS {
        let told = set_of_two(two);
        if split_alike(allowed, told, positions)
            && prediction.sources.depends_on_positions(goal, switch, told)
        {
            return true;
        }
    }
    false
}

// Returns the test of a set of positions of a switch that the goal distinguishes and that the case
// leaves open.
fn set_test(
    allowed: Positions,
    switch: usize,
    prediction: &ScanPrediction,
    goal: usize,
) -> Option<Test> {
    for two in SETS {
        let positions = set_of_two(two);
        if splits(allowed, positions)
            && is_distinguished(allowed, switch, positions, prediction, goal)
        {
            return Some(Test::Position { switch, positions });
        }
    }
    None
}

// Returns the test of a switch by its point of a position: whether it has the position, if the goal
// distinguishes it; else by another set that the goal distinguishes.
fn point_test(
    case: &Case,
    switch: usize,
    position: Dbpos,
    prediction: &ScanPrediction,
    goal: usize,
) -> Option<Test> {
    let allowed = allowed_positions(case, switch);
    let test = set_part(allowed, switch, only(position));
    if test.is_some() && is_distinguished(allowed, switch, only(position), prediction, goal) {
        return test;
    }
    set_test(allowed, switch, prediction, goal).or(test)
}

// Returns the test of an input; `None` if the case decides it.
fn input_test(case: &Case, input: usize) -> Option<Test> {
    if case.input_may(input, true) && case.input_may(input, false) {
        Some(Test::Input { input })
    } else {
        None
    }
}

// Returns the test whether a measured value is at most a number; `None` if the case decides it.
fn at_most_test(case: &Case, meter: usize, field: MeterField, most: i32) -> Option<Test> {
    let number = i64::from(most);
    if case.low_of(meter, field) <= number && number < case.high_of(meter, field) {
        Some(Test::AtMost { meter, field, most })
    } else {
        None
    }
}

// Returns the test whether a measured value is below a number; if the case decides that, whether it
// is at most this number.
fn measure_test(case: &Case, meter: usize, field: MeterField, number: i32) -> Option<Test> {
    number
        .checked_sub(1)
        .and_then(|below| at_most_test(case, meter, field, below))
        .or_else(|| at_most_test(case, meter, field, number))
}

// Returns the test of a measured value for its relation to a number; `None` if the case decides it.
fn relation_test(
    case: &Case,
    meter: usize,
    field: MeterField,
    relation: Relation,
    number: i32,
) -> Option<Test> {
    match relation {
        Relation::AtMost | Relation::Greater => at_most_test(case, meter, field, number),
        Relation::Less | Relation::AtLeast | Relation::Equal | Relation::Unequal => {
            measure_test(case, meter, field, number)
        }
    }
}

// Returns the set of positions of a switch which the items from an index on add to another by OR,
// and the index of the item after them.
fn joined_items(
    items: &[ConditionItem],
    first: usize,
    switch: usize,
    positions: Positions,
) -> (Positions, usize) {
    let mut positions = positions;
    let mut next = first;
    for _ in 0..3 {
        match (items.get(next), items.get(next.saturating_add(1))) {
            (
                Some(
                    ConditionItem::Position {
                        switch: at,
                        position,
                    },
                ),
                Some(ConditionItem::Or),
            ) if *at == switch => {
                positions = unite(positions, only(*position));
                next = next.saturating_add(2);
            }
            _ => return (positions, next),
        }
    }
    (positions, next)
}

// Returns the test of the item of a condition at an index, and the index of the next item. The
// positions of a switch that are joined by OR are one test. `None` if the case decides it.
fn item_test(case: &Case, items: &[ConditionItem], place: usize) -> (Option<Test>, usize) {
    let after = place.saturating_add(1);
    let Some(item) = items.get(place) else {
        return (None, after);
    };
    match *item {
        ConditionItem::Position { switch, position } => {
            let (positions, next) = joined_items(items, after, switch, only(position));
            let allowed = allowed_positions(case, switch);
            (set_part(allowed, switch, positions), next)
        }
        ConditionItem::Input { input } => (input_test(case, input), after),
        ConditionItem::Measure {
            meter,
            field,
            relation,
            value,
        } => (relation_test(case, meter, field, relation, value), after),
        ConditionItem::True | ConditionItem::Not | ConditionItem::And | ConditionItem::Or => {
            (None, after)
        }
    }
}

// Returns the first test of a condition that the case leaves open.
fn condition_split(case: &Case, items: &[ConditionItem]) -> Option<Test> {
    let mut next = 0;
    for place in 0..items.len() {
        if place == next {
            let (test, after) = item_test(case, items, place);
            if test.is_some() {
                return test;
            }
            next = after;
        }
    }
    None
}

// Returns the test of the position of an item by itself; `None` if it has none, or the case decides
// it.
fn single_test(case: &Case, item: ConditionItem) -> Option<Test> {
    match item {
        ConditionItem::Position { switch, position } => set_part(
            allowed_positions(case, switch),
            switch,
            only(position),
        ),
        _ => None,
    }
}

// Returns the first test of one position that a condition has and the case leaves open. The truth
// set of an OR of positions does not say that they are all that the case allows.
fn single_split(case: &Case, items: &[ConditionItem]) -> Option<Test> {
    items.iter().find_map(|item| single_test(case, *item))
}

// Returns the test of a measured value at the first constant of the program for which the case
// leaves one open.
fn constant_test(code: &[u8], case: &Case, meter: usize, field: MeterField) -> Option<Test> {
    let mut next = 0;
    for place in 0..code.len() {
        if place == next {
            let (instr, after) = instr_at(code, place)?;
            next = after;
            if let Instr::Push(Value::Long(number)) = instr {
                let test = measure_test(case, meter, field, number);
                if test.is_some() {
                    return test;
                }
            }
        }
    }
    None
}

// Returns the test of a source; `None` if the case decides it.
fn source_test(
    code: &[u8],
    case: &Case,
    source: Source,
    prediction: &ScanPrediction,
    goal: usize,
) -> Option<Test> {
    match source {
        Source::Switch { switch, point } => match point {
            SwitchPoint::Open => point_test(case, switch, Dbpos::Off, prediction, goal),
            SwitchPoint::Closed => point_test(case, switch, Dbpos::On, prediction, goal),
            SwitchPoint::Position => any_position_test(case, switch),
            SwitchPoint::EnableOpen | SwitchPoint::EnableClose => None,
        },
        Source::Input { input } => input_test(case, input),
        Source::Meter { meter, field } => constant_test(code, case, meter, field),
    }
}

// Returns the slot of the writable point with this index among the writable points.
fn slot_of(points: &[ImagePoint], place: usize) -> Option<usize> {
    let mut left = place;
    for (slot, point) in points.iter().enumerate() {
        if point.writable {
            if left == 0 {
                return Some(slot);
            }
            left -= 1;
        }
    }
    None
}

// Returns the first test of a source that a goal, by its slot, depends on and that the case leaves
// open.
fn program_split(
    program: &AuditedProgram<'_>,
    case: &Case,
    prediction: &ScanPrediction,
    goal: usize,
) -> Option<Test> {
    let image = program.image();
    let slots = image
        .points()
        .iter()
        .enumerate()
        .filter(|(_, point)| !point.writable);
    for ((slot, _), source) in slots.zip(program.reads().iter()) {
        if prediction.sources.depends_on_slot(goal, slot) {
            let test = source_test(image.code(), case, *source, prediction, goal);
            if test.is_some() {
                return test;
            }
        }
    }
    None
}

// Returns the slot of a goal: that of a release, or the one that represents a timer.
fn goal_slot(program: &AuditedProgram<'_>, goal: Goal, prediction: &ScanPrediction) -> usize {
    match goal {
        Goal::Release { switch, operation } => release_index(program.writes(), switch, operation)
            .and_then(|place| slot_of(program.image().points(), place))
            .unwrap_or(0),
        Goal::Idle { timer } | Goal::Begun { timer } | Goal::Lasting { timer } => {
            prediction.ranges.len().saturating_add(timer)
        }
    }
}

/// Returns the slots and the timers that a goal may depend on. Fails only if an allocation fails.
pub fn dependencies_of(
    alloc: Global,
    program: &AuditedProgram<'_>,
    goal: Goal,
    prediction: &ScanPrediction,
) -> Result<StateDependencies, AllocError> {
    let goal = goal_slot(program, goal, prediction);
    let mut slots = Vec::new(alloc);
    for slot in 0..prediction.ranges.len() {
        if prediction.sources.depends_on_slot(goal, slot) {
            slots.push(slot)?;
        }
    }
    let mut timers = Vec::new(alloc);
    for timer in 0..program.image().timers().len() {
        if prediction.sources.depends_on_timer(goal, timer) {
            timers.push(timer)?;
        }
    }
    Ok(StateDependencies { slots, timers })
}

/// Returns the verdict of a pass that decides nothing: the next test, or what the goal may depend
/// on. Fails only if an allocation fails.
pub fn find_split(
    alloc: Global,
    program: &AuditedProgram<'_>,
    demand: &Demand,
    case: &Case,
    prediction: &ScanPrediction,
) -> Result<Verdict, AllocError>
    ensures { IfOk result IsUndecided }
{
    let asked = condition_split(case, demand.when.as_slice()).or_else(|| condition_split(
        case,
        demand.unless.as_slice(),
    ));
    if let Some(test) = asked {
        return Ok(Verdict::Split(test));
    }
    let slot = goal_slot(program, demand.goal, prediction);
    if let Some(test) = program_split(program, case, prediction, slot) {
        return Ok(Verdict::Split(test));
    }
    let single = single_split(case, demand.when.as_slice()).or_else(|| single_split(
        case,
        demand.unless.as_slice(),
    ));
    if let Some(test) = single {
        return Ok(Verdict::Split(test));
    }
    let depends_on = dependencies_of(alloc, program, demand.goal, prediction)?;
    Ok(Verdict::Open(depends_on))
}
