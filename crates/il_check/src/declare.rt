// The declarations of a program (IEC 61131-3:2003, 2.4.3): the meanings of names, and the faults.
ghost use Rattle.std.specs.Prelude.{◌≡◌, ℕ, List, [], ◌∷◌, ◌++◌, map, vec_len, length, is_some, option_copied, option_map, ◌<◌, IfErr, IfOk, OnOk, string_bytes};
ghost use Rattle.std.specs.BTreeMap.{get_by_text};
ghost use Rattle.std.specs.List.{list_all};
ghost use Rattle.std.specs.Option.{option_to_list};
ghost use Rattle.bay_base.specs.Names as names;
ghost use Rattle.il_text.specs.Views.{declared_name};
ghost use Rattle.il_check.specs.Faults.{first_fault_of, least_fault};
ghost use Rattle.il_check.specs.NamesView.{with_value};
ghost use Rattle.il_check.specs.DeclarationsView.{AreDeclarations, IsAfterDeclaration, AppendsParts, SameButExternals, SameButVariables, SameButTimers, external_named, variable_named, counts_in};
ghost use Rattle.il_check.specs.Declaring as spec;

use crate::fault::CheckFault;
use crate::names::{add_meaning, upper_case};
use crate::note::note_if;
use crate::resolve::typed_value;
use crate::rules::typed_number;
use crate::source_operand::Meaning;
use crate::typed::{External, Slot, Timer, Variable};
use bay_base::names::same_name;
use bay_base::point::Point;
use bay_base::text::Text;
use bay_base::types::{ElementaryType, TimerKind};
use il_image::value::Value;
use il_text::program::{Declaration, DeclaredType, Literal, VariableScope};
use std::alloc::{AllocError, Global};
use std::collections::BTreeMap;

// The maximum number of externals and variables that a program may declare.
const MAX_SLOTS: usize = 512;

// The maximum number of timers that a program may declare.
const MAX_TIMERS: usize = 64;

/// The declarations so far: what each name means, and the fault to report, if any.
#[derive(Drop)]
pub(crate) struct Declarations {
    pub(crate) alloc: Global,
    pub(crate) meanings: BTreeMap<String, Meaning>,
    pub(crate) externals: Vec<External>,
    pub(crate) variables: Vec<Variable>,
    pub(crate) timers: Vec<Timer>,
    pub(crate) found: Option<CheckFault>,
}

// The maximum length of a name, in characters.
const MAX_NAME: usize = 64;

// Returns whether a name may have this octet, case-insensitively.
fn is_name_octet(octet: u8) -> bool
    ensures { result ≡ spec.may_be_in_name octet }
{
    matches!(octet.to_ascii_uppercase(), b'A'..=b'Z' | b'0'..=b'9' | b'_')
}

// Returns whether a name may have each of the octets.
fn are_name_octets(octets: &[u8]) -> bool
    ensures { result ≡ list_all spec.may_be_in_name octets.now }
{
    octets.iter().all(|octet| is_name_octet(*octet))
}

// Returns whether a name consists of 1 to 64 letters, digits and underscores.
fn is_name(name: &str) -> bool
    ensures { result ≡ spec.is_name name.now }
{
    let octets = name.as_bytes();
    0 < octets.len() && octets.len() <= MAX_NAME && are_name_octets(octets)
}

// Returns the first point with this name, case-insensitively.
fn named_point<'a>(points: &'a [Point], name: &str) -> Option<&'a Point>
    ensures { option_copied result ≡ spec.named_point points.now name.now }
{
    points
        .iter()
        .find(|point| same_name(point.name.as_str(), name))
}

// Returns the point with this name, or `None` if there is none or the name is malformed.
fn point_of<'a>(points: &'a [Point], name: &str) -> Option<&'a Point>
    ensures { option_copied result ≡ spec.point_of points.now name.now }
{
    if is_name(name) {
        named_point(points, name)
    } else {
        None
    }
}

// Returns whether a declaration is in a VAR_EXTERNAL block.
fn is_external(scope: VariableScope) -> bool
    ensures { result ≡ spec.is_external scope }
{
    match scope {
        VariableScope::Local => false,
        VariableScope::External => true,
    }
}

// Returns the value if it is of this type.
fn of_type(kind: ElementaryType, value: Option<Value>) -> Option<Value>
    ensures { result ≡ spec.of_type kind value }
{
    match value {
        Some(value) if value.type_of().is(kind) => Some(value),
        _ => None,
    }
}

// Returns the value of a literal as one of this type, or `None` if it is not one.
fn literal_value(kind: ElementaryType, literal: Literal) -> Option<Value>
    ensures { result ≡ spec.literal_value kind literal }
{
    match literal {
        Literal::Number(number) => typed_number(kind, number),
        _ => of_type(kind, typed_value(literal)),
    }
}

// Returns the initial value of a variable of this type, or `None` if the literal does not fit it.
fn initial_value(kind: ElementaryType, literal: Option<Literal>) -> Option<Value>
    ensures { result ≡ spec.initial_value kind literal }
{
    match literal {
        Some(literal) => literal_value(kind, literal),
        None => Some(Value::default_of(kind)),
    }
}

// Returns whether the point has this type; true if there is no point.
fn point_has_type(point: Option<&Point>, kind: ElementaryType) -> bool
    ensures { result ≡ spec.point_has_type (option_copied point.entry) kind }
{
    match point {
        Some(point) => point.kind.is(kind),
        None => true,
    }
}

// Returns whether a declaration fits its type: an external has its point's type, a variable's
// literal fits it, and no point is declared as a timer.
fn is_typed(declaration: Declaration<'_>, point: Option<&Point>) -> bool
    ensures { result ≡ spec.is_typed declaration.entry.scope declaration.entry.kind
        (option_copied point.entry) declaration.entry.initial }
{
    match (declaration.scope, declaration.kind) {
        (VariableScope::Local, DeclaredType::Elementary(kind)) => {
            initial_value(kind, declaration.initial).is_some()
        }
        (VariableScope::Local, DeclaredType::Timer(_)) => true,
        (VariableScope::External, DeclaredType::Elementary(kind)) => point_has_type(point, kind),
        (VariableScope::External, DeclaredType::Timer(_)) => point.is_none(),
    }
}

// Returns whether there is a point and the program may write it.
fn is_writable(point: Option<&Point>) -> bool
    ensures { result ≡ spec.is_writable (option_copied point.entry) }
{
    match point {
        Some(point) => point.writable,
        None => false,
    }
}

// Returns the fault to report after a declaration, given whether its name was already declared and
// whether there is no room for one more.
fn declaration_fault(
    found: Option<CheckFault>,
    point: Option<&Point>,
    is_known: bool,
    is_full: bool,
    declaration: Declaration<'_>,
) -> Option<CheckFault>
    ensures { result ≡ first_fault_of found
        (spec.name_faults (option_copied point.entry) is_known is_full
        (declared_name declaration.entry)) }
{
    let line = declaration.line;
    let is_missing = is_external(declaration.scope) && point.is_none();
    let is_typed = is_typed(declaration, point);
    let found = note_if(found, is_missing, CheckFault::UnknownName { line });
    let found = note_if(found, is_known, CheckFault::DuplicateName { line });
    let found = note_if(found, !is_typed, CheckFault::TypeMismatch { line });
    note_if(found, is_full, CheckFault::TooMany { line })
}

impl Declarations {
    // Creates an empty set of declarations.
    fn new(alloc: Global) -> Self
        ensures nothing { (points : List Point) → AreDeclarations points [] result }
        ensures no_fault { result.found ≡ None }
    {
        Declarations {
            alloc,
            meanings: BTreeMap::new(alloc),
            externals: Vec::new(alloc),
            variables: Vec::new(alloc),
            timers: Vec::new(alloc),
            found: None,
        }
    }

    // Returns whether one more variable or timer would be too many.
    fn is_full(&self, kind: DeclaredType) -> bool
        ensures { result ≡ spec.is_full (counts_in self.now) kind }
    {
        match kind {
            DeclaredType::Elementary(_) => {
                self.externals.len().saturating_add(self.variables.len()) >= MAX_SLOTS
            }
            DeclaredType::Timer(_) => self.timers.len() >= MAX_TIMERS,
        }
    }

    // Returns the meaning of the name that is declared next.
    fn next_meaning(
        &self,
        scope: VariableScope,
        kind: DeclaredType,
        point: Option<&Point>,
    ) -> Meaning
        ensures { result ≡ spec.meaning_at (counts_in self.now) scope kind
            (option_copied point.entry) }
    {
        match (scope, kind) {
            (VariableScope::Local, DeclaredType::Elementary(kind)) => Meaning::Variable {
                slot: Slot::Variable(self.variables.len()),
                kind,
                writable: true,
            },
            (VariableScope::External, DeclaredType::Elementary(kind)) => Meaning::Variable {
                slot: Slot::External(self.externals.len()),
                kind,
                writable: is_writable(point),
            },
            (_, DeclaredType::Timer(_)) => Meaning::Timer(self.timers.len()),
        }
    }

    // Adds an external of a type, if its point exists.
    fn add_external(
        &mut self,
        name: Text,
        kind: ElementaryType,
        point: Option<&Point>,
    ) -> Result<(), AllocError>
        ensures externals { OnOk result (self.new.externals.items
            ≡ self.old.externals.items
            ++ option_to_list (external_named name kind (option_copied point.entry))) }
        ensures others { OnOk result (SameButExternals self.old self.new) }
    {
        if let Some(point) = point {
            self.externals.push(External {
                name,
                kind,
                writable: point.writable,
                source: point.source,
            })?;
        }
        Ok(())
    }

    // Adds a variable, if its initial value is valid.
    fn add_variable(&mut self, name: Text, initial: Option<Value>) -> Result<(), AllocError>
        ensures variables { OnOk result
            (self.new.variables.items
            ≡ self.old.variables.items ++ option_to_list (variable_named name initial)) }
        ensures others { OnOk result (SameButVariables self.old self.new) }
    {
        if let Some(initial) = initial {
            self.variables.push(Variable { name, initial })?;
        }
        Ok(())
    }

    // Adds a timer.
    fn add_timer(&mut self, name: Text, kind: TimerKind) -> Result<(), AllocError>
        ensures timers { OnOk result
            (self.new.timers.items
            ≡ self.old.timers.items ++ record { name = name; kind = kind } ∷ []) }
        ensures others { OnOk result (SameButTimers self.old self.new) }
    {
        self.timers.push(Timer { name, kind })?;
        Ok(())
    }

    // Adds what a declaration declares, under its name in upper case.
    fn add(
        &mut self,
        name: Text,
        declaration: Declaration<'_>,
        point: Option<&Point>,
    ) -> Result<(), AllocError>
        ensures { OnOk result (AppendsParts name (declared_name declaration.entry)
            (option_copied point.entry)
            self.old self.new) }
    {
        match declaration.kind {
            DeclaredType::Timer(kind) => self.add_timer(name, kind),
            DeclaredType::Elementary(kind) => match declaration.scope {
                VariableScope::External => self.add_external(name, kind, point),
                VariableScope::Local => self.add_variable(
                    name,
                    initial_value(kind, declaration.initial),
                ),
            },
        }
    }

    // Processes one declaration.
    fn declare(&mut self, points: &[Point], declaration: &Declaration<'_>) -> Result<(), AllocError>
        ensures { OnOk result (IsAfterDeclaration points.now (declared_name declaration.now)
            self.old self.new) }
    {
        let point = point_of(points, declaration.name);
        let is_full = self.is_full(declaration.kind);
        let meaning = self.next_meaning(declaration.scope, declaration.kind, point);
        let name = upper_case(self.alloc, declaration.name)?;
        let text = Text::from_str(self.alloc, name.as_str())?;
        let is_known = add_meaning(&mut self.meanings, name, meaning)?;
        self.found = declaration_fault(self.found, point, is_known, is_full, *declaration);
        self.add(text, *declaration, point)?;
        Ok(())
    }
}

/// Processes all declarations of a program. Fails only if an allocation fails, and never if there
/// are no declarations.
pub(crate) fn declare_all(
    alloc: Global,
    points: &[Point],
    declarations: &[Declaration<'_>],
) -> Result<Declarations, AllocError>
    ensures ok { IfOk result
        (λ d. AreDeclarations points.now (map declared_name declarations.now) d) }
    ensures found { IfOk result
        (λ d. d.found ≡ least_fault
        (spec.declarations_faults points.now [] (map declared_name declarations.now))) }
    ensures memory { IfErr result (λ e. 0 < length declarations.now) }
{
    let mut declared = Declarations::new(alloc);
    for declaration in declarations {
        declared.declare(points, declaration)?;
    }
    Ok(declared)
}
