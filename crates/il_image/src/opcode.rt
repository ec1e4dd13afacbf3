// Opcodes: the first octet of an instruction.
ghost use Rattle.std.specs.Prelude.{◌≡◌};
ghost use Rattle.il_image.specs.Opcodes.{octet_of, opcode_of};
ghost use Rattle.il_image.specs.Opcodes as spec;

use crate::arithmetic::{ArithmeticOperation, Comparison, Width};
use bay_base::types::ElementaryType;

/// A version of the format. Version 2 adds LINT and TOF to version 1.
#[derive(Clone, Copy, PartialEq, Eq)]
pub enum Version {
    One,
    Two,
}

/// A connective of two BOOLs.
#[derive(Clone, Copy, PartialEq, Eq)]
pub enum Connective {
    And,
    Or,
    Xor,
}

/// How an instruction uses a slot.
#[derive(Clone, Copy, PartialEq, Eq)]
pub enum SlotUse {
    /// Pushes the slot's value.
    Load,
    /// Copies the top to the slot, and leaves it on the stack.
    Store,
    /// Sets the slot to TRUE if the top is TRUE.
    SetIf,
    /// Sets the slot to FALSE if the top is TRUE.
    ResetIf,
}

/// A conversion of an integer type to the next wider one, as an instruction of the machine. A
/// conversion in the text of a program is il_text's `Conversion`; neither crate depends on the
/// other.
#[derive(Clone, Copy, PartialEq, Eq)]
pub enum Widening {
    IntToDint,
    DintToLint,
}

/// When a jump of the machine is taken. A jump in the text of a program has il_text's `Condition`.
#[derive(Clone, Copy, PartialEq, Eq)]
pub enum When {
    Always,
    /// If the top is TRUE.
    IfTrue,
    /// If the top is FALSE.
    IfFalse,
}

/// How an instruction uses a timer.
#[derive(Clone, Copy, PartialEq, Eq)]
pub enum TimerUse {
    /// Pops the top as IN.
    SetInput,
    /// Pops the top as PT.
    SetPreset,
    /// Calls the timer.
    Run,
    /// Pushes Q.
    LoadOutput,
    /// Pushes ET.
    LoadElapsed,
}

/// The first octet of an instruction. The operands of the instruction are in the octets after it.
#[derive(Clone, Copy)]
pub enum Opcode {
    Halt,
    Push(ElementaryType),
    Drop,
    Slot(SlotUse),
    Not,
    Combine(Connective),
    Compute(ArithmeticOperation),
    Compare(Comparison),
    Widen(Widening),
    Jump(When),
    Timer(TimerUse),
}

impl Opcode {
    /// Returns the octet of an opcode.
    pub fn octet(self) -> u8
        ensures { result ≡ octet_of self }
    {
        match self {
            Opcode::Halt => 0x01,
            Opcode::Push(ElementaryType::Bool) => 0x02,
            Opcode::Push(ElementaryType::Int) => 0x03,
            Opcode::Push(ElementaryType::Dint) => 0x04,
            Opcode::Push(ElementaryType::Time) => 0x05,
            Opcode::Push(ElementaryType::Lint) => 0x23,
            Opcode::Drop => 0x06,
            Opcode::Slot(SlotUse::Load) => 0x07,
            Opcode::Slot(SlotUse::Store) => 0x08,
            Opcode::Slot(SlotUse::SetIf) => 0x09,
            Opcode::Slot(SlotUse::ResetIf) => 0x0A,
            Opcode::Not => 0x0B,
            Opcode::Combine(Connective::And) => 0x0C,
            Opcode::Combine(Connective::Or) => 0x0D,
            Opcode::Combine(Connective::Xor) => 0x0E,
            Opcode::Compute(ArithmeticOperation::Add) => 0x0F,
            Opcode::Compute(ArithmeticOperation::Sub) => 0x10,
            Opcode::Compute(ArithmeticOperation::Mul) => 0x11,
            Opcode::Compute(ArithmeticOperation::Div) => 0x12,
            Opcode::Compute(ArithmeticOperation::Mod) => 0x13,
            Opcode::Compare(Comparison::Gt) => 0x14,
            Opcode::Compare(Comparison::Ge) => 0x15,
            Opcode::Compare(Comparison::Eq) => 0x16,
            Opcode::Compare(Comparison::Ne) => 0x17,
            Opcode::Compare(Comparison::Le) => 0x18,
            Opcode::Compare(Comparison::Lt) => 0x19,
            Opcode::Widen(Widening::IntToDint) => 0x1A,
            Opcode::Widen(Widening::DintToLint) => 0x24,
            Opcode::Jump(When::Always) => 0x1B,
            Opcode::Jump(When::IfTrue) => 0x1C,
            Opcode::Jump(When::IfFalse) => 0x1D,
            Opcode::Timer(TimerUse::SetInput) => 0x1E,
            Opcode::Timer(TimerUse::SetPreset) => 0x1F,
            Opcode::Timer(TimerUse::Run) => 0x20,
            Opcode::Timer(TimerUse::LoadOutput) => 0x21,
            Opcode::Timer(TimerUse::LoadElapsed) => 0x22,
        }
    }

    /// Returns the opcode with this octet, or `None` if there is none.
    #[tactic(auto, unfolding(crate::specs::Opcodes::opcode_of))]
    pub fn of(octet: u8) -> Option<Opcode>
        ensures { result ≡ opcode_of octet }
    {
        Some(match octet {
            0x01 => Opcode::Halt,
            0x02 => Opcode::Push(ElementaryType::Bool),
            0x03 => Opcode::Push(ElementaryType::Int),
            0x04 => Opcode::Push(ElementaryType::Dint),
            0x05 => Opcode::Push(ElementaryType::Time),
            0x06 => Opcode::Drop,
            0x07 => Opcode::Slot(SlotUse::Load),
            0x08 => Opcode::Slot(SlotUse::Store),
            0x09 => Opcode::Slot(SlotUse::SetIf),
            0x0A => Opcode::Slot(SlotUse::ResetIf),
            0x0B => Opcode::Not,
            0x0C => Opcode::Combine(Connective::And),
            0x0D => Opcode::Combine(Connective::Or),
            0x0E => Opcode::Combine(Connective::Xor),
            0x0F => Opcode::Compute(ArithmeticOperation::Add),
            0x10 => Opcode::Compute(ArithmeticOperation::Sub),
            0x11 => Opcode::Compute(ArithmeticOperation::Mul),
            0x12 => Opcode::Compute(ArithmeticOperation::Div),
            0x13 => Opcode::Compute(ArithmeticOperation::Mod),
            0x14 => Opcode::Compare(Comparison::Gt),
            0x15 => Opcode::Compare(Comparison::Ge),
            0x16 => Opcode::Compare(Comparison::Eq),
            0x17 => Opcode::Compare(Comparison::Ne),
            0x18 => Opcode::Compare(Comparison::Le),
            0x19 => Opcode::Compare(Comparison::Lt),
            0x1A => Opcode::Widen(Widening::IntToDint),
            0x1B => Opcode::Jump(When::Always),
            0x1C => Opcode::Jump(When::IfTrue),
            0x1D => Opcode::Jump(When::IfFalse),
            0x1E => Opcode::Timer(TimerUse::SetInput),
            0x1F => Opcode::Timer(TimerUse::SetPreset),
            0x20 => Opcode::Timer(TimerUse::Run),
            0x21 => Opcode::Timer(TimerUse::LoadOutput),
            0x22 => Opcode::Timer(TimerUse::LoadElapsed),
            0x23 => Opcode::Push(ElementaryType::Lint),
            0x24 => Opcode::Widen(Widening::DintToLint),
            _ => return None,
        })
    }

    /// Returns whether a version has the opcode.
    pub fn is_known(self, version: Version) -> bool
        ensures { result ≡ spec.is_known version self }
    {
        match (version, self) {
            (Version::One, Opcode::Push(ElementaryType::Lint)) => false,
            (Version::One, Opcode::Widen(Widening::DintToLint)) => false,
            _ => true,
        }
    }
}

/// Returns the octet of a width.
pub(crate) fn width_octet(width: Width) -> u8
    ensures { result ≡ spec.width_octet width }
{
    match width {
        Width::Int => 0x02,
        Width::Dint => 0x03,
        Width::Lint => 0x05,
    }
}

/// Returns the width with this octet in a version, or `None` if there is none.
pub(crate) fn width_of(version: Version, octet: u8) -> Option<Width>
    ensures { result ≡ spec.width_of version octet }
{
    match octet {
        0x02 => Some(Width::Int),
        0x03 => Some(Width::Dint),
        0x05 if version == Version::Two => Some(Width::Lint),
        _ => None,
    }
}
