// Instructions, and their spelling in octets.
ghost use Rattle.std.specs.Prelude.{◌≡◌, ◌++◌, OnErr, OnOk};
ghost use Rattle.il_image.specs.Growth.{Extends};
ghost use Rattle.il_image.specs.Spelling.{opcode_of_instr, operand_of, spelling};

use crate::arithmetic::{ArithmeticOperation, Comparison, Width};
use crate::opcode::{Connective, Opcode, SlotUse, TimerUse, When, Widening, width_octet};
use crate::value::Value;
use crate::write::{Size, push_number, push_octet, push_signed};
use std::alloc::AllocError;

/// An instruction of the stack machine. Slots and timers are numbered from 0. A jump distance is in
/// octets, forward from the next instruction.
#[derive(Clone, Copy, PartialEq, Eq)]
pub enum Instr {
    /// Ends the run.
    Halt,
    /// Pushes a value.
    Push(Value),
    /// Pops the top.
    Drop,
    /// Reads or writes the slot with this number.
    Slot(SlotUse, u16),
    /// Negates the top, a BOOL.
    Not,
    /// Pops two BOOLs and pushes the result of the connective.
    Combine(Connective),
    /// Pops two numbers of the width, the second operand on top, and pushes the result.
    Compute(ArithmeticOperation, Width),
    /// Pops two values of the same type, the second operand on top, and pushes a BOOL.
    Compare(Comparison),
    /// Widens the top.
    Widen(Widening),
    /// Jumps by this distance, always or depending on the top, which stays on the stack.
    Jump(When, u16),
    /// Uses the timer with this number.
    Timer(TimerUse, u16),
}

impl Instr {
    /// Returns the opcode of an instruction.
    pub fn opcode(self) -> Opcode
        ensures { result ≡ opcode_of_instr self }
    {
        match self {
            Instr::Halt => Opcode::Halt,
            Instr::Push(value) => Opcode::Push(value.type_of()),
            Instr::Drop => Opcode::Drop,
            Instr::Slot(slot_use, _) => Opcode::Slot(slot_use),
            Instr::Not => Opcode::Not,
            Instr::Combine(connective) => Opcode::Combine(connective),
            Instr::Compute(operation, _) => Opcode::Compute(operation),
            Instr::Compare(comparison) => Opcode::Compare(comparison),
            Instr::Widen(widening) => Opcode::Widen(widening),
            Instr::Jump(when, _) => Opcode::Jump(when),
            Instr::Timer(timer_use, _) => Opcode::Timer(timer_use),
        }
    }

    // Appends the octets after the first.
    fn push_operand(self, octets: &mut Vec<u8>) -> Result<(), AllocError>
        ensures ok { OnOk result (octets.new.items ≡ octets.old.items ++ operand_of self) }
        ensures err { OnErr result (Extends octets.old.items octets.new.items) }
    {
        match self {
            Instr::Push(value) => push_signed(octets, Size::of(value.type_of()), value.number()),
            Instr::Compute(_, width) => push_octet(octets, width_octet(width)),
            Instr::Slot(_, number) => push_number(octets, number),
            Instr::Jump(_, distance) => push_number(octets, distance),
            Instr::Timer(_, number) => push_number(octets, number),
            _ => Ok(()),
        }
    }

    /// Appends the encoding of an instruction. If an allocation fails, a part of the encoding may
    /// have been appended.
    pub fn spell(self, octets: &mut Vec<u8>) -> Result<(), AllocError>
        ensures ok { OnOk result (octets.new.items ≡ octets.old.items ++ spelling self) }
        ensures err { OnErr result (Extends octets.old.items octets.new.items) }
    {
        push_octet(octets, self.opcode().octet())?;
        self.push_operand(octets)
    }
}
