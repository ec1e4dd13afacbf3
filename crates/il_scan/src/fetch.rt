// Reads the instruction at an offset in verified code, without testing what is there. An offset
// counts octets of the code from 0.
ghost use Rattle.std.specs.Prelude.{◌≡◌, ◌+◌, ◌≤◌, ◌<◌, IsOk, IsSome, Ok, Some, drop, length};
ghost use Rattle.std.specs.Int.{w16, from_be_bytes};
ghost use Rattle.il_image.specs.declared.opcode.Version.TheVariants.{Two};
ghost use Rattle.il_image.specs.Octets.{octet_count, size_of};
ghost use Rattle.il_image.specs.Reading.{instr_at, operand_from, signed_at, value_at, width_at};

use bay_base::types::ElementaryType;
use il_image::arithmetic::Width;
use il_image::instr::Instr;
use il_image::opcode::Opcode;
use il_image::value::Value;

// Reads a number of two octets.
#[inline(always)]
fn read_number(code: &[u8], at: usize) -> u16
    requires { at + 2 ≤ length code.now }
    ensures { result ≡ from_be_bytes w16 (drop at code.now) }
{
    u16::from_be_bytes([code[at], code[at + 1]])
}

// Reads the number of a value of the type, in two's complement.
#[inline(always)]
fn read_signed(elementary: ElementaryType, code: &[u8], at: usize) -> i64
    requires { at + octet_count (size_of elementary) ≤ length code.now }
    ensures { signed_at (size_of elementary) (drop at code.now)
        ≡ Ok (result, drop (at + octet_count (size_of elementary)) code.now) }
{
    match elementary {
        ElementaryType::Bool => i64::from(i8::from_be_bytes([code[at]])),
        ElementaryType::Int => i64::from(i16::from_be_bytes([code[at], code[at + 1]])),
        ElementaryType::Dint => i64::from(i32::from_be_bytes([
            code[at],
            code[at + 1],
            code[at + 2],
            code[at + 3],
        ])),
        ElementaryType::Time => i64::from(i32::from_be_bytes([
            code[at],
            code[at + 1],
            code[at + 2],
            code[at + 3],
        ])),
        ElementaryType::Lint => i64::from_be_bytes([
            code[at],
            code[at + 1],
            code[at + 2],
            code[at + 3],
            code[at + 4],
            code[at + 5],
            code[at + 6],
            code[at + 7],
        ]),
    }
}

// Returns the number of octets of a value of the type.
#[inline(always)]
fn size_of_type(elementary: ElementaryType) -> usize
    ensures value { result ≡ octet_count (size_of elementary) }
    ensures few { result ≤ 8 }
{
    match elementary {
        ElementaryType::Bool => 1,
        ElementaryType::Int => 2,
        ElementaryType::Dint | ElementaryType::Time => 4,
        ElementaryType::Lint => 8,
    }
}

// Reads the value of the type at an offset.
#[inline(always)]
fn read_value(elementary: ElementaryType, code: &[u8], at: usize) -> Value
    requires { IsOk (value_at (size_of elementary) elementary (drop at code.now)) }
    ensures { value_at (size_of elementary) elementary (drop at code.now)
        ≡ Ok (result, drop (at + octet_count (size_of elementary)) code.now) }
{
    match Value::of(elementary, read_signed(elementary, code, at)) {
        Some(value) => value,
        None => unreachable!(),
    }
}

// Reads the width at an offset.
#[inline(always)]
fn read_width(code: &[u8], at: usize) -> Width
    requires { IsOk (width_at Two (drop at code.now)) }
    ensures { width_at Two (drop at code.now) ≡ Ok (result, drop (at + 1) code.now) }
{
    match code[at] {
        0x02 => Width::Int,
        0x03 => Width::Dint,
        0x05 => Width::Lint,
        _ => unreachable!(),
    }
}

// Returns the instruction with this opcode and the operand at an offset, and the offset after it.
#[inline(always)]
fn read_operand(opcode: Opcode, code: &[u8], at: usize) -> (Instr, usize)
    requires whole { IsOk (operand_from Two opcode (drop at code.now)) }
    requires within { at ≤ length code.now }
    ensures value { operand_from Two opcode (drop at code.now)
        ≡ Ok (result.0, drop result.1 code.now) }
    ensures within { result.1 ≤ length code.now }
{
    match opcode {
        Opcode::Halt => (Instr::Halt, at),
        Opcode::Push(elementary) => (
            Instr::Push(read_value(elementary, code, at)),
            at + size_of_type(elementary),
        ),
        Opcode::Drop => (Instr::Drop, at),
        Opcode::Slot(slot_use) => (Instr::Slot(slot_use, read_number(code, at)), at + 2),
        Opcode::Not => (Instr::Not, at),
        Opcode::Combine(connective) => (Instr::Combine(connective), at),
        Opcode::Compute(operation) => (Instr::Compute(operation, read_width(code, at)), at + 1),
        Opcode::Compare(comparison) => (Instr::Compare(comparison), at),
        Opcode::Widen(widening) => (Instr::Widen(widening), at),
        Opcode::Jump(when) => (Instr::Jump(when, read_number(code, at)), at + 2),
        Opcode::Timer(timer_use) => (Instr::Timer(timer_use, read_number(code, at)), at + 2),
    }
}

/// Returns the instruction at an offset, and the offset after it. An instruction must begin at the
/// offset.
#[inline(always)]
pub(crate) fn fetch(code: &[u8], offset: usize) -> (Instr, usize)
    requires { IsSome (instr_at code.now offset) }
    ensures value { instr_at code.now offset ≡ Some result }
    ensures within { result.1 ≤ length code.now }
{
    match Opcode::of(code[offset]) {
        Some(opcode) => read_operand(opcode, code, offset + 1),
        None => unreachable!(),
    }
}
