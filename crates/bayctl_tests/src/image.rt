// Instructions and arithmetic, with rows whose values come from the format and the standard.
use il_image::arithmetic::{ArithmeticOperation, Comparison, Width, compute};
use il_image::instr::Instr;
use il_image::opcode::{Connective, SlotUse, TimerUse, When, Widening};
use il_image::read::instr_at;
use il_image::value::Value;
use std::test::Fail;

const INSTRS: [(&[u8], Instr); 37] = [
    (&[0x01], Instr::Halt),
    (&[0x02, 0x01], Instr::Push(Value::Truth(true))),
    (&[0x03, 0x80, 0x00], Instr::Push(Value::Short(-32_768))),
    (
        &[0x04, 0xFF, 0xFF, 0xFF, 0xFE],
        Instr::Push(Value::Long(-2)),
    ),
    (
        &[0x05, 0x7F, 0xFF, 0xFF, 0xFF],
        Instr::Push(Value::Span(2_147_483_647)),
    ),
    (&[0x06], Instr::Drop),
    (&[0x07, 0x01, 0x02], Instr::Slot(SlotUse::Load, 258)),
    (&[0x08, 0x00, 0x00], Instr::Slot(SlotUse::Store, 0)),
    (&[0x09, 0xFF, 0xFF], Instr::Slot(SlotUse::SetIf, 65_535)),
    (&[0x0A, 0x00, 0x07], Instr::Slot(SlotUse::ResetIf, 7)),
    (&[0x0B], Instr::Not),
    (&[0x0C], Instr::Combine(Connective::And)),
    (&[0x0D], Instr::Combine(Connective::Or)),
    (&[0x0E], Instr::Combine(Connective::Xor)),
    (
        &[0x0F, 0x02],
        Instr::Compute(ArithmeticOperation::Add, Width::Int),
    ),
    (
        &[0x10, 0x03],
        Instr::Compute(ArithmeticOperation::Sub, Width::Dint),
    ),
    (
        &[0x11, 0x05],
        Instr::Compute(ArithmeticOperation::Mul, Width::Lint),
    ),
    (
        &[0x12, 0x02],
        Instr::Compute(ArithmeticOperation::Div, Width::Int),
    ),
    (
        &[0x13, 0x03],
        Instr::Compute(ArithmeticOperation::Mod, Width::Dint),
    ),
    (&[0x14], Instr::Compare(Comparison::Gt)),
    (&[0x15], Instr::Compare(Comparison::Ge)),
    (&[0x16], Instr::Compare(Comparison::Eq)),
    (&[0x17], Instr::Compare(Comparison::Ne)),
    (&[0x18], Instr::Compare(Comparison::Le)),
    (&[0x19], Instr::Compare(Comparison::Lt)),
    (&[0x1A], Instr::Widen(Widening::IntToDint)),
    (&[0x1B, 0x00, 0x01], Instr::Jump(When::Always, 1)),
    (&[0x1C, 0x00, 0x07], Instr::Jump(When::IfTrue, 7)),
    (&[0x1D, 0x01, 0x00], Instr::Jump(When::IfFalse, 256)),
    (&[0x1E, 0x00, 0x3F], Instr::Timer(TimerUse::SetInput, 63)),
    (&[0x1F, 0x00, 0x01], Instr::Timer(TimerUse::SetPreset, 1)),
    (&[0x20, 0x00, 0x02], Instr::Timer(TimerUse::Run, 2)),
    (&[0x21, 0x00, 0x03], Instr::Timer(TimerUse::LoadOutput, 3)),
    (&[0x22, 0x00, 0x04], Instr::Timer(TimerUse::LoadElapsed, 4)),
    (
        &[0x23, 0x7F, 0xFF, 0xFF, 0xFF, 0xFF, 0xFF, 0xFF, 0xFF],
        Instr::Push(Value::Wide(i64::MAX)),
    ),
    (&[0x24], Instr::Widen(Widening::DintToLint)),
    (&[0x02, 0x00], Instr::Push(Value::Truth(false))),
];

const NO_INSTRS: [&[u8]; 9] = [
    &[],
    &[0x00],
    &[0x25],
    &[0x02, 0x02],
    &[0x05, 0x80, 0x00, 0x00, 0x00],
    &[0x03, 0x01],
    &[0x0F, 0x01],
    &[0x0F, 0x04],
    &[0x23, 0, 0, 0, 0, 0, 0, 0],
];

const RESULTS: [(ArithmeticOperation, Width, i64, i64, i64); 14] = [
    (ArithmeticOperation::Add, Width::Int, 32_767, 1, -32_768),
    (
        ArithmeticOperation::Add,
        Width::Dint,
        2_147_483_647,
        1,
        -2_147_483_648,
    ),
    (ArithmeticOperation::Add, Width::Lint, i64::MAX, 1, i64::MIN),
    (ArithmeticOperation::Sub, Width::Int, -32_768, 1, 32_767),
    (ArithmeticOperation::Mul, Width::Int, 300, 300, 24_464),
    (ArithmeticOperation::Mul, Width::Dint, 65_536, 65_536, 0),
    (ArithmeticOperation::Div, Width::Int, -32_768, -1, -32_768),
    (
        ArithmeticOperation::Div,
        Width::Lint,
        i64::MIN,
        -1,
        i64::MIN,
    ),
    (ArithmeticOperation::Div, Width::Int, -7, 2, -3),
    (ArithmeticOperation::Div, Width::Dint, 7, -2, -3),
    (ArithmeticOperation::Mod, Width::Int, -7, 2, -1),
    (ArithmeticOperation::Mod, Width::Dint, 7, -2, 1),
    (ArithmeticOperation::Mod, Width::Lint, i64::MIN, -1, 0),
    (ArithmeticOperation::Sub, Width::Lint, i64::MIN, 1, i64::MAX),
];

// Each instruction is encoded as its octets, which are decoded as the same instruction between a
// DROP and a HALT.
// Shows P-050.
#[test]
fn instructions(rt: HostRuntime) -> Result<(), Fail> {
    for (octets, instr) in INSTRS.iter() {
        let mut code = [0x06].to_vec(rt.alloc())?;
        instr.spell(&mut code)?;
        assert!(rt; &code.as_slice()[1..] == *octets);
        code.push(0x01)?;
        let read = instr_at(code.as_slice(), 1);
        assert!(rt; read == Some((*instr, 1 + octets.len())));
    }
    for octets in NO_INSTRS.iter() {
        assert!(rt; instr_at(octets, 0).is_none());
    }
    Ok(())
}

// Shows P-048.
#[test]
fn arithmetic(rt: HostRuntime) {
    for (operation, width, first, second, result) in RESULTS.iter() {
        if *second != 0 {
            assert_eq!(rt; compute(*operation, *width, *first, *second), *result);
        }
    }
}
