// Texts of cases, and the programs that they have. In the short form of a text `\n` separates
// parts, a part `N * LINE` denotes N times this line, ` / ` ends a line, and `\r` and `\t` denote
// the characters.
use anyhow::Result;
use il_text::program::{Item, Program};
use il_text::read::read_program;
use std::alloc::{AllocError, Global};

/// Returns the text that a short form denotes.
pub fn expand_text(alloc: Global, spelled: &str) -> Result<String> {
    let mut text = String::new(alloc);
    for part in spelled.split("\\n") {
        let (times, line) = part.split_once(" * ").unwrap_or(("1", part));
        for _ in 0..times.parse::<u32>()? {
            writeln!(text, "{line}")?;
        }
    }
    let text = text.as_str().strip_suffix("\n").unwrap_or("");
    let lines = text.replace(alloc, " / ", "\n")?;
    let returns = lines.replace(alloc, "\\r", "\r")?;
    Ok(returns.replace(alloc, "\\t", "\t")?)
}

// Returns the text before and after the text of a case: nothing if it is a whole text; a program,
// whose body begins on the second line; or a block of declarations, which begin on the third.
fn around(kind: &str) -> (&str, &str) {
    match kind {
        "text" => ("", ""),
        "local" => ("PROGRAM P\\nVAR\\n", "\\nEND_VAR\\nEND_PROGRAM\\n"),
        "external" => ("PROGRAM P\\nVAR_EXTERNAL\\n", "\\nEND_VAR\\nEND_PROGRAM\\n"),
        _ => ("PROGRAM P\\n", "\\nEND_PROGRAM\\n"),
    }
}

// Returns the declarations of a program and its first instruction.
fn program_text(alloc: Global, program: &Program<'_>) -> Result<String, AllocError> {
    let mut text = String::new(alloc);
    for declaration in program.declarations.iter() {
        write!(text, "{declaration:?}; ")?;
    }
    if let Some(Item::Instruction { instruction, .. }) = program.items.first() {
        write!(text, "{instruction:?}")?;
    }
    Ok(text)
}

/// Returns the number and the line of the refusal of a text, or `0 0` if the text is valid. For
/// `reads`, returns the program, or the message of the refusal.
pub fn reading(alloc: Global, kind: &str, spelled: &str) -> Result<String> {
    let (before, after) = around(kind);
    let spelled = format!(in alloc; "{before}{spelled}{after}")?;
    let text = expand_text(alloc, spelled.as_str())?;
    let program = match read_program(alloc, text.as_str()) {
        Ok(program) => program,
        Err(fault) => {
            let (code, line) = (fault.code().unwrap_or(0), fault.line());
            return Ok(match kind {
                "reads" => format!(in alloc; "{fault}"),
                _ => format!(in alloc; "{code} {line}"),
            }?);
        }
    };
    Ok(match kind {
        "reads" => program_text(alloc, &program),
        _ => format!(in alloc; "0 0"),
    }?)
}
