// States, and the operations that are hazards in them.
use crate::diagrams::{known_of, line_bay, transformer_bay};
use bay_base::switch::Operation;
use bay_diagram::hazard::is_hazard;
use bay_diagram::network::Network;
use bay_diagram::reading::Bound;
use std::alloc::{AllocError, Global};
use std::process::Abort;
use std::test::Fail;

// A state of a bay: the positions of its switches, open (o), closed (c), intermediate (i) or bad
// (b), and the values of its inputs. An operation of the switch at an index, and whether it is a
// hazard.
#[derive(Clone, Copy)]
struct Row {
    switches: &'static str,
    inputs: &'static str,
    switch: usize,
    operation: Operation,
    is_hazard: bool,
}

// Returns a row with an opening.
fn open(switches: &'static str, inputs: &'static str, switch: usize, is_hazard: bool) -> Row {
    Row {
        switches,
        inputs,
        switch,
        operation: Operation::Open,
        is_hazard,
    }
}

// Returns a row with a closing.
fn close(switches: &'static str, inputs: &'static str, switch: usize, is_hazard: bool) -> Row {
    Row {
        switches,
        inputs,
        switch,
        operation: Operation::Close,
        is_hazard,
    }
}

// States of the line bay: QA1, QB1, QB7, QB9, QC1, QC2, QC9. The hazards: E, J, C, A, B.
fn line_rows() -> [Row; 17] {
    [
        open("cicccoc", "11011", 0, false), // QA1
        close("ccooooc", "10001", 0, false), // QA1
        open("oocococ", "11101", 3, false), // QB9
        close("iooicoc", "10011", 3, false), // QB9
        close("oooocco", "01111", 5, false), // QC2
        close("cbccooo", "10101", 0, true), // QA1 A
        open("occcooc", "01001", 0, true), // QA1 B
        open("cococbo", "01000", 3, true), // QB9 C
        close("oococio", "10111", 2, true), // QB7 C
        close("icoiooo", "11000", 1, true), // QB1 CA
        open("coccooo", "01100", 1, true), // QB1 CB
        close("cicccco", "10100", 5, true), // QC2 E
        close("ccooocb", "00001", 0, true), // QA1 J
        close("oocccoo", "00110", 3, true), // QB9 J
        close("ocbbcoo", "10011", 0, true), // QA1 JA
        close("ococccb", "10110", 1, true), // QB1 JC
        close("cicoboc", "11111", 3, true), // QB9 JCA
    ]
}

// States of the transformer bay: QA1, QB1, QB2, QC1, QC3. The hazards: E, J, C, A, B.
fn transformer_rows() -> [Row; 16] {
    [
        open("bocob", "01100", 0, false), // QA1
        close("bocoo", "11101", 0, false), // QA1
        open("ocoob", "11011", 2, false), // QB2
        close("oocoo", "01011", 2, false), // QB2
        close("iooic", "00011", 4, false), // QC3
        close("ccioo", "11010", 0, true), // QA1 A
        open("cccoo", "01110", 2, true), // QB2 C
        close("oocoo", "01110", 1, true), // QB1 C
        close("ooboo", "11011", 1, true), // QB1 CA
        open("cbccc", "00010", 2, true), // QB2 CB
        close("icocc", "10100", 4, true), // QC3 E
        close("occob", "00101", 0, true), // QA1 J
        close("cccoc", "00111", 2, true), // QB2 J
        close("ccicc", "01100", 0, true), // QA1 JA
        close("bcoio", "01110", 1, true), // QB1 JC
        close("cbcco", "00001", 2, true), // QB2 JCA
    ]
}

// Returns whether the operation of a row is a hazard, by the worst and by the best that can be
// known.
fn found_in(alloc: Global, network: &Network, row: Row) -> Result<(bool, bool), AllocError> {
    let worst = known_of(alloc, Bound::Worst, row.switches, row.inputs)?;
    let best = known_of(alloc, Bound::Best, row.switches, row.inputs)?;
    let in_worst = is_hazard(network, &worst, row.switch, row.operation);
    Ok((
        in_worst,
        is_hazard(network, &best, row.switch, row.operation),
    ))
}

// Checks that just the operations are hazards that should be. Each row is one process, so the worst
// and the best are the same.
fn check_rows(
    rt: &impl Abort,
    alloc: Global,
    network: &Network,
    rows: &[Row],
) -> Result<(), AllocError> {
    for row in rows {
        let found = found_in(alloc, network, *row)?;
        let wanted = (row.is_hazard, row.is_hazard);
        assert_eq!(rt;
            found,
            wanted,
            "{} {} {}",
            row.switches, row.inputs, row.switch
        );
    }
    Ok(())
}

// Shows P-142, P-143, P-144.
#[test]
fn hazards_of_a_line_bay(rt: HostRuntime) -> Result<(), Fail> {
    let network = line_bay(rt.alloc())?;
    check_rows(&rt, rt.alloc(), &network, &line_rows())?;
    Ok(())
}

// Shows P-142, P-143, P-144.
#[test]
fn hazards_of_a_transformer_bay(rt: HostRuntime) -> Result<(), Fail> {
    let network = transformer_bay(rt.alloc())?;
    check_rows(&rt, rt.alloc(), &network, &transformer_rows())?;
    Ok(())
}

// Switches and inputs that may have any value (*): QC9 closes while all switches are open, and the
// line may be dead; QC2 closes while nothing is known.
// Shows P-143, P-144.
#[test]
fn what_is_not_known(rt: HostRuntime) -> Result<(), Fail> {
    let network = line_bay(rt.alloc())?;
    let may_be_dead = found_in(rt.alloc(), &network, close("ooooooo", "*0000", 6, true))?;
    assert_eq!(rt; may_be_dead, (true, false));
    let is_dead = found_in(rt.alloc(), &network, close("ooooooo", "10000", 6, false))?;
    assert_eq!(rt; is_dead, (false, false));
    let all = found_in(rt.alloc(), &network, close("*******", "*****", 5, true))?;
    assert_eq!(rt; all, (true, false));
    Ok(())
}
