// Hazards in words: states of the line bay and of a bay whose diagram selects further hazards, the
// hazard that an operation is there, and the walks that show it. A person found the words by the
// definitions.
use crate::bays::{KEYED, LINE, Texts};
use crate::diagrams::known_of;
use bay_base::switch::Operation;
use bay_config::read::read_bay;
use bay_diagram::reading::Bound;
use bay_diagram::show::show;
use bay_diagram_file::diagram::Diagram;
use bay_diagram_file::read::diagram_in;
use bay_diagram_file::words::put_hazard;
use std::alloc::Global;
use std::process::Abort;
use std::test::Fail;

// A state of a bay, an operation of the switch at an index, and its hazard in words; empty, if it
// is none.
#[derive(Clone, Copy)]
struct Row {
    switches: &'static str,
    inputs: &'static str,
    switch: usize,
    operation: Operation,
    words: &'static str,
}

// QA1, QB1, QB7, QB9, QC1, QC2, QC9; VT_DEAD, TA1_CLOSED, TA1_OPEN, TB1_CLOSED, TB7_CLOSED.
const ROWS: [Row; 9] = [
    // QC2 onto a breaker, which is no gap.
    Row {
        switches: "ocooooo",
        inputs: "00000",
        switch: 5,
        operation: Operation::Close,
        words: "earths BB1, which is not isolated: BB1 - QB1 - N1 - QA1 - N2 - QC2",
    },
    // QC9 while all disconnectors at the line are open, and it may be live.
    Row {
        switches: "ooooooo",
        inputs: "00000",
        switch: 6,
        operation: Operation::Close,
        words: "earths LINE, which is not isolated: LINE - QC9",
    },
    // QC9 while the line is dead.
    Row {
        switches: "ooooooo",
        inputs: "10000",
        switch: 6,
        operation: Operation::Close,
        words: "",
    },
    // QA1 onto an earth.
    Row {
        switches: "ocoooco",
        inputs: "00000",
        switch: 0,
        operation: Operation::Close,
        words: "joins BB1 to earth: BB1 - QB1 - N1 - QA1 - N2 - QC2",
    },
    // QB9 towards an earth, from its other side.
    Row {
        switches: "ooooocb",
        inputs: "00000",
        switch: 3,
        operation: Operation::Close,
        words: "joins LINE to earth: LINE - QB9 - N2 - QC2",
    },
    // QB9 under load.
    Row {
        switches: "ccocooo",
        inputs: "00000",
        switch: 3,
        operation: Operation::Open,
        words: "makes or breaks a current: BB1 - QB1 - N1 - QA1 - N2 - QB9 - LINE",
    },
    // QB9 breaks the current into an earth.
    Row {
        switches: "ooocoio",
        inputs: "00000",
        switch: 3,
        operation: Operation::Open,
        words: "makes or breaks a current: LINE - QB9 - N2 - QC2",
    },
    // QA1 while QB1 is on its way.
    Row {
        switches: "oiocooo",
        inputs: "00000",
        switch: 0,
        operation: Operation::Close,
        words: "makes a current through QB1, which may be on its way: LINE - QB9 - N2 - QA1 - N1 - QB1 - BB1",
    },
    // QA1 while QB7 is on its way, and the bypass is closed.
    Row {
        switches: "ccicooo",
        inputs: "01011",
        switch: 0,
        operation: Operation::Open,
        words: "leaves a current to QB7, which may be on its way: LINE - QB7 - BB7, beside LINE - QB9 - N2 - QA1 - N1 - QB1 - BB1 - TB1 - T1 - TA1 - T2 - TB7 - BB7",
    },
];

// QA0, QA1, QB1, QB2, QB9, QC1, QC9; VT_DEAD, SYNC.
const KEYED_ROWS: [Row; 16] = [
    // QA1 joins BB1 and a live line.
    Row {
        switches: "oococoo",
        inputs: "00",
        switch: 1,
        operation: Operation::Close,
        words: "joins two live parts that may be out of phase: BB1 - QB1 - N1 - QA1 - N2 - QB9 - LINE",
    },
    // QA1 while the synchrocheck lets it.
    Row {
        switches: "oococoo",
        inputs: "01",
        switch: 1,
        operation: Operation::Close,
        words: "",
    },
    // QA1 energises a dead line.
    Row {
        switches: "oococoo",
        inputs: "10",
        switch: 1,
        operation: Operation::Close,
        words: "",
    },
    // QA1 while QB9 parts the line.
    Row {
        switches: "ooocooo",
        inputs: "00",
        switch: 1,
        operation: Operation::Close,
        words: "",
    },
    // QA0 joins the busbars. It has no synchrocheck.
    Row {
        switches: "ooooooo",
        inputs: "01",
        switch: 0,
        operation: Operation::Close,
        words: "joins two live parts that may be out of phase: BB1 - QA0 - BB2",
    },
    // QA0 beside QB1 and QB2.
    Row {
        switches: "ooccooo",
        inputs: "00",
        switch: 0,
        operation: Operation::Close,
        words: "",
    },
    // QA0 while QB2 is on its way: the busbars are not surely joined.
    Row {
        switches: "oociooo",
        inputs: "00",
        switch: 0,
        operation: Operation::Close,
        words: "joins two live parts that may be out of phase: BB1 - QA0 - BB2",
    },
    // QA0 while QB1 and QB2 bridge it.
    Row {
        switches: "coccooo",
        inputs: "00",
        switch: 0,
        operation: Operation::Open,
        words: "leaves disconnectors alone to join its two sides: BB1 - QB1 - N1 - QB2 - BB2",
    },
    // QA0 while QB2 is open.
    Row {
        switches: "cocoooo",
        inputs: "00",
        switch: 0,
        operation: Operation::Open,
        words: "",
    },
    // QA1 is no coupler.
    Row {
        switches: "occccoo",
        inputs: "01",
        switch: 1,
        operation: Operation::Open,
        words: "",
    },
    // QC1 while QB1 is closed.
    Row {
        switches: "oocooco",
        inputs: "00",
        switch: 5,
        operation: Operation::Open,
        words: "opens an earth that BB1 may feed: BB1 - QB1 - N1 - QC1",
    },
    // QC1 while the line may feed it.
    Row {
        switches: "ocoocco",
        inputs: "00",
        switch: 5,
        operation: Operation::Open,
        words: "opens an earth that LINE may feed: LINE - QB9 - N2 - QA1 - N1 - QC1",
    },
    // QC1 while the line is dead.
    Row {
        switches: "ocoocco",
        inputs: "10",
        switch: 5,
        operation: Operation::Open,
        words: "",
    },
    // QC1 while QC9 earths the line, too.
    Row {
        switches: "ocooccc",
        inputs: "00",
        switch: 5,
        operation: Operation::Open,
        words: "",
    },
    // QC9 at its own line.
    Row {
        switches: "ooooooc",
        inputs: "00",
        switch: 6,
        operation: Operation::Open,
        words: "",
    },
    // QC9 while BB1 may feed the line.
    Row {
        switches: "occococ",
        inputs: "00",
        switch: 6,
        operation: Operation::Open,
        words: "opens an earth that BB1 may feed: BB1 - QB1 - N1 - QA1 - N2 - QB9 - LINE - QC9",
    },
];

// Returns the words for the hazard of a row.
fn words_of(alloc: Global, diagram: &Diagram, row: Row) -> Result<Vec<u8>, Fail> {
    let known = known_of(alloc, Bound::Best, row.switches, row.inputs)?;
    let mut text = Vec::new(alloc);
    if let Some(shown) = show(alloc, &diagram.network, &known, row.switch, row.operation)? {
        put_hazard(&mut text, diagram, &shown)?;
    }
    Ok(text)
}

// Checks the words for rows of a bay.
fn check_words(rt: &impl Abort, alloc: Global, texts: Texts, rows: &[Row]) -> Result<(), Fail> {
    let bay = read_bay(alloc, texts.bay)?;
    let Ok(diagram) = diagram_in(alloc, &bay, texts.diagram.as_bytes()) else {
        return Err(Fail::from("the diagram is refused"));
    };
    for row in rows {
        let found = words_of(alloc, &diagram, *row)?;
        assert_eq!(rt; str::from_utf8(found.as_slice())?, row.words);
    }
    Ok(())
}

// Shows P-142, P-152.
#[test]
fn words_of_hazards(rt: HostRuntime) -> Result<(), Fail> {
    check_words(&rt, rt.alloc(), LINE, &ROWS)
}

// Shows P-142, P-143, P-152.
#[test]
fn words_of_hazards_with_keys(rt: HostRuntime) -> Result<(), Fail> {
    check_words(&rt, rt.alloc(), KEYED, &KEYED_ROWS)
}
