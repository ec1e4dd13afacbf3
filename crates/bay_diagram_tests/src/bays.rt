// Two bays of examples/07_diagrams: the texts of their bay files, diagrams and programs, and
// mistakes of one line in the programs. A program of its own in Python went through all states of
// each bay, and found the releases in which a mistake is a hazard; none comes from
// bay_audit_hazards. And a bay with a coupler, whose diagram selects further hazards: a person
// found its releases by the definitions.

/// A bay, its diagram, and its program.
#[derive(Clone, Copy)]
pub struct Texts {
    pub bay: &'static str,
    pub diagram: &'static str,
    pub program: &'static [&'static str],
    pub faults: &'static [Fault],
}

/// A mistake: the index of a line, its wrong text, and the operations of switches that the program
/// then releases while they are a hazard.
#[derive(Clone, Copy)]
pub struct Fault {
    pub line: usize,
    pub text: &'static str,
    pub broken: &'static str,
}

const LINE_BAY: &str =
    "bay = { domain = \"B\", vendor = \"V\", model = \"M\", revision = \"1\", scan_max_age_ms = 0 }
switch = [
 { id = \"QA1\", kind = \"breaker\", control = \"status\" },
 { id = \"QB1\", kind = \"disconnector\", control = \"status\" },
 { id = \"QB7\", kind = \"disconnector\", control = \"status\" },
 { id = \"QB9\", kind = \"disconnector\", control = \"status\" },
 { id = \"QC1\", kind = \"earthing\", control = \"status\" },
 { id = \"QC2\", kind = \"earthing\", control = \"status\" },
 { id = \"QC9\", kind = \"earthing\", control = \"status\" },
]
input = [{ name = \"VT_DEAD\" }, { name = \"TA1_CLOSED\" },
 { name = \"TA1_OPEN\" }, { name = \"TB1_CLOSED\" }, { name = \"TB7_CLOSED\" }]
";

const LINE_DIAGRAM: &str = "node = [
 { name = \"BB1\", kind = \"busbar\", source = true },
 { name = \"BB7\", kind = \"busbar\", source = true },
 { name = \"LINE\", kind = \"line\", source = true, dead = \"VT_DEAD\" },
 { name = \"N1\", kind = \"junction\" },
 { name = \"N2\", kind = \"junction\" },
 { name = \"T1\", kind = \"junction\" },
 { name = \"T2\", kind = \"junction\" },
 { name = \"E\", kind = \"earth\" },
]
between = [
 { switch = \"QB1\", nodes = [\"BB1\", \"N1\"] },
 { switch = \"QA1\", nodes = [\"N1\", \"N2\"] },
 { switch = \"QB9\", nodes = [\"N2\", \"LINE\"] },
 { switch = \"QB7\", nodes = [\"LINE\", \"BB7\"] },
 { switch = \"QC1\", nodes = [\"N1\", \"E\"] },
 { switch = \"QC2\", nodes = [\"N2\", \"E\"] },
 { switch = \"QC9\", nodes = [\"LINE\", \"E\"] },
 { name = \"TB1\", kind = \"disconnector\", closed = \"TB1_CLOSED\", nodes = [\"BB1\", \"T1\"] },
 { name = \"TA1\", kind = \"breaker\", closed = \"TA1_CLOSED\", open = \"TA1_OPEN\", nodes = [
  \"T1\", \"T2\"] },
 { name = \"TB7\", kind = \"disconnector\", closed = \"TB7_CLOSED\", nodes = [\"T2\", \"BB7\"] },
]
";

const LINE_PROGRAM: [&str; 84] = [
    "PROGRAM line_bay",
    "VAR_EXTERNAL",
    "QA1_OPEN, QA1_CLOSED : BOOL;",
    "QB1_OPEN, QB1_CLOSED : BOOL;",
    "QB7_OPEN, QB7_CLOSED : BOOL;",
    "QB9_OPEN, QB9_CLOSED : BOOL;",
    "QC1_OPEN, QC2_OPEN, QC9_OPEN : BOOL;",
    "VT_DEAD, TA1_CLOSED, TA1_OPEN, TB1_CLOSED, TB7_CLOSED : BOOL;",
    "QA1_ENA_OPN, QA1_ENA_CLS : BOOL;",
    "QB1_ENA_OPN, QB1_ENA_CLS : BOOL;",
    "QB7_ENA_OPN, QB7_ENA_CLS : BOOL;",
    "QB9_ENA_OPN, QB9_ENA_CLS : BOOL;",
    "QC1_ENA_OPN, QC1_ENA_CLS : BOOL;",
    "QC2_ENA_OPN, QC2_ENA_CLS : BOOL;",
    "QC9_ENA_OPN, QC9_ENA_CLS : BOOL;",
    "END_VAR",
    "VAR",
    "transfer : BOOL;",
    "unearthed : BOOL;",
    "in_service : BOOL;",
    "END_VAR",
    "LD TA1_CLOSED",
    "ANDN TA1_OPEN",
    "AND TB1_CLOSED",
    "AND TB7_CLOSED",
    "ST transfer",
    "LD QC1_OPEN",
    "AND QC2_OPEN",
    "ST unearthed",
    "LD QB1_CLOSED",
    "AND QB9_CLOSED",
    "ST in_service",
    "LD QB7_OPEN",
    "OR QB1_OPEN",
    "OR QB9_OPEN",
    "OR( TA1_OPEN",
    "ANDN TA1_CLOSED",
    ")",
    "OR( QB7_CLOSED",
    "AND transfer",
    ")",
    "ST QA1_ENA_OPN",
    "LD QB1_OPEN",
    "OR QB1_CLOSED",
    "AND( QB9_OPEN",
    "OR QB9_CLOSED",
    ")",
    "AND( QC9_OPEN",
    "OR QB9_OPEN",
    ")",
    "AND unearthed",
    "ST QA1_ENA_CLS",
    "LD QA1_OPEN",
    "AND unearthed",
    "ST QB1_ENA_OPN",
    "ST QB9_ENA_OPN",
    "AND QC9_OPEN",
    "ST QB9_ENA_CLS",
    "LD QA1_OPEN",
    "AND unearthed",
    "AND( QC9_OPEN",
    "OR QB9_OPEN",
    ")",
    "ST QB1_ENA_CLS",
    "LD in_service",
    "AND QA1_CLOSED",
    "AND transfer",
    "ST QB7_ENA_OPN",
    "AND unearthed",
    "AND QC9_OPEN",
    "ST QB7_ENA_CLS",
    "LD TRUE",
    "ST QC1_ENA_OPN",
    "ST QC2_ENA_OPN",
    "ST QC9_ENA_OPN",
    "LD QB1_OPEN",
    "AND QB9_OPEN",
    "ST QC1_ENA_CLS",
    "ST QC2_ENA_CLS",
    "LD QB9_OPEN",
    "AND QB7_OPEN",
    "AND VT_DEAD",
    "ST QC9_ENA_CLS",
    "END_PROGRAM",
];

const LINE_FAULTS: [Fault; 7] = [
    // AND TB1_CLOSED
    Fault {
        line: 23,
        text: "",
        broken: "QA1 open, QB7 open, QB7 close",
    },
    // OR( QB7_CLOSED
    Fault {
        line: 38,
        text: "OR( TRUE",
        broken: "QA1 open",
    },
    // AND( QB9_OPEN
    Fault {
        line: 44,
        text: "OR( QB9_OPEN",
        broken: "QA1 close",
    },
    // AND QC9_OPEN
    Fault {
        line: 56,
        text: "",
        broken: "QB9 close",
    },
    // AND QA1_CLOSED
    Fault {
        line: 65,
        text: "",
        broken: "QB7 open, QB7 close",
    },
    // AND QC9_OPEN
    Fault {
        line: 69,
        text: "OR QC9_OPEN",
        broken: "QB7 close",
    },
    // AND QB7_OPEN
    Fault {
        line: 80,
        text: "",
        broken: "QC9 close",
    },
];

/// The line bay.
pub const LINE: Texts = Texts {
    bay: LINE_BAY,
    diagram: LINE_DIAGRAM,
    program: &LINE_PROGRAM,
    faults: &LINE_FAULTS,
};

const TRANSFORMER_BAY: &str =
    "bay = { domain = \"B\", vendor = \"V\", model = \"M\", revision = \"1\", scan_max_age_ms = 0 }
switch = [
 { id = \"QA1\", kind = \"breaker\", control = \"status\" },
 { id = \"QB1\", kind = \"disconnector\", control = \"status\" },
 { id = \"QB2\", kind = \"disconnector\", control = \"status\" },
 { id = \"QC1\", kind = \"earthing\", control = \"status\" },
 { id = \"QC3\", kind = \"earthing\", control = \"status\" },
]
input = [{ name = \"LA1_CLOSED\" }, { name = \"LA1_OPEN\" },
 { name = \"LB1_CLOSED\" }, { name = \"LB1_OPEN\" }, { name = \"CA1_CLOSED\" }]
";

const TRANSFORMER_DIAGRAM: &str = "node = [
 { name = \"BB1\", kind = \"busbar\", source = true },
 { name = \"BB2\", kind = \"busbar\", source = true },
 { name = \"N1\", kind = \"junction\" },
 { name = \"T1\", kind = \"transformer\" },
 { name = \"L1\", kind = \"junction\" },
 { name = \"LV\", kind = \"busbar\", source = true },
 { name = \"E\", kind = \"earth\" },
]
between = [
 { switch = \"QB1\", nodes = [\"BB1\", \"N1\"] },
 { switch = \"QB2\", nodes = [\"BB2\", \"N1\"] },
 { switch = \"QA1\", nodes = [\"N1\", \"T1\"] },
 { switch = \"QC1\", nodes = [\"N1\", \"E\"] },
 { switch = \"QC3\", nodes = [\"T1\", \"E\"] },
 { name = \"LA1\", kind = \"breaker\", closed = \"LA1_CLOSED\", open = \"LA1_OPEN\", nodes = [
  \"T1\", \"L1\"] },
 { name = \"LB1\", kind = \"disconnector\", closed = \"LB1_CLOSED\", open = \"LB1_OPEN\", nodes = [
  \"L1\", \"LV\"] },
 { name = \"CA1\", kind = \"breaker\", closed = \"CA1_CLOSED\", nodes = [\"BB1\", \"BB2\"] },
]
";

const TRANSFORMER_PROGRAM: [&str; 56] = [
    "PROGRAM transformer_bay",
    "VAR_EXTERNAL",
    "QA1_OPEN : BOOL;",
    "QB1_OPEN, QB1_CLOSED : BOOL;",
    "QB2_OPEN, QB2_CLOSED : BOOL;",
    "QC1_OPEN, QC3_OPEN : BOOL;",
    "LB1_OPEN, LB1_CLOSED, CA1_CLOSED : BOOL;",
    "QA1_ENA_OPN, QA1_ENA_CLS : BOOL;",
    "QB1_ENA_OPN, QB1_ENA_CLS : BOOL;",
    "QB2_ENA_OPN, QB2_ENA_CLS : BOOL;",
    "QC1_ENA_OPN, QC1_ENA_CLS : BOOL;",
    "QC3_ENA_OPN, QC3_ENA_CLS : BOOL;",
    "END_VAR",
    "VAR",
    "isolated : BOOL;",
    "END_VAR",
    "LD TRUE",
    "ST QA1_ENA_OPN",
    "LD QB1_OPEN",
    "OR QB1_CLOSED",
    "AND( QB2_OPEN",
    "OR QB2_CLOSED",
    ")",
    "AND QC1_OPEN",
    "AND QC3_OPEN",
    "ST QA1_ENA_CLS",
    "LD QA1_OPEN",
    "AND QB2_OPEN",
    "OR( CA1_CLOSED",
    "AND QB2_CLOSED",
    ")",
    "AND QC1_OPEN",
    "ST QB1_ENA_OPN",
    "AND QC3_OPEN",
    "ST QB1_ENA_CLS",
    "LD QA1_OPEN",
    "AND QB1_OPEN",
    "OR( CA1_CLOSED",
    "AND QB1_CLOSED",
    ")",
    "AND QC1_OPEN",
    "ST QB2_ENA_OPN",
    "AND QC3_OPEN",
    "ST QB2_ENA_CLS",
    "LD QB1_OPEN",
    "AND QB2_OPEN",
    "AND LB1_OPEN",
    "ANDN LB1_CLOSED",
    "ST isolated",
    "LD TRUE",
    "ST QC1_ENA_OPN",
    "ST QC3_ENA_OPN",
    "LD isolated",
    "ST QC1_ENA_CLS",
    "ST QC3_ENA_CLS",
    "END_PROGRAM",
];

const TRANSFORMER_FAULTS: [Fault; 7] = [
    // AND QC3_OPEN
    Fault {
        line: 24,
        text: "",
        broken: "QA1 close",
    },
    // AND QB2_OPEN
    Fault {
        line: 27,
        text: "OR QB2_OPEN",
        broken: "QB1 open, QB1 close",
    },
    // AND QB2_CLOSED
    Fault {
        line: 29,
        text: "",
        broken: "QB1 open, QB1 close",
    },
    // AND QC1_OPEN
    Fault {
        line: 40,
        text: "",
        broken: "QB2 open, QB2 close",
    },
    // AND QC3_OPEN
    Fault {
        line: 42,
        text: "",
        broken: "QB2 close",
    },
    // AND LB1_OPEN
    Fault {
        line: 46,
        text: "",
        broken: "QC1 close, QC3 close",
    },
    // ANDN LB1_CLOSED
    Fault {
        line: 47,
        text: "",
        broken: "QC1 close, QC3 close",
    },
];

/// The transformer bay.
pub const TRANSFORMER: Texts = Texts {
    bay: TRANSFORMER_BAY,
    diagram: TRANSFORMER_DIAGRAM,
    program: &TRANSFORMER_PROGRAM,
    faults: &TRANSFORMER_FAULTS,
};

const KEYED_BAY: &str =
    "bay = { domain = \"B\", vendor = \"V\", model = \"M\", revision = \"1\", scan_max_age_ms = 0 }
switch = [
 { id = \"QA0\", kind = \"breaker\", control = \"status\" },
 { id = \"QA1\", kind = \"breaker\", control = \"status\" },
 { id = \"QB1\", kind = \"disconnector\", control = \"status\" },
 { id = \"QB2\", kind = \"disconnector\", control = \"status\" },
 { id = \"QB9\", kind = \"disconnector\", control = \"status\" },
 { id = \"QC1\", kind = \"earthing\", control = \"status\" },
 { id = \"QC9\", kind = \"earthing\", control = \"status\" },
]
input = [{ name = \"VT_DEAD\" }, { name = \"SYNC\" }]
";

const KEYED_DIAGRAM: &str = "check = { live_parts = true, fed_earths = true }
node = [
 { name = \"BB1\", kind = \"busbar\", source = true },
 { name = \"BB2\", kind = \"busbar\", source = true },
 { name = \"N1\", kind = \"junction\" },
 { name = \"N2\", kind = \"junction\" },
 { name = \"LINE\", kind = \"line\", source = true, dead = \"VT_DEAD\" },
 { name = \"E\", kind = \"earth\" },
]
between = [
 { switch = \"QB1\", nodes = [\"BB1\", \"N1\"] },
 { switch = \"QB2\", nodes = [\"BB2\", \"N1\"] },
 { switch = \"QA1\", nodes = [\"N1\", \"N2\"], synchro = \"sync\" },
 { switch = \"QB9\", nodes = [\"N2\", \"LINE\"] },
 { switch = \"QA0\", nodes = [\"BB1\", \"BB2\"], coupler = true },
 { switch = \"QC1\", nodes = [\"N1\", \"E\"] },
 { switch = \"QC9\", nodes = [\"LINE\", \"E\"] },
]
";

const KEYED_PROGRAM: [&str; 33] = [
    "PROGRAM keyed_bay",
    "VAR_EXTERNAL",
    "SYNC : BOOL;",
    "QA1_OPEN : BOOL;",
    "QB1_OPEN, QB1_CLOSED : BOOL;",
    "QB2_OPEN, QB2_CLOSED : BOOL;",
    "QB9_OPEN, QB9_CLOSED : BOOL;",
    "QC1_OPEN, QC9_OPEN : BOOL;",
    "QA0_ENA_OPN : BOOL;",
    "QA1_ENA_CLS : BOOL;",
    "QC1_ENA_OPN : BOOL;",
    "END_VAR",
    "LD QB1_OPEN",
    "OR QB2_OPEN",
    "ST QA0_ENA_OPN",
    "LD SYNC",
    "AND QC1_OPEN",
    "AND QC9_OPEN",
    "AND( QB1_OPEN",
    "OR QB1_CLOSED",
    ")",
    "AND( QB2_OPEN",
    "OR QB2_CLOSED",
    ")",
    "AND( QB9_OPEN",
    "OR QB9_CLOSED",
    ")",
    "ST QA1_ENA_CLS",
    "LD QA1_OPEN",
    "AND QB1_OPEN",
    "AND QB2_OPEN",
    "ST QC1_ENA_OPN",
    "END_PROGRAM",
];

const KEYED_FAULTS: [Fault; 4] = [
    // LD QB1_OPEN: disconnectors alone may bridge QA0.
    Fault {
        line: 12,
        text: "LD TRUE",
        broken: "QA0 open",
    },
    // LD SYNC: a busbar and the line may be live.
    Fault {
        line: 15,
        text: "LD TRUE",
        broken: "QA1 close",
    },
    // LD QA1_OPEN: the line may feed N1.
    Fault {
        line: 28,
        text: "LD TRUE",
        broken: "QC1 open",
    },
    // AND QB2_OPEN: the busbar BB2 may feed N1.
    Fault {
        line: 30,
        text: "",
        broken: "QC1 open",
    },
];

/// A bay whose diagram selects further hazards.
pub const KEYED: Texts = Texts {
    bay: KEYED_BAY,
    diagram: KEYED_DIAGRAM,
    program: &KEYED_PROGRAM,
    faults: &KEYED_FAULTS,
};
