// The paths of the rows that are found by their names: the part of the name after the node's name
// (IEC 61850-8-1, names of variables).

/// The paths of a data object, its value, and the quality and time stamp of the value (IEC
/// 61850-7-3).
#[derive(Clone, Copy)]
pub struct StatusPaths {
    pub object: &'static str,
    pub value: &'static str,
    pub quality: &'static str,
    pub time: &'static str,
}

/// The position of a switch, below its own node and below the node of its control.
pub const POSITION: StatusPaths = StatusPaths {
    object: "$ST$Pos",
    value: "$ST$Pos$stVal",
    quality: "$ST$Pos$q",
    time: "$ST$Pos$t",
};

/// The number of times a switch has reached an end position.
pub const OPERATIONS: StatusPaths = StatusPaths {
    object: "$ST$OpCnt",
    value: "$ST$OpCnt$stVal",
    quality: "$ST$OpCnt$q",
    time: "$ST$OpCnt$t",
};

/// Whether a switch may be opened.
pub const OPENING: StatusPaths = StatusPaths {
    object: "$ST$EnaOpn",
    value: "$ST$EnaOpn$stVal",
    quality: "$ST$EnaOpn$q",
    time: "$ST$EnaOpn$t",
};

/// Whether a switch may be closed.
pub const CLOSING: StatusPaths = StatusPaths {
    object: "$ST$EnaCls",
    value: "$ST$EnaCls$stVal",
    quality: "$ST$EnaCls$q",
    time: "$ST$EnaCls$t",
};

/// The health of the device, below LLN0.
pub const HEALTH: StatusPaths = StatusPaths {
    object: "$ST$Health",
    value: "$ST$Health$stVal",
    quality: "$ST$Health$q",
    time: "$ST$Health$t",
};

/// The health of the physical device, below LPHD1.
pub const PHYSICAL_HEALTH: StatusPaths = StatusPaths {
    object: "$ST$PhyHealth",
    value: "$ST$PhyHealth$stVal",
    quality: "$ST$PhyHealth$q",
    time: "$ST$PhyHealth$t",
};

/// Whether a switch accepts local commands only.
pub const LOCAL: StatusPaths = StatusPaths {
    object: "$ST$Loc",
    value: "$ST$Loc$stVal",
    quality: "$ST$Loc$q",
    time: "$ST$Loc$t",
};

/// The value of an input, below its data object.
pub const INPUT: StatusPaths = StatusPaths {
    object: "",
    value: "$stVal",
    quality: "$q",
    time: "$t",
};

/// The total active power of all phases.
pub const ACTIVE_POWER: StatusPaths = StatusPaths {
    object: "$MX$TotW",
    value: "$MX$TotW$mag$i",
    quality: "$MX$TotW$q",
    time: "$MX$TotW$t",
};

/// The total reactive power of all phases.
pub const REACTIVE_POWER: StatusPaths = StatusPaths {
    object: "$MX$TotVAr",
    value: "$MX$TotVAr$mag$i",
    quality: "$MX$TotVAr$q",
    time: "$MX$TotVAr$t",
};

/// The frequency.
pub const FREQUENCY: StatusPaths = StatusPaths {
    object: "$MX$Hz",
    value: "$MX$Hz$mag$i",
    quality: "$MX$Hz$q",
    time: "$MX$Hz$t",
};

/// The current of phase A. `PHASE_B` and `PHASE_C` are the currents of the other phases.
pub const PHASE_A: StatusPaths = StatusPaths {
    object: "$MX$A$phsA",
    value: "$MX$A$phsA$cVal$mag$i",
    quality: "$MX$A$phsA$q",
    time: "$MX$A$phsA$t",
};

pub const PHASE_B: StatusPaths = StatusPaths {
    object: "$MX$A$phsB",
    value: "$MX$A$phsB$cVal$mag$i",
    quality: "$MX$A$phsB$q",
    time: "$MX$A$phsB$t",
};

pub const PHASE_C: StatusPaths = StatusPaths {
    object: "$MX$A$phsC",
    value: "$MX$A$phsC$cVal$mag$i",
    quality: "$MX$A$phsC$q",
    time: "$MX$A$phsC$t",
};

/// The total active power as a float, which a meter with a scale has beside its integer (IEC
/// 61850-7-3, AnalogueValue). So have the other measured values.
pub const ACTIVE_POWER_FLOAT: &str = "$MX$TotW$mag$f";

pub const REACTIVE_POWER_FLOAT: &str = "$MX$TotVAr$mag$f";

pub const FREQUENCY_FLOAT: &str = "$MX$Hz$mag$f";

pub const PHASE_A_FLOAT: &str = "$MX$A$phsA$cVal$mag$f";

pub const PHASE_B_FLOAT: &str = "$MX$A$phsB$cVal$mag$f";

pub const PHASE_C_FLOAT: &str = "$MX$A$phsC$cVal$mag$f";

/// Whether a switch is selected (IEC 61850-7-3, stSeld).
pub const SELECTED: &str = "$ST$Pos$stSeld";

/// The objects by which a client selects a switch, selects it with value, operates it, and cancels
/// its selection (IEC 61850-8-1).
pub const SELECT: &str = "$CO$Pos$SBO";

pub const SELECT_WITH_VALUE: &str = "$CO$Pos$SBOw";

pub const OPERATE: &str = "$CO$Pos$Oper";

pub const CANCEL: &str = "$CO$Pos$Cancel";
