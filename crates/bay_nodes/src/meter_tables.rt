// The rows of the logical node of a meter, in the order of the tree: the path from the node to the
// row, and the row's initial value (IEC 61850-7-4, MMXU; IEC 61850-8-1, names of variables).
ghost use Rattle.std.specs.Borrow.{Bor};
ghost use Rattle.std.specs.Prelude.{◌≡◌, map, []};
ghost use Rattle.bay_nodes.specs.Node as node;
ghost use Rattle.bay_nodes.specs.NodeRows.{line_row};
ghost use Rattle.bay_nodes.specs.declared.meter.Meter.{Meter};
ghost use Rattle.bay_nodes.specs.declared.nameplate.Nameplate.{Nameplate};
ghost use Rattle.bay_nodes.specs.declared.subject.Subject.{Subject};
ghost use Rattle.bay_nodes.specs.declared.subject.Subject.TheVariants as subject;

use crate::initial::InitialValue;
use crate::initial::InitialValue::{
    Description, Float, Good, Int8, Int32, Invalid, Moment, Multiplier, Revision, Structure, Vendor,
};
use crate::paths as paths;
use crate::profile::Profile;

/// Returns the first rows below MMXU: the measured values, in profile 2 also as floats, if the meter
/// has a scale.
pub fn meter_table(profile: Profile, scaled: bool) -> &'static [(&'static str, InitialValue)]
    ensures { (n : Nameplate) (s : Subject) → map (line_row n s) result.now
        ≡ node.rows_of_parts [] (node.parts_of (node.meter_values profile scaled)) }
{
    match (profile, scaled) {
        (Profile::One, _) => &[
            ("$MX", Structure),
            (paths::ACTIVE_POWER.object, Structure),
            ("$MX$TotW$mag", Structure),
            (paths::ACTIVE_POWER.value, Int32),
            (paths::ACTIVE_POWER.quality, Invalid),
            (paths::ACTIVE_POWER.time, Moment),
            (paths::REACTIVE_POWER.object, Structure),
            ("$MX$TotVAr$mag", Structure),
            (paths::REACTIVE_POWER.value, Int32),
            (paths::REACTIVE_POWER.quality, Invalid),
            (paths::REACTIVE_POWER.time, Moment),
            (paths::FREQUENCY.object, Structure),
            ("$MX$Hz$mag", Structure),
            (paths::FREQUENCY.value, Int32),
            (paths::FREQUENCY.quality, Invalid),
            (paths::FREQUENCY.time, Moment),
            ("$MX$A", Structure),
            (paths::PHASE_A.object, Structure),
            ("$MX$A$phsA$cVal", Structure),
            ("$MX$A$phsA$cVal$mag", Structure),
            (paths::PHASE_A.value, Int32),
            (paths::PHASE_A.quality, Invalid),
            (paths::PHASE_A.time, Moment),
            (paths::PHASE_B.object, Structure),
            ("$MX$A$phsB$cVal", Structure),
            ("$MX$A$phsB$cVal$mag", Structure),
            (paths::PHASE_B.value, Int32),
            (paths::PHASE_B.quality, Invalid),
            (paths::PHASE_B.time, Moment),
            (paths::PHASE_C.object, Structure),
            ("$MX$A$phsC$cVal", Structure),
            ("$MX$A$phsC$cVal$mag", Structure),
            (paths::PHASE_C.value, Int32),
            (paths::PHASE_C.quality, Invalid),
            (paths::PHASE_C.time, Moment),
        ],
        (Profile::Two, false) => &[
            ("$ST", Structure),
            ("$ST$Beh", Structure),
            ("$ST$Beh$stVal", Int8(1)),
            ("$ST$Beh$q", Good),
            ("$ST$Beh$t", Moment),
            ("$MX", Structure),
            (paths::ACTIVE_POWER.object, Structure),
            ("$MX$TotW$mag", Structure),
            (paths::ACTIVE_POWER.value, Int32),
            (paths::ACTIVE_POWER.quality, Invalid),
            (paths::ACTIVE_POWER.time, Moment),
            (paths::REACTIVE_POWER.object, Structure),
            ("$MX$TotVAr$mag", Structure),
            (paths::REACTIVE_POWER.value, Int32),
            (paths::REACTIVE_POWER.quality, Invalid),
            (paths::REACTIVE_POWER.time, Moment),
            (paths::FREQUENCY.object, Structure),
            ("$MX$Hz$mag", Structure),
            (paths::FREQUENCY.value, Int32),
            (paths::FREQUENCY.quality, Invalid),
            (paths::FREQUENCY.time, Moment),
            ("$MX$A", Structure),
            (paths::PHASE_A.object, Structure),
            ("$MX$A$phsA$cVal", Structure),
            ("$MX$A$phsA$cVal$mag", Structure),
            (paths::PHASE_A.value, Int32),
            (paths::PHASE_A.quality, Invalid),
            (paths::PHASE_A.time, Moment),
            (paths::PHASE_B.object, Structure),
            ("$MX$A$phsB$cVal", Structure),
            ("$MX$A$phsB$cVal$mag", Structure),
            (paths::PHASE_B.value, Int32),
            (paths::PHASE_B.quality, Invalid),
            (paths::PHASE_B.time, Moment),
            (paths::PHASE_C.object, Structure),
            ("$MX$A$phsC$cVal", Structure),
            ("$MX$A$phsC$cVal$mag", Structure),
            (paths::PHASE_C.value, Int32),
            (paths::PHASE_C.quality, Invalid),
            (paths::PHASE_C.time, Moment),
        ],
        (Profile::Two, true) => &[
            ("$ST", Structure),
            ("$ST$Beh", Structure),
            ("$ST$Beh$stVal", Int8(1)),
            ("$ST$Beh$q", Good),
            ("$ST$Beh$t", Moment),
            ("$MX", Structure),
            (paths::ACTIVE_POWER.object, Structure),
            ("$MX$TotW$mag", Structure),
            (paths::ACTIVE_POWER.value, Int32),
            (paths::ACTIVE_POWER_FLOAT, Float),
            (paths::ACTIVE_POWER.quality, Invalid),
            (paths::ACTIVE_POWER.time, Moment),
            (paths::REACTIVE_POWER.object, Structure),
            ("$MX$TotVAr$mag", Structure),
            (paths::REACTIVE_POWER.value, Int32),
            (paths::REACTIVE_POWER_FLOAT, Float),
            (paths::REACTIVE_POWER.quality, Invalid),
            (paths::REACTIVE_POWER.time, Moment),
            (paths::FREQUENCY.object, Structure),
            ("$MX$Hz$mag", Structure),
            (paths::FREQUENCY.value, Int32),
            (paths::FREQUENCY_FLOAT, Float),
            (paths::FREQUENCY.quality, Invalid),
            (paths::FREQUENCY.time, Moment),
            ("$MX$A", Structure),
            (paths::PHASE_A.object, Structure),
            ("$MX$A$phsA$cVal", Structure),
            ("$MX$A$phsA$cVal$mag", Structure),
            (paths::PHASE_A.value, Int32),
            (paths::PHASE_A_FLOAT, Float),
            (paths::PHASE_A.quality, Invalid),
            (paths::PHASE_A.time, Moment),
            (paths::PHASE_B.object, Structure),
            ("$MX$A$phsB$cVal", Structure),
            ("$MX$A$phsB$cVal$mag", Structure),
            (paths::PHASE_B.value, Int32),
            (paths::PHASE_B_FLOAT, Float),
            (paths::PHASE_B.quality, Invalid),
            (paths::PHASE_B.time, Moment),
            (paths::PHASE_C.object, Structure),
            ("$MX$A$phsC$cVal", Structure),
            ("$MX$A$phsC$cVal$mag", Structure),
            (paths::PHASE_C.value, Int32),
            (paths::PHASE_C_FLOAT, Float),
            (paths::PHASE_C.quality, Invalid),
            (paths::PHASE_C.time, Moment),
        ],
    }
}

/// Returns the last rows below MMXU: the units of the values (IEC 61850-7-3, SIUnit: 62 is W, 63
/// VAr, 33 Hz, 5 A) of a meter with a scale, and the name plate.
pub fn meter_settings_table(
    profile: Profile,
    scaled: bool,
) -> &'static [(&'static str, InitialValue)]
    ensures { (n : Nameplate) (m : Bor Meter) → map (line_row n (subject.Meter m)) result.now
        ≡ node.rows_of_parts [] (node.parts_of (node.meter_settings profile scaled n m.now)) }
{
    match (profile, scaled) {
        (Profile::One, _) => &[],
        (Profile::Two, false) => &[
            ("$DC", Structure),
            ("$DC$NamPlt", Structure),
            ("$DC$NamPlt$vendor", Vendor),
            ("$DC$NamPlt$swRev", Revision),
            ("$DC$NamPlt$d", Description),
        ],
        (Profile::Two, true) => &[
            ("$CF", Structure),
            ("$CF$TotW", Structure),
            ("$CF$TotW$units", Structure),
            ("$CF$TotW$units$SIUnit", Int8(62)),
            ("$CF$TotW$units$multiplier", Multiplier),
            ("$CF$TotVAr", Structure),
            ("$CF$TotVAr$units", Structure),
            ("$CF$TotVAr$units$SIUnit", Int8(63)),
            ("$CF$TotVAr$units$multiplier", Multiplier),
            ("$CF$Hz", Structure),
            ("$CF$Hz$units", Structure),
            ("$CF$Hz$units$SIUnit", Int8(33)),
            ("$CF$Hz$units$multiplier", Multiplier),
            ("$CF$A", Structure),
            ("$CF$A$phsA", Structure),
            ("$CF$A$phsA$units", Structure),
            ("$CF$A$phsA$units$SIUnit", Int8(5)),
            ("$CF$A$phsA$units$multiplier", Multiplier),
            ("$CF$A$phsB", Structure),
            ("$CF$A$phsB$units", Structure),
            ("$CF$A$phsB$units$SIUnit", Int8(5)),
            ("$CF$A$phsB$units$multiplier", Multiplier),
            ("$CF$A$phsC", Structure),
            ("$CF$A$phsC$units", Structure),
            ("$CF$A$phsC$units$SIUnit", Int8(5)),
            ("$CF$A$phsC$units$multiplier", Multiplier),
            ("$DC", Structure),
            ("$DC$NamPlt", Structure),
            ("$DC$NamPlt$vendor", Vendor),
            ("$DC$NamPlt$swRev", Revision),
            ("$DC$NamPlt$d", Description),
        ],
    }
}
