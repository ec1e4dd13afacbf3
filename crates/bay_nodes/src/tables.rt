// The rows of each logical node, in the order of the tree: the path from the node to the row, and
// the row's initial value (IEC 61850-7-4; IEC 61850-8-1, names of variables).
ghost use Rattle.std.specs.Borrow.{Bor};
ghost use Rattle.std.specs.Prelude.{◌≡◌, map, codes, ◌∷◌, [], ℕ, List};
ghost use Rattle.bay_nodes.specs.Node as node;
ghost use Rattle.bay_nodes.specs.NodeRows.{line_row, group_rows, select_row, input_rows, input_description_rows};
ghost use Rattle.bay_nodes.specs.declared.nameplate.Nameplate.{Nameplate};
ghost use Rattle.bay_nodes.specs.declared.subject.Subject.{Subject};
ghost use Rattle.bay_nodes.specs.declared.subject.Subject.TheVariants as subject;
ghost use Rattle.bay_nodes.specs.declared.switch.Switch.{Switch};

use crate::initial::InitialValue;
use crate::initial::InitialValue::{
    ControlModel, Description, False, Good, Int8, Int32, Intermediate, Invalid, Local,
    LocalQuality, Moment, NameSpace, Octets, Reference, Revision, SelectTimeout, Structure,
    SwitchType, Unsigned8, Vendor,
};
use crate::paths as paths;
use crate::profile::Profile;

/// Returns the rows below LLN0.
pub fn device_table(profile: Profile) -> &'static [(&'static str, InitialValue)]
    ensures { (n : Nameplate) → map (line_row n subject.Device) result.now
        ≡ node.rows_of_parts [] (node.device_parts profile n) }
{
    match profile {
        Profile::One => &[
            ("$ST", Structure),
            ("$ST$Mod", Structure),
            ("$ST$Mod$stVal", Int8(1)),
            ("$ST$Mod$q", Good),
            ("$ST$Mod$t", Moment),
            ("$ST$Beh", Structure),
            ("$ST$Beh$stVal", Int8(1)),
            ("$ST$Beh$q", Good),
            ("$ST$Beh$t", Moment),
            ("$ST$Health", Structure),
            ("$ST$Health$stVal", Int8(1)),
            ("$ST$Health$q", Good),
            ("$ST$Health$t", Moment),
            ("$CF", Structure),
            ("$CF$Mod", Structure),
            ("$CF$Mod$ctlModel", Int8(0)),
            ("$DC", Structure),
            ("$DC$NamPlt", Structure),
            ("$DC$NamPlt$vendor", Vendor),
            ("$DC$NamPlt$swRev", Revision),
            ("$DC$NamPlt$d", Description),
        ],
        Profile::Two => &[
            ("$ST", Structure),
            ("$ST$Mod", Structure),
            ("$ST$Mod$stVal", Int8(1)),
            ("$ST$Mod$q", Good),
            ("$ST$Mod$t", Moment),
            ("$ST$Beh", Structure),
            ("$ST$Beh$stVal", Int8(1)),
            ("$ST$Beh$q", Good),
            ("$ST$Beh$t", Moment),
            ("$ST$Health", Structure),
            ("$ST$Health$stVal", Int8(1)),
            ("$ST$Health$q", Good),
            ("$ST$Health$t", Moment),
            ("$CF", Structure),
            ("$CF$Mod", Structure),
            ("$CF$Mod$ctlModel", Int8(0)),
            ("$DC", Structure),
            ("$DC$NamPlt", Structure),
            ("$DC$NamPlt$vendor", Vendor),
            ("$DC$NamPlt$swRev", Revision),
            ("$DC$NamPlt$d", Description),
            ("$DC$NamPlt$configRev", Revision),
            ("$DC$NamPlt$ldNs", NameSpace),
        ],
    }
}

/// Returns the rows below LPHD1.
pub fn physical_table() -> &'static [(&'static str, InitialValue)]
    ensures { (n : Nameplate)
        → map (line_row n subject.Device) result.now
        ≡ node.rows_of_parts [] (node.physical_parts n) }
{
    &[
        ("$ST", Structure),
        ("$ST$PhyHealth", Structure),
        ("$ST$PhyHealth$stVal", Int8(1)),
        ("$ST$PhyHealth$q", Good),
        ("$ST$PhyHealth$t", Moment),
        ("$ST$Proxy", Structure),
        ("$ST$Proxy$stVal", False),
        ("$ST$Proxy$q", Good),
        ("$ST$Proxy$t", Moment),
        ("$DC", Structure),
        ("$DC$PhyNam", Structure),
        ("$DC$PhyNam$vendor", Vendor),
    ]
}

/// Returns the rows below XCBR, or below XSWI if `breaker` is false.
pub fn position_table(profile: Profile, breaker: bool) -> &'static [(&'static str, InitialValue)]
    ensures { (n : Nameplate) (s : Bor Switch) → map (line_row n (subject.Switch s)) result.now
        ≡ node.rows_of_parts [] (node.position_parts profile breaker n s.now) }
{
    match (profile, breaker) {
        (Profile::One, true) => &[
            ("$ST", Structure),
            (paths::POSITION.object, Structure),
            (paths::POSITION.value, Intermediate),
            (paths::POSITION.quality, Invalid),
            (paths::POSITION.time, Moment),
            ("$ST$BlkOpn", Structure),
            ("$ST$BlkOpn$stVal", False),
            ("$ST$BlkOpn$q", Good),
            ("$ST$BlkOpn$t", Moment),
            ("$ST$BlkCls", Structure),
            ("$ST$BlkCls$stVal", False),
            ("$ST$BlkCls$q", Good),
            ("$ST$BlkCls$t", Moment),
            (paths::OPERATIONS.object, Structure),
            (paths::OPERATIONS.value, Int32),
            (paths::OPERATIONS.quality, Good),
            (paths::OPERATIONS.time, Moment),
            ("$CF", Structure),
            ("$CF$Pos", Structure),
            ("$CF$Pos$ctlModel", Int8(0)),
        ],
        (Profile::One, false) => &[
            ("$ST", Structure),
            (paths::POSITION.object, Structure),
            (paths::POSITION.value, Intermediate),
            (paths::POSITION.quality, Invalid),
            (paths::POSITION.time, Moment),
            ("$ST$BlkOpn", Structure),
            ("$ST$BlkOpn$stVal", False),
            ("$ST$BlkOpn$q", Good),
            ("$ST$BlkOpn$t", Moment),
            ("$ST$BlkCls", Structure),
            ("$ST$BlkCls$stVal", False),
            ("$ST$BlkCls$q", Good),
            ("$ST$BlkCls$t", Moment),
            (paths::OPERATIONS.object, Structure),
            (paths::OPERATIONS.value, Int32),
            (paths::OPERATIONS.quality, Good),
            (paths::OPERATIONS.time, Moment),
            ("$ST$SwTyp", Structure),
            ("$ST$SwTyp$stVal", SwitchType),
            ("$ST$SwTyp$q", Good),
            ("$ST$SwTyp$t", Moment),
            ("$CF", Structure),
            ("$CF$Pos", Structure),
            ("$CF$Pos$ctlModel", Int8(0)),
        ],
        (Profile::Two, true) => &[
            ("$ST", Structure),
            ("$ST$Beh", Structure),
            ("$ST$Beh$stVal", Int8(1)),
            ("$ST$Beh$q", Good),
            ("$ST$Beh$t", Moment),
            (paths::LOCAL.object, Structure),
            (paths::LOCAL.value, Local),
            (paths::LOCAL.quality, LocalQuality),
            (paths::LOCAL.time, Moment),
            (paths::OPERATIONS.object, Structure),
            (paths::OPERATIONS.value, Int32),
            (paths::OPERATIONS.quality, Good),
            (paths::OPERATIONS.time, Moment),
            ("$ST$CBOpCap", Structure),
            ("$ST$CBOpCap$stVal", Int8(2)),
            ("$ST$CBOpCap$q", Good),
            ("$ST$CBOpCap$t", Moment),
            (paths::POSITION.object, Structure),
            (paths::POSITION.value, Intermediate),
            (paths::POSITION.quality, Invalid),
            (paths::POSITION.time, Moment),
            ("$ST$BlkOpn", Structure),
            ("$ST$BlkOpn$stVal", False),
            ("$ST$BlkOpn$q", Good),
            ("$ST$BlkOpn$t", Moment),
            ("$ST$BlkCls", Structure),
            ("$ST$BlkCls$stVal", False),
            ("$ST$BlkCls$q", Good),
            ("$ST$BlkCls$t", Moment),
            ("$CF", Structure),
            ("$CF$Pos", Structure),
            ("$CF$Pos$ctlModel", Int8(0)),
            ("$DC", Structure),
            ("$DC$NamPlt", Structure),
            ("$DC$NamPlt$vendor", Vendor),
            ("$DC$NamPlt$swRev", Revision),
            ("$DC$NamPlt$d", Description),
        ],
        (Profile::Two, false) => &[
            ("$ST", Structure),
            ("$ST$Beh", Structure),
            ("$ST$Beh$stVal", Int8(1)),
            ("$ST$Beh$q", Good),
            ("$ST$Beh$t", Moment),
            (paths::LOCAL.object, Structure),
            (paths::LOCAL.value, Local),
            (paths::LOCAL.quality, LocalQuality),
            (paths::LOCAL.time, Moment),
            (paths::OPERATIONS.object, Structure),
            (paths::OPERATIONS.value, Int32),
            (paths::OPERATIONS.quality, Good),
            (paths::OPERATIONS.time, Moment),
            ("$ST$SwTyp", Structure),
            ("$ST$SwTyp$stVal", SwitchType),
            ("$ST$SwTyp$q", Good),
            ("$ST$SwTyp$t", Moment),
            ("$ST$SwOpCap", Structure),
            ("$ST$SwOpCap$stVal", Int8(2)),
            ("$ST$SwOpCap$q", Good),
            ("$ST$SwOpCap$t", Moment),
            (paths::POSITION.object, Structure),
            (paths::POSITION.value, Intermediate),
            (paths::POSITION.quality, Invalid),
            (paths::POSITION.time, Moment),
            ("$ST$BlkOpn", Structure),
            ("$ST$BlkOpn$stVal", False),
            ("$ST$BlkOpn$q", Good),
            ("$ST$BlkOpn$t", Moment),
            ("$ST$BlkCls", Structure),
            ("$ST$BlkCls$stVal", False),
            ("$ST$BlkCls$q", Good),
            ("$ST$BlkCls$t", Moment),
            ("$CF", Structure),
            ("$CF$Pos", Structure),
            ("$CF$Pos$ctlModel", Int8(0)),
            ("$DC", Structure),
            ("$DC$NamPlt", Structure),
            ("$DC$NamPlt$vendor", Vendor),
            ("$DC$NamPlt$swRev", Revision),
            ("$DC$NamPlt$d", Description),
        ],
    }
}

/// Returns the first rows below CSWI: the position of its switch, and whether it is selected.
pub fn control_table(profile: Profile) -> &'static [(&'static str, InitialValue)]
    ensures { (n : Nameplate) (s : Subject)
        → map (line_row n s) result.now ≡ node.rows_of [] (node.control_status profile) }
{
    match profile {
        Profile::One => &[
            ("$ST", Structure),
            (paths::POSITION.object, Structure),
            (paths::POSITION.value, Intermediate),
            (paths::POSITION.quality, Invalid),
            (paths::POSITION.time, Moment),
            (paths::SELECTED, False),
        ],
        Profile::Two => &[
            ("$ST", Structure),
            ("$ST$Beh", Structure),
            ("$ST$Beh$stVal", Int8(1)),
            ("$ST$Beh$q", Good),
            ("$ST$Beh$t", Moment),
            (paths::POSITION.object, Structure),
            (paths::POSITION.value, Intermediate),
            (paths::POSITION.quality, Invalid),
            (paths::POSITION.time, Moment),
            (paths::SELECTED, False),
        ],
    }
}

/// Returns the rows that group the control rows.
pub fn group_table() -> &'static [(&'static str, InitialValue)]
    ensures { (n : Nameplate) (s : Subject) → map (line_row n s) result.now ≡ group_rows }
{
    &[("$CO", Structure), ("$CO$Pos", Structure)]
}

/// Returns the row by which a switch is selected.
pub fn select_table() -> &'static [(&'static str, InitialValue)]
    ensures { (n : Nameplate) (s : Subject) → map (line_row n s) result.now ≡ select_row }
{
    &[(paths::SELECT, Reference)]
}

/// Returns the rows by which a switch is selected with value.
pub fn select_with_value_table() -> &'static [(&'static str, InitialValue)]
    ensures { (n : Nameplate) (s : Subject)
        → map (line_row n s) result.now
        ≡ node.rows_of (codes "$CO$Pos") (node.operate_part (codes "SBOw")) }
{
    &[
        (paths::SELECT_WITH_VALUE, Structure),
        ("$CO$Pos$SBOw$ctlVal", False),
        ("$CO$Pos$SBOw$origin", Structure),
        ("$CO$Pos$SBOw$origin$orCat", Int8(0)),
        ("$CO$Pos$SBOw$origin$orIdent", Octets),
        ("$CO$Pos$SBOw$ctlNum", Unsigned8),
        ("$CO$Pos$SBOw$T", Moment),
        ("$CO$Pos$SBOw$Test", False),
        ("$CO$Pos$SBOw$Check", Intermediate),
    ]
}

/// Returns the rows by which a switch is operated.
pub fn operate_table() -> &'static [(&'static str, InitialValue)]
    ensures { (n : Nameplate) (s : Subject)
        → map (line_row n s) result.now
        ≡ node.rows_of (codes "$CO$Pos") (node.operate_part (codes "Oper")) }
{
    &[
        (paths::OPERATE, Structure),
        ("$CO$Pos$Oper$ctlVal", False),
        ("$CO$Pos$Oper$origin", Structure),
        ("$CO$Pos$Oper$origin$orCat", Int8(0)),
        ("$CO$Pos$Oper$origin$orIdent", Octets),
        ("$CO$Pos$Oper$ctlNum", Unsigned8),
        ("$CO$Pos$Oper$T", Moment),
        ("$CO$Pos$Oper$Test", False),
        ("$CO$Pos$Oper$Check", Intermediate),
    ]
}

/// Returns the rows by which a selection is cancelled.
pub fn cancel_table() -> &'static [(&'static str, InitialValue)]
    ensures { (n : Nameplate) (s : Subject)
        → map (line_row n s) result.now ≡ node.rows_of (codes "$CO$Pos") node.cancel_part }
{
    &[
        (paths::CANCEL, Structure),
        ("$CO$Pos$Cancel$ctlVal", False),
        ("$CO$Pos$Cancel$origin", Structure),
        ("$CO$Pos$Cancel$origin$orCat", Int8(0)),
        ("$CO$Pos$Cancel$origin$orIdent", Octets),
        ("$CO$Pos$Cancel$ctlNum", Unsigned8),
        ("$CO$Pos$Cancel$T", Moment),
        ("$CO$Pos$Cancel$Test", False),
    ]
}

/// Returns the last rows below CSWI: the settings of the control (IEC 61850-7-3, ctlModel and
/// sboTimeout), and the name plate.
pub fn control_settings_table(profile: Profile) -> &'static [(&'static str, InitialValue)]
    ensures { (n : Nameplate) (s : Bor Switch) → map (line_row n (subject.Switch s)) result.now
        ≡ node.rows_of_parts [] (node.parts_of (node.control_settings profile n s.now)) }
{
    match profile {
        Profile::One => &[
            ("$CF", Structure),
            ("$CF$Pos", Structure),
            ("$CF$Pos$ctlModel", ControlModel),
            ("$CF$Pos$sboTimeout", SelectTimeout),
        ],
        Profile::Two => &[
            ("$CF", Structure),
            ("$CF$Pos", Structure),
            ("$CF$Pos$ctlModel", ControlModel),
            ("$CF$Pos$sboTimeout", SelectTimeout),
            ("$DC", Structure),
            ("$DC$NamPlt", Structure),
            ("$DC$NamPlt$vendor", Vendor),
            ("$DC$NamPlt$swRev", Revision),
            ("$DC$NamPlt$d", Description),
        ],
    }
}

/// Returns the rows below CILO.
pub fn interlocking_table(profile: Profile) -> &'static [(&'static str, InitialValue)]
    ensures { (n : Nameplate) (s : Bor Switch) → map (line_row n (subject.Switch s)) result.now
        ≡ node.rows_of_parts [] (node.interlocking_parts profile n s.now) }
{
    match profile {
        Profile::One => &[
            ("$ST", Structure),
            (paths::OPENING.object, Structure),
            (paths::OPENING.value, False),
            (paths::OPENING.quality, Invalid),
            (paths::OPENING.time, Moment),
            (paths::CLOSING.object, Structure),
            (paths::CLOSING.value, False),
            (paths::CLOSING.quality, Invalid),
            (paths::CLOSING.time, Moment),
        ],
        Profile::Two => &[
            ("$ST", Structure),
            ("$ST$Beh", Structure),
            ("$ST$Beh$stVal", Int8(1)),
            ("$ST$Beh$q", Good),
            ("$ST$Beh$t", Moment),
            (paths::OPENING.object, Structure),
            (paths::OPENING.value, False),
            (paths::OPENING.quality, Invalid),
            (paths::OPENING.time, Moment),
            (paths::CLOSING.object, Structure),
            (paths::CLOSING.value, False),
            (paths::CLOSING.quality, Invalid),
            (paths::CLOSING.time, Moment),
            ("$DC", Structure),
            ("$DC$NamPlt", Structure),
            ("$DC$NamPlt$vendor", Vendor),
            ("$DC$NamPlt$swRev", Revision),
            ("$DC$NamPlt$d", Description),
        ],
    }
}

/// Returns the first rows below GGIO1.
pub fn inputs_table() -> &'static [(&'static str, InitialValue)]
    ensures { (n : Nameplate) (s : Subject) → map (line_row n s) result.now
        ≡ node.rows_of [] (node.inside (codes "ST") (node.behaviour Profile.Two)) }
{
    &[
        ("$ST", Structure),
        ("$ST$Beh", Structure),
        ("$ST$Beh$stVal", Int8(1)),
        ("$ST$Beh$q", Good),
        ("$ST$Beh$t", Moment),
    ]
}

/// Returns the rows below the data object of an input, in the group ST.
pub fn input_table() -> &'static [(&'static str, InitialValue)]
    ensures { (n : Nameplate) (s : Subject) → map (line_row n s) result.now
        ≡ input_rows }
{
    &[
        (paths::INPUT.object, Structure),
        (paths::INPUT.value, False),
        (paths::INPUT.quality, Invalid),
        (paths::INPUT.time, Moment),
    ]
}

/// Returns the rows of the group DC of GGIO1, up to the descriptions of the inputs.
pub fn inputs_plate_table() -> &'static [(&'static str, InitialValue)]
    ensures { (n : Nameplate) → map (line_row n subject.Device) result.now
        ≡ node.rows_of_parts [] (node.parts_of (node.description_group Profile.Two n n.model)) }
{
    &[
        ("$DC", Structure),
        ("$DC$NamPlt", Structure),
        ("$DC$NamPlt$vendor", Vendor),
        ("$DC$NamPlt$swRev", Revision),
        ("$DC$NamPlt$d", Description),
    ]
}

/// Returns the rows below the data object of an input, in the group DC.
pub fn input_description_table() -> &'static [(&'static str, InitialValue)]
    ensures { (n : Nameplate) (name : Bor (List ℕ))
        → map (line_row n (subject.Input name)) result.now
        ≡ input_description_rows name.now }
{
    &[("", Structure), ("$d", Description)]
}
