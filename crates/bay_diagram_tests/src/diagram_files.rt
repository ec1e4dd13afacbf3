// Diagram files of a small bay: the diagram of one, and the refusals of others.
use bay_base::switch::SwitchKind;
use bay_config::read::read_bay;
use bay_diagram::network::{Device, NodeKind};
use bay_diagram_file::fault::Place;
use bay_diagram_file::read::read_diagram;
use std::alloc::{AllocError, Global};
use std::test::Fail;

const BAY: &str =
    "bay = { domain = \"B\", vendor = \"V\", model = \"M\", revision = \"1\", scan_max_age_ms = 0 }
switch = [{ id = \"QA1\", kind = \"breaker\", control = \"status\" },
 { id = \"QB1\", kind = \"disconnector\", control = \"status\" },
 { id = \"QC1\", kind = \"earthing\", control = \"status\" }]
input = [{ name = \"VT\" }, { name = \"TB_CLOSED\" }]
";

const NODES: &str = "[{ name = \"BB\", kind = \"busbar\", source = true },
 { name = \"N1\", kind = \"junction\" },
 { name = \"E\", kind = \"earth\" },
 { name = \"LINE\", kind = \"line\", source = true, system = \"110 kV\", dead = \"vt\" }]";

const SWITCHES: &str = "[{ switch = \"QB1\", nodes = [\"BB\", \"N1\"] },
 { switch = \"qa1\", nodes = [\"N1\", \"Line\"] },
 { switch = \"QC1\", nodes = [\"E\", \"LINE\"] },
 { name = \"TB\", kind = \"breaker\", isolates = true, closed = \"TB_CLOSED\", nodes = [\"BB\",
  \"LINE\"] }]";

// A file with a part of its text replaced by another, and its fault.
#[derive(Clone, Copy)]
struct Row {
    old: &'static str,
    new: &'static str,
    code: u8,
    place: Place,
}

// Returns a row of the table.
fn refused(old: &'static str, new: &'static str, code: u8, place: Place) -> Row {
    Row {
        old,
        new,
        code,
        place,
    }
}

// The refusals, in the order of their numbers.
fn rows() -> [Row; 37] {
    [
        refused("node =", "node", 146, Place::File),
        refused("node =", "shape = 1\nnode =", 147, Place::File),
        refused(
            "node =",
            "check = { live_part = true }\nnode =",
            147,
            Place::File,
        ),
        refused(
            "kind = \"busbar\"",
            "kind = \"busbar\", live = 1",
            147,
            Place::Node(0),
        ),
        refused(
            "switch = \"qa1\"",
            "switch = \"qa1\", id = \"X\"",
            147,
            Place::Between(1),
        ),
        refused(NODES, "[]", 148, Place::File),
        refused("kind = \"junction\"", "source = false", 148, Place::Node(1)),
        refused(
            "nodes = [\"E\", \"LINE\"]",
            "isolates = false",
            148,
            Place::Between(2),
        ),
        refused(
            "kind = \"junction\"",
            "kind = \"joint\"",
            149,
            Place::Node(1),
        ),
        refused("name = \"N1\"", "name = \"1N\"", 149, Place::Node(1)),
        refused("source = true }", "source = 1 }", 149, Place::Node(0)),
        refused("[\"E\", \"LINE\"]", "[\"E\"]", 149, Place::Between(2)),
        refused(
            "isolates = true",
            "isolates = \"yes\"",
            149,
            Place::Between(3),
        ),
        refused("node =", "check = []\nnode =", 149, Place::File),
        refused(
            "node =",
            "check = { live_parts = true, fed_earths = 1 }\nnode =",
            149,
            Place::File,
        ),
        refused(
            "switch = \"qa1\"",
            "switch = \"qa1\", synchro = 1",
            149,
            Place::Between(1),
        ),
        refused(
            "switch = \"qa1\"",
            "switch = \"qa1\", coupler = \"yes\"",
            149,
            Place::Between(1),
        ),
        refused("name = \"E\"", "name = \"bb\"", 151, Place::Node(0)),
        refused(
            "switch = \"qa1\"",
            "switch = \"QB1\"",
            151,
            Place::Between(0),
        ),
        refused("dead = \"vt\"", "dead = \"VT_DEAD\"", 152, Place::Node(3)),
        refused(
            "[\"BB\", \"N1\"]",
            "[\"BB\", \"N2\"]",
            152,
            Place::Between(0),
        ),
        refused("\"qa1\"", "\"QA2\"", 152, Place::Between(1)),
        refused(
            "closed = \"TB_CLOSED\"",
            "open = \"TB_OPEN\"",
            152,
            Place::Between(3),
        ),
        refused(
            "switch = \"qa1\"",
            "switch = \"qa1\", synchro = \"SYNC\"",
            152,
            Place::Between(1),
        ),
        refused(
            "kind = \"junction\"",
            "kind = \"junction\", source = true",
            153,
            Place::Node(1),
        ),
        refused(
            "kind = \"junction\"",
            "kind = \"junction\", dead = \"VT\"",
            153,
            Place::Node(1),
        ),
        refused(
            "switch = \"qa1\"",
            "switch = \"qa1\", kind = \"breaker\"",
            154,
            Place::Between(1),
        ),
        refused(
            "name = \"TB\", kind = \"breaker\"",
            "name = \"TB\"",
            154,
            Place::Between(3),
        ),
        refused(
            "switch = \"QB1\"",
            "switch = \"QB1\", coupler = true",
            154,
            Place::Between(0),
        ),
        refused(
            "name = \"TB\"",
            "name = \"TB\", synchro = \"VT\"",
            154,
            Place::Between(3),
        ),
        refused(
            "[\"N1\", \"Line\"]",
            "[\"N1\", \"n1\"]",
            154,
            Place::Between(1),
        ),
        refused(
            "[\"N1\", \"Line\"]",
            "[\"N1\", \"e\"]",
            154,
            Place::Between(1),
        ),
        refused(
            "[\"E\", \"LINE\"]",
            "[\"N1\", \"LINE\"]",
            154,
            Place::Between(2),
        ),
        refused(
            "switch = \"QC1\"",
            "name = \"QC2\", kind = \"earthing\"",
            155,
            Place::Switch(2),
        ),
        refused(
            "[\"BB\", \"N1\"]",
            "[\"BB\", \"LINE\"]",
            155,
            Place::Node(1),
        ),
        refused(
            "{ name = \"E\"",
            "{ name = \"X\", kind = \"line\" }, { name = \"E\"",
            155,
            Place::Node(2),
        ),
        refused("source = true", "source = false", 153, Place::Node(3)),
    ]
}

// Returns the text of a file.
fn text_of(alloc: Global) -> Result<String, AllocError> {
    format!(in alloc; "node = {NODES}\nbetween = {SWITCHES}\n")
}

// Shows P-151.
#[test]
fn refusals_of_diagram_files(rt: HostRuntime) -> Result<(), Fail> {
    let alloc = rt.alloc();
    let bay = read_bay(alloc, BAY)?;
    let whole = text_of(alloc)?;
    for row in rows() {
        let text = whole.as_str().replace(alloc, row.old, row.new)?;
        match read_diagram(alloc, &bay, text.as_str()) {
            Ok(_) => assert!(rt; false, "{} is not refused", row.new),
            Err(fault) => {
                let found = (fault.kind.code().unwrap_or(0), fault.place);
                assert_eq!(rt; found, (row.code, row.place), "{}", row.new);
            }
        }
    }
    Ok(())
}

// A branch of the diagram: its number, the numbers of its nodes, its kind, whether it isolates; the
// index of a switch of the bay, or those of the inputs of another one.
#[derive(Clone, Copy)]
struct Wanted {
    number: usize,
    nodes: (u8, u8),
    kind: SwitchKind,
    isolates: bool,
    device: (Option<usize>, Option<usize>, Option<usize>),
}

// The branches of the diagram.
fn branches_wanted() -> [Wanted; 4] {
    [
        Wanted {
            number: 0,
            nodes: (0, 1),
            kind: SwitchKind::Disconnector,
            isolates: true,
            device: (Some(1), None, None),
        },
        Wanted {
            number: 1,
            nodes: (1, 3),
            kind: SwitchKind::Breaker,
            isolates: false,
            device: (Some(0), None, None),
        },
        Wanted {
            number: 2,
            nodes: (3, 3),
            kind: SwitchKind::Earthing,
            isolates: false,
            device: (Some(2), None, None),
        },
        Wanted {
            number: 3,
            nodes: (0, 3),
            kind: SwitchKind::Breaker,
            isolates: true,
            device: (None, Some(1), None),
        },
    ]
}

// Returns the index of a switch of the bay, or those of the inputs of another one.
fn device_of(device: Device) -> (Option<usize>, Option<usize>, Option<usize>) {
    match device {
        Device::Own { switch } => (Some(switch), None, None),
        Device::Other {
            closed_input,
            open_input,
        } => (None, closed_input, open_input),
    }
}

// The nodes of the diagram: its number, its kind, whether it is a source, and its input.
const NODES_READ: [(u8, NodeKind, bool, Option<usize>); 3] = [
    (0, NodeKind::Busbar, true, None),
    (1, NodeKind::Junction, false, None),
    (3, NodeKind::Line, true, Some(0)),
];

// Shows P-151.
#[test]
fn the_diagram_of_a_file(rt: HostRuntime) -> Result<(), Fail> {
    let alloc = rt.alloc();
    let bay = read_bay(alloc, BAY)?;
    let text = text_of(alloc)?;
    let network = match read_diagram(alloc, &bay, text.as_str()) {
        Ok(network) => network,
        Err(fault) => return Err(Fail::from(fault.kind)),
    };
    let nodes = network.nodes.as_slice();
    assert_eq!(rt; nodes.len(), NODES_READ.len());
    for (node, wanted) in nodes.iter().zip(NODES_READ.iter()) {
        assert_eq!(rt;
            (node.number, node.kind, node.is_source, node.dead),
            *wanted
        );
    }
    let branches = network.branches.as_slice();
    let wanted = branches_wanted();
    assert_eq!(rt; branches.len(), wanted.len());
    for (branch, wanted) in branches.iter().zip(wanted.iter()) {
        assert_eq!(rt; branch.number, wanted.number);
        assert_eq!(rt; (branch.one, branch.other), wanted.nodes);
        assert_eq!(rt;
            (branch.kind, branch.isolates),
            (wanted.kind, wanted.isolates)
        );
        assert_eq!(rt; device_of(branch.device), wanted.device);
    }
    Ok(())
}

// Shows P-151.
#[test]
fn keys_that_request_hazards(rt: HostRuntime) -> Result<(), Fail> {
    let alloc = rt.alloc();
    let bay = read_bay(alloc, BAY)?;
    let without = text_of(alloc)?;
    let with = format!(in alloc;
        "check = {{ live_parts = true, fed_earths = false }}\n{}",
        without.as_str()
    )?;
    for (text, is_requested) in [(without.as_str(), false), (with.as_str(), true)] {
        let network = match read_diagram(alloc, &bay, text) {
            Ok(network) => network,
            Err(fault) => return Err(Fail::from(fault.kind)),
        };
        let checks = network.checks;
        assert_eq!(rt;
            (checks.live_parts, checks.fed_earths),
            (is_requested, false)
        );
        for branch in network.branches.as_slice() {
            assert_eq!(rt; (branch.synchro, branch.is_coupler), (None, false));
        }
    }
    Ok(())
}
