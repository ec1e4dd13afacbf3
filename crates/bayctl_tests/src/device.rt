// A device that is called as a library: its look-ups, a run of events, the image of its program,
// and the messages of its refusals.
ghost use Rattle.std.specs.Prelude.{◌<◌, length};

use crate::session::{self, CONFIRM, CONNECT, CONNECTED, REQUEST, octets_of};
use bay_base::position::Dbpos;
use bay_device::device::Device;
use bay_device::event::Event;
use bay_device::fault::{LoadFault, StepFault};
use bay_device::load::{load, load_image};
use bay_io::outbox::WriteFault;
use bay_tree::leaf::Leaf;
use bay_tree::tree::Tree;
use std::alloc::{AllocError, Global};
use std::process::Abort;
use std::test::Fail;

const BAY: &str =
    "bay = { domain = \"B\", vendor = \"V\", model = \"M\", revision = \"1\", scan_max_age_ms = 0 }
switch = [{ id = \"QA1\", kind = \"breaker\", control = \"status\" },
 { id = \"QB1\", kind = \"disconnector\", control = \"status\" }]
input = [{ name = \"ES\" }, { name = \"LK\" }]
meter = [{ id = \"M1\" }]
";

const LOGIC: &str = "PROGRAM P
VAR_EXTERNAL
QA1_OPEN, QB1_ENA_OPN, QB1_ENA_CLS : BOOL;
END_VAR
LD QA1_OPEN
ST QB1_ENA_OPN
ST QB1_ENA_CLS
END_PROGRAM
";

// The image of the program in version 1, split around the version number.
const IMAGE: [&str; 2] = [
    "494c4243",
    "00030100085141315f4f50454e01010b5142315f454e415f4f504e01010b5142315f454e415f434c5300000000000d02000607000008000108000201",
];

// Checks that look-ups find names in either case, do not find other kinds' names, and count each
// kind correctly.
fn check_look_ups(rt: &impl Abort, device: &Device) {
    let switches = [
        device.switch("qb1"),
        device.switch("QA1"),
        device.switch("QB2"),
    ];
    assert_eq!(rt; switches, [Some(1), Some(0), None]);
    let inputs = [device.input("es"), device.input("Lk"), device.input("M1")];
    assert_eq!(rt; inputs, [Some(0), Some(1), None]);
    assert_eq!(rt; [device.meter("m1"), device.meter("ES")], [Some(0), None]);
    let counts = [
        device.switch_count(),
        device.input_count(),
        device.meter_count(),
    ];
    assert_eq!(rt; counts, [2, 2, 1]);
    let ids = [device.id(0), device.id(1), device.id(2)];
    assert_eq!(rt; ids, [Some("QA1"), Some("QB1"), None]);
    assert_eq!(rt;
        [device.ena(0), device.ena(2)],
        [Some((false, false)), None]
    );
}

// Contacts of a switch that exists, and of one that does not.
const SOME: Event<'static> = Event::Contact {
    switch: 0,
    position: Dbpos::Off,
};

const NO: Event<'static> = Event::Contact {
    switch: 2,
    position: Dbpos::Off,
};

// No octets of association 1, and one of association 2.
const NOTHING: Event<'static> = Event::Recv {
    association: 1,
    octets: &[],
};

const OTHER: Event<'static> = Event::Recv {
    association: 2,
    octets: &[0],
};

// Checks a device's answers to events of the process, and of associations, one of which requests a
// transport connection: the numbers of the faults, 0 for events that are accepted.
fn check_run(rt: &impl Abort, alloc: Global, device: &mut Device) -> Result<(), Fail> {
    let request = octets_of(alloc, &[REQUEST])?;
    let asked = Event::Recv {
        association: 1,
        octets: request.as_slice(),
    };
    let answers = match device.run(&[
        (1000, SOME),
        (1000, Event::Scan),
        (999, SOME),
        (1001, NO),
        (4_294_967_296_000, NO),
        (2000, Event::Open { association: 1 }),
        (2000, asked),
        (2000, NOTHING),
        (2000, OTHER),
        (2000, Event::Close { association: 1 }),
        (2000, Event::Close { association: 1 }),
        (2000, NOTHING),
    ]) {
        Ok(answers) => answers,
        Err(fault) => {
            // No event has been handled, so the moment 0 is not before that of the last one.
            let refused = device.step(0, Event::Close { association: 1 });
            assert!(rt; matches!(refused, Err(StepFault::NoSuchAssociation)));
            return Err(Fail::from(fault));
        }
    };
    let mut codes = Vec::new(alloc);
    for answer in answers.as_slice() {
        let code = match answer {
            Ok(_) => 0,
            Err(fault) => fault.code(),
        };
        codes.push(code)?;
    }
    assert!(rt; codes.as_slice() == [0, 0, 110, 113, 114, 0, 0, 0, 111, 0, 111, 111].as_slice());
    let [_, Ok(scanned), _, _, _, _, Ok(confirmed), ..] = answers.as_slice() else {
        return Err(Fail::from("a scan and a request are done"));
    };
    let [sent] = confirmed.sent.as_slice() else {
        return Err(Fail::from("a request is answered"));
    };
    let confirm = octets_of(alloc, &[CONFIRM])?;
    assert!(rt; scanned.scan == Some(6) && sent.octets.as_slice() == confirm.as_slice());
    assert_eq!(rt; device.ena(1), Some((true, true)));
    check_tree(rt, device.tree());
    Ok(())
}

// Returns the value of the row with a name; `None` if there is no such row, or it has no value.
fn value_of<'a>(tree: &'a Tree, name: &str) -> Option<&'a Leaf> {
    match tree.find(name) {
        Ok(handle) => tree.get(handle),
        Err(_) => None,
    }
}

// Checks rows after these events: the reported position, one that nobody reported, and what the
// scan releases.
fn check_tree(rt: &impl Abort, tree: &Tree) {
    let open = value_of(tree, "XCBR1$ST$Pos$stVal");
    assert!(rt; matches!(open, Some(Leaf::Dbpos(Dbpos::Off))));
    let unknown = value_of(tree, "XSWI1$ST$Pos$stVal");
    assert!(rt; matches!(unknown, Some(Leaf::Dbpos(Dbpos::Intermediate))));
    let released = value_of(tree, "CILO2$ST$EnaCls$stVal");
    assert!(rt; matches!(released, Some(Leaf::Truth(true))));
    let blocked = value_of(tree, "CILO1$ST$EnaCls$stVal");
    assert!(rt; matches!(blocked, Some(Leaf::Truth(false))));
    assert!(rt; value_of(tree, "CILO2$ST$EnaCls").is_none());
    assert!(rt; value_of(tree, "CILO3$ST$EnaCls$stVal").is_none());
}

// Shows P-004, P-019, P-025.
#[test]
fn a_device_of_a_text(rt: HostRuntime) -> Result<(), Fail> {
    match load(rt.alloc(), BAY, LOGIC) {
        Ok(mut device) => {
            check_look_ups(&rt, &device);
            check_run(&rt, rt.alloc(), &mut device)
        }
        Err(fault) => Err(Fail::from(fault)),
    }
}

// A read that selects the first switch, with its answer, and a read of its stSeld.
const SELECT: &str =
    "0300003d02f080010001006130302e020103a029a027020108a422a120a01e301ca01aa1181a04424159311a10435357493124434f24506f732453424f";

const SELECTED: &str =
    "0300003402f0800100010061273025020103a020a11e020108a419a1178a15424159312f435357493124434f24506f732453424f";

const READ: &str =
    "0300004002f0800100010061333031020103a02ca02a020102a425a123a021301fa01da11b1a04424159311a13435357493124535424506f7324737453656c64";

const TRUE: &str = "0300002002f0800100010061133011020103a00ca10a020102a405a1038301ff";

// A client reads stSeld of a selected switch as TRUE; the tree itself has FALSE.
// Shows P-025, P-027.
#[test]
fn a_tree_shows_no_selection(rt: HostRuntime) -> Result<(), Fail> {
    let mut device = match load(rt.alloc(), session::BAY, session::LOGIC) {
        Ok(device) => device,
        Err(fault) => return Err(Fail::from(fault)),
    };
    device.step(1000, Event::Open { association: 1 })?;
    for (message, answer) in [
        (REQUEST, CONFIRM),
        (CONNECT, CONNECTED),
        (SELECT, SELECTED),
        (READ, TRUE),
    ] {
        let octets = octets_of(rt.alloc(), &[message])?;
        let step = device.step(
            1000,
            Event::Recv {
                association: 1,
                octets: octets.as_slice(),
            },
        )?;
        let [sent] = step.sent.as_slice() else {
            return Err(Fail::from("each message is answered"));
        };
        let wanted = octets_of(rt.alloc(), &[answer])?;
        assert!(rt; sent.octets.as_slice() == wanted.as_slice());
    }
    let selected = value_of(device.tree(), "CSWI1$ST$Pos$stSeld");
    assert!(rt; matches!(selected, Some(Leaf::Truth(false))));
    Ok(())
}

// A device that is loaded from an image in version 1 or 2 returns its image in version 2.
// Shows P-017, P-018, P-019.
#[test]
fn a_device_of_an_image(rt: HostRuntime) -> Result<(), Fail> {
    let first = octets_of(rt.alloc(), &[IMAGE[0], "01", IMAGE[1]])?;
    let second = octets_of(rt.alloc(), &[IMAGE[0], "02", IMAGE[1]])?;
    for image in [first.as_slice(), second.as_slice()] {
        match load_image(rt.alloc(), BAY, image) {
            Ok(device) => assert!(rt; device.image()?.as_slice() == second.as_slice()),
            Err(fault) => return Err(Fail::from(fault)),
        }
    }
    Ok(())
}

// The codes of an image whose scan takes more instructions than its budget, and of an image that is
// not loaded since an allocation fails; no fault has one of them.
const LONG_SCAN: u8 = 1;

const OUT_OF_MEMORY: u8 = 2;

// Returns the number of the fault with which `load_image` refuses an image; 0 if the image is
// loaded, and a scan of its device ends within the budget that was reported.
fn load_code(alloc: Global, octets: &[u8]) -> u8 {
    let mut device = match load_image(alloc, session::BAY, octets) {
        Ok(device) => device,
        Err(LoadFault::Refused { code, line: _ }) => return code,
        Err(LoadFault::OutOfMemory) => return OUT_OF_MEMORY,
    };
    let budget = device.report().budget;
    let is_within = match device.step(1000, Event::Scan) {
        Ok(step) => step.scan.unwrap_or(u32::MAX) <= budget,
        Err(_) => false,
    };
    if is_within { 0 } else { LONG_SCAN }
}

// The number of images for each code, 0 to 100.
type Counts = [u32; 101];

// Loads an image with the octet at an index replaced by each other value, and counts the codes.
fn count_at(alloc: Global, octets: &mut [u8], at: usize, counts: &mut Counts)
    requires { at < length octets.old }
{
    let was = octets[at];
    for more in 1..=255u8 {
        octets[at] = was.wrapping_add(more);
        let code = usize::from(load_code(alloc, octets));
        if let Some(count) = counts.get_mut(code) {
            *count = count.saturating_add(1);
        }
    }
    octets[at] = was;
}

// The octets of a part of the image, which has five: all its changed images take longer than a test
// may.
const PART: usize = 13;

// Does this with each octet of a part, and returns the codes with their counts.
fn counts_text(alloc: Global, octets: &mut [u8], part: usize) -> Result<String, AllocError> {
    let mut counts = [0; 101];
    for at in 0..octets.len() {
        if at / PART == part {
            count_at(alloc, octets, at, &mut counts);
        }
    }
    let mut text = String::new(alloc);
    for (code, count) in counts.iter().enumerate() {
        if *count > 0 {
            write!(text, "{code}={count} ")?;
        }
    }
    Ok(text)
}

// The codes of the images of each version in which one octet of a part differs from an image that
// is loaded, for each part, as tests/repository/test_images.py counts them by the rules of
// docs/IMAGE.md. Loaded are three with the name of another point, one of the other version, and
// changes of the code: 14, and in version 2 one more, to a PUSHL. In version 1 also those with 1 to
// 64 timers, since that version has no octets for each timer.
const VERSION_1: [&str; 5] = [
    "0=2 80=1020 81=254 82=1928 100=111 ",
    "0=1 82=2951 100=363 ",
    "0=1 82=2951 100=363 ",
    "0=64 82=2043 83=510 100=698 ",
    "0=14 82=1682 83=23 90=26 92=4 94=1528 95=20 96=6 97=5 99=5 100=2 ",
];

const VERSION_2: [&str; 5] = [
    "0=2 80=1020 81=254 82=1927 100=112 ",
    "0=1 82=2950 100=364 ",
    "0=1 82=2950 100=364 ",
    "82=2553 83=510 100=252 ",
    "0=15 82=1674 83=26 90=26 92=7 94=1528 95=20 96=6 97=5 99=6 100=2 ",
];

// Checks the codes of a part of an image in a version. Each image goes through `load_image`: it is
// loaded and scanned within its budget, or refused with its fault.
fn check_part(
    rt: &impl Abort,
    alloc: Global,
    version: &str,
    part: usize,
    wanted: &str,
) -> Result<(), Fail> {
    let mut octets = octets_of(alloc, &[IMAGE[0], version, IMAGE[1]])?;
    let found = counts_text(alloc, octets.as_mut_slice(), part)?;
    assert_eq!(rt; found.as_str(), wanted);
    Ok(())
}

// Shows P-018, P-061, P-138.
#[test]
fn part_0_of_version_1(rt: HostRuntime) -> Result<(), Fail> {
    check_part(&rt, rt.alloc(), "01", 0, VERSION_1[0])
}

// Shows P-018, P-061, P-138.
#[test]
fn part_1_of_version_1(rt: HostRuntime) -> Result<(), Fail> {
    check_part(&rt, rt.alloc(), "01", 1, VERSION_1[1])
}

// Shows P-018, P-061, P-138.
#[test]
fn part_2_of_version_1(rt: HostRuntime) -> Result<(), Fail> {
    check_part(&rt, rt.alloc(), "01", 2, VERSION_1[2])
}

// Shows P-018, P-061, P-138.
#[test]
fn part_3_of_version_1(rt: HostRuntime) -> Result<(), Fail> {
    check_part(&rt, rt.alloc(), "01", 3, VERSION_1[3])
}

// Shows P-018, P-055, P-056, P-061, P-138.
#[test]
fn part_4_of_version_1(rt: HostRuntime) -> Result<(), Fail> {
    check_part(&rt, rt.alloc(), "01", 4, VERSION_1[4])
}

// Shows P-018, P-061, P-138.
#[test]
fn part_0_of_version_2(rt: HostRuntime) -> Result<(), Fail> {
    check_part(&rt, rt.alloc(), "02", 0, VERSION_2[0])
}

// Shows P-018, P-061, P-138.
#[test]
fn part_1_of_version_2(rt: HostRuntime) -> Result<(), Fail> {
    check_part(&rt, rt.alloc(), "02", 1, VERSION_2[1])
}

// Shows P-018, P-061, P-138.
#[test]
fn part_2_of_version_2(rt: HostRuntime) -> Result<(), Fail> {
    check_part(&rt, rt.alloc(), "02", 2, VERSION_2[2])
}

// Shows P-018, P-061, P-138.
#[test]
fn part_3_of_version_2(rt: HostRuntime) -> Result<(), Fail> {
    check_part(&rt, rt.alloc(), "02", 3, VERSION_2[3])
}

// Shows P-018, P-055, P-056, P-061, P-138.
#[test]
fn part_4_of_version_2(rt: HostRuntime) -> Result<(), Fail> {
    check_part(&rt, rt.alloc(), "02", 4, VERSION_2[4])
}

// Shows P-139.
#[test]
fn messages(rt: HostRuntime) -> Result<(), Fail> {
    let found = format!(in rt.alloc();
        "{}, {}, {}, {}, {}, {}",
        LoadFault::Refused { code: 70, line: 2 },
        LoadFault::OutOfMemory,
        StepFault::MomentTooLarge,
        StepFault::TimeWentBack,
        StepFault::NoSuchPoint,
        WriteFault
    )?;
    let wanted = "fault 70 at line 2, out of memory, the moment is too large, \
        the moment is before the last event's, there is no such switch, input or meter, \
        a write failed";
    assert_eq!(rt; found.as_str(), wanted);
    Ok(())
}
