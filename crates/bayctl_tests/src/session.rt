// Messages of a client, with their answers: a request for a transport connection, one for an
// association, and an identify.
use bay_device::load::load;
use bay_server_turn::server::Server;
use std::alloc::Global;
use std::test::Fail;

/// Two switches, the first of which must be selected before it is operated.
pub const BAY: &str =
    "[bay]\ndomain = \"BAY1\"\nvendor = \"Demo\"\nmodel = \"BC1\"\nrevision = \"1.0\"\nscan_max_age_ms = 1000\n[[switch]]\nid = \"QA1\"\nkind = \"breaker\"\ncontrol = \"sbo\"\nsbo_timeout_ms = 2000\ntravel_ms = 500\n[[switch]]\nid = \"QB1\"\nkind = \"disconnector\"\ncontrol = \"direct\"\ntravel_ms = 3000\n";

/// The second switch is released while the first is open.
pub const LOGIC: &str =
    "PROGRAM P\nVAR_EXTERNAL\nQA1_OPEN : BOOL;\nQB1_ENA_OPN : BOOL;\nQB1_ENA_CLS : BOOL;\nEND_VAR\nLD QA1_OPEN\nST QB1_ENA_OPN\nST QB1_ENA_CLS\nEND_PROGRAM\n";

pub const REQUEST: &str = "0300001611e00000000100c0010dc2020001c1020001";

pub const CONFIRM: &str = "0300001611d00001000100c0010dc2020001c1020001";

pub const CONNECT: &str =
    "030000bb02f0800db20506130100160102140200023302000134020001c19c318199a003800101a28191810400000001820400000001a423300f0201010604520100013004060251013010020103060528ca220201300406025101615e305c020101a0576055a107060528ca220203a20706052901876701a30302010ca606060429018767a70302010cbe2f282d020103a028a826800300fde881010a82010a830105a416800101810305f100820c03ee1c00000408000079ef18";

pub const CONNECTED: &str =
    "0300008b02f0800e82050613010016010214020002c1743172a003800101a26b830400000001a512300780010081025101300780010081025101614f304d020101a0486146a107060528ca220203a203020100a305a103020100be2f282d020103a028a926800300fde8810105820105830105a416800101810305e000820c036e00000000000000000110";

pub const IDENTIFY: &str = "0300001b02f08001000100610e300c020103a007a0050201018200";

pub const IDENTITY: &str =
    "0300002b02f08001000100611e301c020103a017a115020101a210800444656d6f81034243318203312e30";

/// Returns the octets that hexadecimal digits encode.
pub fn octets_of(alloc: Global, texts: &[&str]) -> Result<Vec<u8>, Fail> {
    let mut digits = String::new(alloc);
    for text in texts {
        digits.push_str(text)?;
    }
    Ok(hex::decode(alloc, digits.as_str())?)
}

/// Creates a server of the device of the two switches.
pub fn server(alloc: Global) -> Result<Server, Fail> {
    match load(alloc, BAY, LOGIC) {
        Ok(device) => match Server::new(alloc, device) {
            Ok(server) => Ok(server),
            Err(_) => Err(Fail::from("no memory")),
        },
        Err(fault) => Err(Fail::from(fault)),
    }
}
