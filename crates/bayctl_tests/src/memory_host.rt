// A host in memory: its files, its ports and clocks, and what records the output of a command.
use crate::memory_link::MemoryLink;
use crate::session;
use bay_io::calls::{LinePart, Sink};
use bay_io::input::ReadFault;
use bay_io::moments::utc_text;
use bay_main::clock::Clocks;
use bay_main::files::{FileFault, FileSystem, ProtectedFile};
use bay_main::host::{BindFault, Host};
use std::alloc::Global;
use std::cell::RefCell;
use std::fs::File;
use std::io;
use std::io::{ErrorKind, Write};

const BAY: &str =
    "bay = { domain = \"B\", vendor = \"V\", model = \"M\", revision = \"1\", scan_max_age_ms = 0 }
switch = [{ id = \"Q\", kind = \"breaker\", control = \"status\" }]
";

const LOGIC: &str = "PROGRAM P
END_PROGRAM
";

/// A trace, bay files, programs and keys, each under its own name.
#[derive(Drop)]
pub struct Texts<'a> {
    pub trace: &'a str,
}

impl FileSystem for Texts<'_> {
    fn read(&self, alloc: Global, name: &str) -> Result<Vec<u8>, ReadFault> {
        let text = match name {
            "bay" => BAY,
            "logic" => LOGIC,
            "trace" => self.trace,
            "two" => session::BAY,
            "free" => session::LOGIC,
            "key" | "others" => "0123456789abcdefABCDEF0123456789\r\n",
            _ => return Err(ReadFault::Failed(ErrorKind::NotFound)),
        };
        match Vec::from_slice(alloc, text.as_bytes()) {
            Ok(octets) => Ok(octets),
            Err(_) => Err(ReadFault::OutOfMemory),
        }
    }

    // Users other than its owner may read the file `others` alone.
    fn read_guarded(&self, alloc: Global, name: &str) -> Result<ProtectedFile, ReadFault> {
        Ok(ProtectedFile {
            octets: self.read(alloc, name)?,
            is_private: name != "others",
        })
    }

    fn write(
        &mut self,
        _alloc: Global,
        _name: &str,
        _number: u32,
        _octets: &[u8],
    ) -> Result<bool, FileFault> {
        Err(FileFault::Failed(ErrorKind::PermissionDenied))
    }

    // A file for a record cannot be created.
    fn create(&mut self, _name: &str) -> Result<File, FileFault> {
        Err(FileFault::Failed(ErrorKind::PermissionDenied))
    }

    fn is_same(&self, _alloc: Global, name: &str, other: &str) -> bool {
        name == other
    }
}

/// Stores what is printed, and what is logged, each line after `| `.
#[derive(Drop)]
pub struct Recorder<'a> {
    pub text: &'a RefCell<Vec<u8>>,
}

impl Recorder<'_> {
    // Stores a part of a text.
    fn keep(&self, part: LinePart<'_>) -> io::Result<()> {
        let mut text = self.text.try_borrow_mut()?;
        match part {
            LinePart::Text(octets) => Ok(text.extend_from_slice(octets)?),
            LinePart::Number(number) => write!(text, "{number}"),
            LinePart::Moment(moment) => Ok(text.extend_from_slice(utc_text(moment).as_slice())?),
        }
    }
}

impl Sink for Recorder<'_> {
    fn write_octets(&mut self, octets: &[u8]) -> io::Result<usize> {
        self.keep(LinePart::Text(octets))?;
        Ok(octets.len())
    }

    fn flush_octets(&mut self) -> io::Result<()> {
        Ok(())
    }

    fn log_line(&mut self, parts: &[LinePart<'_>]) {
        let _ = self.keep(LinePart::Text(b"| "));
        for part in parts {
            let _ = self.keep(*part);
        }
    }
}

/// A host with a port for clients and port 9 for a process, each of which can be opened once. Its
/// clocks advance by `step` milliseconds each time they are read. The clock of the system is ahead
/// by `jump` at the third to the fifth reading.
#[derive(Drop)]
pub struct Ports<'a> {
    pub clients: Option<MemoryLink<'a>>,
    pub process: Option<MemoryLink<'a>>,
    pub now: u64,
    pub step: u64,
    pub readings: u32,
    pub jump: u64,
}

impl<'a> Host<MemoryLink<'a>> for Ports<'a> {
    fn bind(&mut self, port: u16, _idle_s: Option<u32>) -> Result<MemoryLink<'a>, BindFault> {
        if port == 9 {
            self.process.take().ok_or(BindFault::Denied)
        } else {
            self.clients.take().ok_or(BindFault::InUse)
        }
    }

    fn clocks(&mut self) -> Clocks {
        self.now = self.now.saturating_add(self.step);
        self.readings = self.readings.saturating_add(1);
        let jump = match self.readings {
            3..=5 => self.jump,
            _ => 0,
        };
        Clocks {
            system: self.now.saturating_add(jump),
            steady: self.now,
        }
    }

    fn pause(&mut self) {}

    fn wait_until(&mut self, steady: u64) {
        self.now = self.now.max(steady);
    }
}
