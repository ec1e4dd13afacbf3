// A bay's controls, call by call.
//
// `MS A K select`, `MS A K select-with ASK`, `MS A K operate VIEW ASK` and `MS A K cancel` have the
// answer `ok` or the cause; `MS advance` the index of the switch whose execution expired; `contact
// K POSITION` whether it ends the execution; `close A`, which ends the association's selection,
// `ok`; `selected` the index of the selected switch.
//
// An `ASK` is `POSITION CATEGORY IDENTITY` with `on` or `off` and the octets of the identity,
// followed by `test` for a test and by `synchrocheck` if Check requests one. A `VIEW` is the
// position,
// `fresh` or `stale` (`lost-fresh` or `lost-stale` if the process is lost, `local-fresh` or
// `local-stale` if the key is at local, `lost-local-stale` if both are so), and EnaOpn and EnaCls,
// as `01`.
use crate::tree::position_of;
use anyhow::{Result, bail};
use bay_base::switch::Operation;
use bay_config::read::read_bay;
use bay_control::control::ControlTable;
use bay_control::controls::Controls;
use bay_control::request::{Ask, Identity, Originator, View};
use cases::case_report::check_text;
use cases::octets::octets_of;
use cases::words::words_of;
use std::alloc::Global;

// Reads the parameters of a request. Only the first 64 octets of an identity are used.
fn ask_of(alloc: Global, words: &[&str]) -> Result<Ask> {
    let [position, category, identity, others @ ..] = words else {
        bail!("nothing is asked for");
    };
    let octets = octets_of(alloc, identity)?;
    let operation = match *position {
        "on" => Operation::Close,
        _ => Operation::Open,
    };
    Ok(Ask {
        operation,
        test: others.iter().any(|word| *word == "test"),
        synchrocheck: others.iter().any(|word| *word == "synchrocheck"),
        origin: Originator {
            cat: category.parse::<i8>()?,
            ident: Identity::new(&octets.as_slice()[..octets.len().min(64)]),
        },
    })
}

// Reads the view of a switch.
fn view_of(position: &str, age: &str, released: &str) -> View {
    View {
        pos: position_of(position),
        lost: age.starts_with("lost"),
        local: age.contains("local"),
        fresh: age.ends_with("fresh"),
        ena_opn: released.starts_with("1"),
        ena_cls: released.ends_with("1"),
    }
}

/// The controls of a bay.
#[derive(Drop)]
pub struct ControlSession {
    alloc: Global,
    table: ControlTable,
    controls: Controls,
}

impl ControlSession {
    /// Creates the controls of a bay.
    pub fn new(alloc: Global, bay: &str) -> Result<ControlSession> {
        Ok(ControlSession {
            alloc,
            table: ControlTable::new(&read_bay(alloc, bay)?),
            controls: Controls::new(),
        })
    }

    /// Reads a line that is no case: `start` begins again, with nothing selected and no execution.
    pub fn take(&mut self, line: &str) -> Result<()> {
        check_text(line, "start")?;
        self.controls = Controls::new();
        Ok(())
    }

    // Returns the answer to a request of an association for a switch.
    fn request(
        &mut self,
        now: u64,
        association: u16,
        switch: usize,
        words: &[&str],
    ) -> Result<String> {
        let (alloc, table, controls) = (self.alloc, &self.table, &mut self.controls);
        let answer = match words {
            ["select"] => controls.select(table, association, switch, now),
            ["cancel"] => controls.cancel(table, association, switch, now),
            ["select-with", ask @ ..] => {
                let ask = ask_of(alloc, ask)?;
                controls.select_with(table, association, switch, ask, now)
            }
            ["operate", position, age, released, ask @ ..] => {
                let view = view_of(position, age, released);
                let ask = ask_of(alloc, ask)?;
                controls.operate(table, association, switch, ask, view, now)
            }
            _ => bail!("no request"),
        };
        Ok(match answer {
            Ok(()) => format!(in alloc; "ok"),
            Err(cause) => format!(in alloc; "{} {cause}", cause.code()),
        }?)
    }

    /// Returns the answer to a line.
    pub fn answer(&mut self, line: &str) -> Result<String> {
        let (alloc, words) = (self.alloc, words_of(self.alloc, line)?);
        Ok(match words.as_slice() {
            ["selected"] => format!(in alloc; "{:?}", self.controls.selected()),
            ["contact", switch, position] => {
                let switch = switch.parse::<usize>()?;
                let ends = self.controls.contact(switch, position_of(position));
                format!(in alloc; "{ends}")
            }
            ["close", association] => {
                self.controls.drop_owner(association.parse::<u16>()?);
                format!(in alloc; "ok")
            }
            [now, "advance"] => {
                let ended = self.controls.advance(&self.table, now.parse::<u64>()?);
                format!(in alloc; "{ended:?}")
            }
            [now, association, switch, rest @ ..] => {
                let (now, switch) = (now.parse::<u64>()?, switch.parse::<usize>()?);
                return self.request(now, association.parse::<u16>()?, switch, rest);
            }
            _ => bail!("no question"),
        }?)
    }
}
