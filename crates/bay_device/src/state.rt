// The state of a device, whose methods cannot allocate.
ghost use Rattle.std.specs.Prelude.{◌≡◌, ◌<◌, ◌^◌, length, map};
ghost use Rattle.il_scan.specs.Scans.{AreHeld, inputs_in, read_only, type_of_point};
ghost use Rattle.bay_process.specs.Layout.{layout_of, switches_of, AreBound, AreMetersBound};
ghost use Rattle.bay_process.specs.Scans.{AreSpanned, source_value};
ghost use Rattle.bay_process.specs.Sources.{type_of_source};
ghost use Rattle.bay_device.specs.Modelled.{HasModel, HasModel-prop};
ghost use Rattle.bay_device.specs.Table.{AreTables};
ghost use Rattle.bay_process.specs.ReportedRows.{AreStored};

use crate::table::NameTables;
use crate::termination::PendingTermination;
use bay_base::listing::Listing;
use bay_base::text::Text;
use bay_config::bay::Source;
use bay_mms_services::bay::ServedBay;
use bay_process::meter::BoundMeter;
use bay_process::model::ModelRows;
use bay_process::releases::Releases;
use bay_process::values::InputValues;
use il_scan::machine::Machine;
use il_scan::span::Span;

/// The state of a device, as loading makes it and steps change it. Its methods receive no
/// allocator, and no part of it lends one, or a call that allocates: lists, texts, the tree and the
/// machine lend only slices and values, and the controls have a fixed size. So a position, an
/// input, a measured value and a scan do not allocate.
#[derive(Drop)]
pub struct DeviceState {
    /// The bay as its clients see it.
    pub bay: ServedBay,
    /// The maximum age of a scan when a switch is operated, in milliseconds.
    pub scan_max_age_ms: u32,
    /// The names of the inputs, in the order of the bay file; `input_values` has their values.
    pub inputs: Listing<Text>,
    pub input_values: InputValues,
    /// The meters, in the order of the bay file.
    pub meters: Listing<BoundMeter>,
    /// The rows of profile 2 that events change; `None` in profile 1.
    pub model_rows: Option<ModelRows>,
    /// The interlocking values, as the text that is printed.
    pub releases: Releases,
    /// The tables that find the ids of the switches, the names of the inputs and the ids of the
    /// meters.
    pub tables: NameTables,
    /// The sources of the read-only points, in the order of the points; `writes` has those of the
    /// writable points.
    pub reads: Listing<Source>,
    pub writes: Listing<Source>,
    pub machine: Machine,
    /// For each switch, a span of the read-only points that has all of its points.
    pub spans: Listing<Span>,
    /// The read-only points whose values may have changed since the last scan. The machine's slots
    /// have the values of the others.
    pub unread: Span,
    /// The time of the last accepted event, in milliseconds since 1970.
    pub moment: u64,
    /// The time of the last scan, in milliseconds since 1970.
    pub last_scan: Option<u64>,
    /// Whether the value or the quality of a position, an input or a measured value has changed
    /// since the last scan.
    pub is_stale: bool,
    /// Whether the process is lost: nothing has been received from it since.
    pub is_lost: bool,
    /// The pending reports for the end of the current operate.
    pub pending: Option<PendingTermination>,
    ghost bound: { AreBound (layout_of bay.tree) writes bay.switches },
    ghost metered: { AreMetersBound (layout_of bay.tree) meters },
    ghost valued: { length input_values ≡ length inputs },
    ghost modelled: { HasModel bay inputs model_rows } by { HasModel-prop bay inputs model_rows },
    ghost released: { AreStored bay.tree (switches_of bay.switches) 0 releases },
    ghost tabled: { AreTables bay.switches inputs meters tables },
    ghost typed: { map type_of_source reads ≡ map type_of_point (read_only machine.image.points) },
    ghost spans_sized: { length spans ≡ length bay.switches },
    ghost few: { length spans < 2 ^ 64 },
    ghost spanned: { AreSpanned reads spans },
    ghost held: { AreHeld unread
        (map (source_value bay.tree bay.switches input_values meters) reads)
        (inputs_in machine.image.points machine.slots) },
}

impl DeviceState {
    /// Returns the span of all read-only points.
    pub fn all_points(&self) -> Span
        ensures from { result.from ≡ 0 }
        ensures to { result.to ≡ length self.now.reads }
    {
        Span {
            from: 0,
            to: self.reads.as_slice().len(),
        }
    }
}
