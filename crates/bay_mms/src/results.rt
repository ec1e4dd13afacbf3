// The responses to reads and writes, written variable by variable (ISO 9506-2, Read-Response and
// Write-Response).
ghost use Rattle.std.specs.Prelude.{◌≡◌, ◌+◌, ◌≤◌, ◌++◌, [], pos, length, IfOk, OnOk};
ghost use Rattle.std.specs.List.{flat_map};
ghost use Rattle.bay_base.specs.Exact.{ExactOr};
ghost use Rattle.bay_tree.specs.Rows.{IsHandle};
ghost use Rattle.bay_ber.specs.EncoderBuffers.{buffer_with};
ghost use Rattle.bay_ber.specs.Writing.{element, integer_octets};
ghost use Rattle.bay_ber.specs.Tags.{constructed, int_tag};
ghost use Rattle.bay_mms.specs.Data.{datum_text};
ghost use Rattle.bay_mms.specs.Nodes.{data_at};
ghost use Rattle.bay_mms.specs.Responses.{text_result, failure_result, success_result, result_text, read_text, write_text};
ghost use Rattle.bay_mms.specs.Writing.{AppendsWithin, ChecksLimit, no_results, text_within};

use crate::client_view::ClientView;
use crate::fault::{DataAccessError, EncodeFault};
use crate::put::finish;
use crate::response::put_id;
use crate::value::write_value;
use bay_ber::outgoing::Outgoing;
use bay_ber::tag::Tag;
use bay_ber::writer::Writer;
use bay_tree::tree::Handle;
use std::alloc::{AllocError, Global};
use std::marker::Model;

/// The results of a read so far, which contracts view as their octets, with the most octets that
/// the response may have. Each call appends one result, in the order of the variables. A call fails
/// with `TooLong`, and drops the results, if they alone have more octets than that.
#[derive(Drop)]
pub struct ReadResponse {
    results: Writer,
}

impl Model for ReadResponse {
    ghost use Rattle.bay_mms.specs.Writing.{Results, results_of, HoldsResults};

    ghost Value = { Results };

    ghost view = { λ r. results_of r.results };

    ghost invariant = { λ r. HoldsResults r.results };
}

impl ReadResponse {
    /// Creates a response without results, of at most `size` octets. Allocates the whole buffer;
    /// fails only if the allocation fails.
    pub fn new(alloc: Global, size: u32) -> Result<Self, AllocError>
        ensures { IfOk result (λ response. response ≡ no_results size) }
    {
        Ok(ReadResponse {
            results: Writer::new(alloc, size)?,
        })
    }

    /// Appends the data of a row of the client view.
    pub fn value(&mut self, seen: &ClientView<'_>, handle: Handle) -> Result<(), EncodeFault>
        requires { IsHandle seen.now handle }
        ensures added { AppendsWithin self.old.size self.old.octets result self.new.octets
            (datum_text (data_at seen.now handle)) }
        ensures size { self.new.size ≡ self.old.size }
    {
        write_value(&mut self.results, seen, handle);
        check_limit(&mut self.results)
    }

    /// Appends a text instead of the data of a row.
    pub fn text(&mut self, text: &str) -> Result<(), EncodeFault>
        ensures added { AppendsWithin self.old.size self.old.octets result self.new.octets
            (text_result text.now) }
        ensures size { self.new.size ≡ self.old.size }
    {
        self.results.text(Tag::context(10), text);
        check_limit(&mut self.results)
    }

    /// Appends an error.
    pub fn failure(&mut self, error: DataAccessError) -> Result<(), EncodeFault>
        ensures added { AppendsWithin self.old.size self.old.octets result self.new.octets
            (failure_result error) }
        ensures size { self.new.size ≡ self.old.size }
    {
        put_result(&mut self.results, Some(error));
        check_limit(&mut self.results)
    }

    /// Returns the response with an invoke id. Fails with `TooLong` if it has more octets than the
    /// size.
    pub fn finish(self, id: u32) -> Result<Outgoing, EncodeFault>
        ensures { ExactOr EncodeFault.OutOfMemory (λ octets. octets) result
            (text_within self.size (read_text id self.octets)) }
    {
        let ReadResponse { mut results } = self;
        results.wrap(Tag::context_constructed(1));
        results.wrap(Tag::context_constructed(4));
        prepend_id(&mut results, id);
        results.wrap(Tag::context_constructed(1));
        finish(results)
    }
}

// Writes an invoke id before the message.
fn prepend_id(writer: &mut Writer, id: u32)
    requires { length writer.old.headers + 14 ≤ 64 }
    ensures { writer.new ≡ record writer.old
        { headers = element int_tag (integer_octets (pos id)) ++ writer.old.headers } }
{
    writer.prepend_int(Tag::universal(2), i64::from(id));
}

// Fails with `TooLong` if the results are over the limit, and then drops them.
fn check_limit(results: &mut Writer) -> Result<(), EncodeFault>
    ensures { ChecksLimit results.old result results.new }
{
    if results.is_over() {
        results.clear();
        return Err(EncodeFault::TooLong);
    }
    Ok(())
}

// Appends the result of one variable.
fn put_result(writer: &mut Writer, outcome: Option<DataAccessError>)
    ensures { writer.new ≡ buffer_with writer.old (result_text outcome) }
{
    match outcome {
        Some(error) => writer.int(Tag::context(0), i64::from(error.code())),
        None => writer.octets(Tag::context(1), &[]),
    }
}

// Appends the results of all variables.
#[tactic(auto, using(bay_ber::proofs::SheetLemmas::sheet_rules))]
fn put_results(writer: &mut Writer, results: &[Option<DataAccessError>])
    ensures { writer.new ≡ buffer_with writer.old
        (element (constructed 5) (flat_map result_text results.now)) }
{
    let start = writer.open(Tag::context_constructed(5));
    for outcome in results {
        put_result(writer, *outcome);
    }
    writer.close(start);
}

/// The results of a write so far, which contracts view as their octets. Each call appends one
/// result, in the order of the variables, and fails only if an allocation fails.
#[derive(Drop)]
pub struct WriteResponse {
    alloc: Global,
    // Of each variable the error, or `None` if it was written.
    results: Vec<Option<DataAccessError>>,
}

impl Model for WriteResponse {
    ghost use Rattle.std.specs.Prelude.{ℕ, List};
    ghost use Rattle.std.specs.List.{flat_map};
    ghost use Rattle.bay_mms.specs.Responses.{result_text};

    ghost Value = { List ℕ };

    ghost view = { λ r. flat_map result_text r.results.items };
}

impl WriteResponse {
    /// Creates a response without results. Does not allocate.
    pub fn new(alloc: Global) -> Self
        ensures { result ≡ [] }
    {
        WriteResponse {
            alloc,
            results: Vec::new(alloc),
        }
    }

    /// Appends the result of a variable that was written.
    pub fn success(&mut self) -> Result<(), AllocError>
        ensures { OnOk result (self.new ≡ self.old ++ success_result) }
    {
        self.results.push(None)?;
        Ok(())
    }

    /// Appends an error.
    pub fn failure(&mut self, error: DataAccessError) -> Result<(), AllocError>
        ensures { OnOk result (self.new ≡ self.old ++ failure_result error) }
    {
        self.results.push(Some(error))?;
        Ok(())
    }

    /// Returns the response with an invoke id. Fails with `TooLong` if it has more than `size`
    /// octets.
    #[tactic(auto, using(bay_ber::proofs::SheetLemmas::sheet_rules, bay_ber::proofs::SheetLemmas::message_put))]
    pub fn finish(self, id: u32, size: u32) -> Result<Outgoing, EncodeFault>
        ensures { ExactOr EncodeFault.OutOfMemory (λ octets. octets) result
            (text_within size (write_text id self)) }
    {
        let WriteResponse { alloc, results } = self;
        let mut writer = Writer::new(alloc, size)?;
        let start = writer.open(Tag::context_constructed(1));
        put_id(&mut writer, id);
        put_results(&mut writer, results.as_slice());
        writer.close(start);
        finish(writer)
    }
}
