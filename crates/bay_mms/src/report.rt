// Writing the reports of controls (IEC 61850-8-1, LastApplError and CommandTermination).
ghost use Rattle.std.specs.Prelude.{◌≡◌, ◌++◌, codes};
ghost use Rattle.bay_ber.specs.EncoderBuffers.{buffer_with};
ghost use Rattle.bay_ber.specs.Writing.{element};
ghost use Rattle.bay_mms.specs.Controls as spec;
ghost use Rattle.bay_ber.specs.Tags.{constructed};
ghost use Rattle.bay_mms.specs.Reports.{variable_text, origin_text, operate_head, operate_tail, operate_text, failure_head, failure_tail, failure_data, failure_name, item_name, last_appl_error_text, termination_text, failed_termination_text};
ghost use Rattle.bay_mms.specs.Writing.{text_within};
ghost use Rattle.bay_base.specs.Exact.{ExactOr};

use crate::control::{Check, OperateData, Origin};
use crate::fault::EncodeFault;
use crate::put::finish;
use bay_ber::content::Bits;
use bay_ber::outgoing::Outgoing;
use bay_ber::tag::Tag;
use bay_ber::writer::Writer;
use std::alloc::Global;

/// Why a control was refused or has failed (IEC 61850-8-1, LastApplError). The component Error is
/// always 0.
#[derive(Clone, Copy)]
pub struct LastApplError<'a> {
    /// The control (CntrlObj): its domain, `/` and its item.
    pub object: &'a str,
    pub origin: Origin<'a>,
    pub ctl_num: u8,
    /// AddCause (IEC 61850-7-2).
    pub add_cause: u8,
}

// Appends an originator, a structure of its category and its identity.
#[tactic(auto, using(bay_ber::proofs::SheetLemmas::sheet_rules))]
fn put_origin(writer: &mut Writer, origin: &Origin<'_>)
    ensures { writer.new ≡ buffer_with writer.old (origin_text origin.now) }
{
    let start = writer.open(Tag::context_constructed(2));
    writer.int(Tag::context(5), i64::from(origin.or_cat));
    writer.octets(Tag::context(9), origin.or_ident);
    writer.close(start);
}

// Appends the requested position (ctlVal), the originator and the control number.
#[tactic(auto, using(bay_ber::proofs::SheetLemmas::sheet_rules))]
fn put_operate_head(writer: &mut Writer, operate: &OperateData<'_>)
    ensures { writer.new ≡ buffer_with writer.old (operate_head operate.now) }
{
    writer.boolean(Tag::context(3), operate.control.ctl_val);
    put_origin(writer, &operate.control.origin);
    writer.int(Tag::context(6), i64::from(operate.control.ctl_num));
}

// Returns the octet with the two bits of Check.
fn check_octet(check: Check) -> u8
    ensures { result ≡ spec.check_octet check }
{
    u8::from(check.synchrocheck) * 0x80 + u8::from(check.interlock_check) * 0x40
}

// Appends the moment, whether it is a test, and the checks.
#[tactic(auto, using(bay_ber::proofs::SheetLemmas::sheet_rules))]
fn put_operate_tail(writer: &mut Writer, operate: &OperateData<'_>)
    ensures { writer.new ≡ buffer_with writer.old (operate_tail operate.now) }
{
    writer.octets(Tag::context(17), &operate.control.t);
    writer.boolean(Tag::context(3), operate.control.test);
    let octets = [check_octet(operate.check)];
    writer.bits(
        Tag::context(4),
        Bits {
            octets: &octets,
            count: 2,
        },
    );
}

// Appends the data of an operate.
#[tactic(auto, using(bay_ber::proofs::SheetLemmas::sheet_rules))]
fn put_operate(writer: &mut Writer, operate: &OperateData<'_>)
    ensures { writer.new ≡ buffer_with writer.old (operate_text operate.now) }
{
    let start = writer.open(Tag::context_constructed(2));
    put_operate_head(writer, operate);
    put_operate_tail(writer, operate);
    writer.close(start);
}

// Appends the control object, and the error, which is 0.
#[tactic(auto, using(bay_ber::proofs::SheetLemmas::sheet_rules))]
fn put_failure_head(writer: &mut Writer, failure: &LastApplError<'_>)
    ensures { writer.new ≡ buffer_with writer.old (failure_head failure.now) }
{
    writer.text(Tag::context(10), failure.object);
    writer.int(Tag::context(5), 0);
}

// Appends the originator, the control number and the cause (IEC 61850-7-2, AddCause).
#[tactic(auto, using(bay_ber::proofs::SheetLemmas::sheet_rules))]
fn put_failure_tail(writer: &mut Writer, failure: &LastApplError<'_>)
    ensures { writer.new ≡ buffer_with writer.old (failure_tail failure.now) }
{
    put_origin(writer, &failure.origin);
    writer.int(Tag::context(6), i64::from(failure.ctl_num));
    writer.int(Tag::context(5), i64::from(failure.add_cause));
}

// Appends the data of a LastApplError.
#[tactic(auto, using(bay_ber::proofs::SheetLemmas::sheet_rules))]
fn put_failure(writer: &mut Writer, failure: &LastApplError<'_>)
    ensures { writer.new ≡ buffer_with writer.old (failure_data failure.now) }
{
    let start = writer.open(Tag::context_constructed(2));
    put_failure_head(writer, failure);
    put_failure_tail(writer, failure);
    writer.close(start);
}

// Returns the name of the variable that reports a failure.
fn failure_object() -> &'static str
    ensures { result.now ≡ codes "LastApplError" }
{
    "LastApplError"
}

// Appends the variable with this name, which is in no domain.
#[tactic(auto, using(bay_ber::proofs::SheetLemmas::sheet_rules))]
fn put_failure_name(writer: &mut Writer)
    ensures { writer.new ≡ buffer_with writer.old (variable_text failure_name) }
{
    let start = writer.open(Tag::sequence());
    let inner = writer.open(Tag::context_constructed(0));
    writer.text(Tag::context(0), failure_object());
    writer.close(inner);
    writer.close(start);
}

// Appends a name in a domain.
#[tactic(auto, using(bay_ber::proofs::SheetLemmas::sheet_rules))]
fn put_item(writer: &mut Writer, domain: &str, item: &str)
    ensures { writer.new ≡ buffer_with writer.old (item_name domain.now item.now) }
{
    let start = writer.open(Tag::context_constructed(1));
    writer.text(Tag::universal(26), domain);
    writer.text(Tag::universal(26), item);
    writer.close(start);
}

// Appends the variable with a name in a domain.
#[tactic(auto, using(bay_ber::proofs::SheetLemmas::sheet_rules))]
fn put_item_name(writer: &mut Writer, domain: &str, item: &str)
    ensures { writer.new ≡ buffer_with writer.old (variable_text (item_name domain.now item.now)) }
{
    let start = writer.open(Tag::sequence());
    let inner = writer.open(Tag::context_constructed(0));
    put_item(writer, domain, item);
    writer.close(inner);
    writer.close(start);
}

// Appends the list with the variable that reports a failure.
#[tactic(auto, using(bay_ber::proofs::SheetLemmas::sheet_rules))]
fn put_failure_list(writer: &mut Writer)
    ensures { writer.new ≡ buffer_with writer.old
        (element (constructed 0) (variable_text failure_name)) }
{
    let start = writer.open(Tag::context_constructed(0));
    put_failure_name(writer);
    writer.close(start);
}

// Appends the list with the variable of a control.
#[tactic(auto, using(bay_ber::proofs::SheetLemmas::sheet_rules))]
fn put_item_list(writer: &mut Writer, domain: &str, item: &str)
    ensures { writer.new ≡ buffer_with writer.old
        (element (constructed 0) (variable_text (item_name domain.now item.now))) }
{
    let start = writer.open(Tag::context_constructed(0));
    put_item_name(writer, domain, item);
    writer.close(start);
}

// Appends the list with both variables.
#[tactic(auto, using(bay_ber::proofs::SheetLemmas::sheet_rules))]
fn put_both_list(writer: &mut Writer, domain: &str, item: &str)
    ensures { writer.new ≡ buffer_with writer.old
        (element (constructed 0)
        (variable_text failure_name ++ variable_text (item_name domain.now item.now))) }
{
    let start = writer.open(Tag::context_constructed(0));
    put_failure_name(writer);
    put_item_name(writer, domain, item);
    writer.close(start);
}

// Appends the report of a refused control.
#[tactic(auto, using(bay_ber::proofs::SheetLemmas::sheet_rules))]
fn put_last_appl_error(writer: &mut Writer, failure: &LastApplError<'_>)
    ensures { writer.new ≡ buffer_with writer.old (last_appl_error_text failure.now) }
{
    let report = writer.open(Tag::context_constructed(3));
    let information = writer.open(Tag::context_constructed(0));
    put_failure_list(writer);
    let results = writer.open(Tag::context_constructed(0));
    put_failure(writer, failure);
    writer.close(results);
    writer.close(information);
    writer.close(report);
}

// Appends the report of a control that succeeded.
#[tactic(auto, using(bay_ber::proofs::SheetLemmas::sheet_rules))]
fn put_termination(writer: &mut Writer, domain: &str, item: &str, operate: &OperateData<'_>)
    ensures { writer.new ≡ buffer_with writer.old
        (termination_text domain.now item.now operate.now) }
{
    let report = writer.open(Tag::context_constructed(3));
    let information = writer.open(Tag::context_constructed(0));
    put_item_list(writer, domain, item);
    let results = writer.open(Tag::context_constructed(0));
    put_operate(writer, operate);
    writer.close(results);
    writer.close(information);
    writer.close(report);
}

// Appends the report of a control that failed.
#[tactic(auto, using(bay_ber::proofs::SheetLemmas::sheet_rules))]
fn put_failed_termination(
    writer: &mut Writer,
    failure: &LastApplError<'_>,
    domain: &str,
    item: &str,
    operate: &OperateData<'_>,
)
    ensures { writer.new ≡ buffer_with writer.old
        (failed_termination_text failure.now domain.now item.now operate.now) }
{
    let report = writer.open(Tag::context_constructed(3));
    let information = writer.open(Tag::context_constructed(0));
    put_both_list(writer, domain, item);
    let results = writer.open(Tag::context_constructed(0));
    put_failure(writer, failure);
    put_operate(writer, operate);
    writer.close(results);
    writer.close(information);
    writer.close(report);
}

/// Returns the report that a control was refused (IEC 61850-8-1, LastApplError; ISO 9506-2,
/// informationReport). Fails with `TooLong` if it has more than `size` octets.
#[tactic(auto, using(bay_ber::proofs::SheetLemmas::message_put))]
pub fn write_last_appl_error(
    alloc: Global,
    failure: &LastApplError<'_>,
    size: u32,
) -> Result<Outgoing, EncodeFault>
    ensures { ExactOr EncodeFault.OutOfMemory (λ octets. octets) result
        (text_within size (last_appl_error_text failure.now)) }
{
    let mut writer = Writer::new(alloc, size)?;
    put_last_appl_error(&mut writer, failure);
    finish(writer)
}

/// Returns the report that the control with this item of a domain has succeeded (IEC 61850-8-1,
/// positive CommandTermination). It repeats the operate as the client wrote it. Fails with
/// `TooLong` if it has more than `size` octets.
#[tactic(auto, using(bay_ber::proofs::SheetLemmas::message_put))]
pub fn write_termination(
    alloc: Global,
    domain: &str,
    item: &str,
    operate: &OperateData<'_>,
    size: u32,
) -> Result<Outgoing, EncodeFault>
    ensures { ExactOr EncodeFault.OutOfMemory (λ octets. octets) result
        (text_within size (termination_text domain.now item.now operate.now)) }
{
    let mut writer = Writer::new(alloc, size)?;
    put_termination(&mut writer, domain, item, operate);
    finish(writer)
}

/// Returns the report that the control with this item of a domain has failed (IEC 61850-8-1,
/// negative CommandTermination): one report of two variables, LastApplError and then the operate as
/// the client wrote it. Fails with `TooLong` if it has more than `size` octets.
#[tactic(auto, using(bay_ber::proofs::SheetLemmas::message_put))]
pub fn write_failed_termination(
    alloc: Global,
    failure: &LastApplError<'_>,
    domain: &str,
    item: &str,
    operate: &OperateData<'_>,
    size: u32,
) -> Result<Outgoing, EncodeFault>
    ensures { ExactOr EncodeFault.OutOfMemory (λ octets. octets) result
        (text_within size (failed_termination_text failure.now domain.now item.now operate.now)) }
{
    let mut writer = Writer::new(alloc, size)?;
    put_failed_termination(&mut writer, failure, domain, item, operate);
    finish(writer)
}
