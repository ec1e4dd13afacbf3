// Answers a PDU of a client, and carries it out.
ghost use Rattle.std.specs.Prelude.{◌≡◌, ◌≢◌, ◌≤◌, ◌∷◌, [], All, List, ℕ, length, map, option_map, IfOk, OnOk, None, Some, Err};
ghost use Rattle.bay_base.specs.Exact.{ExactOr};
ghost use Rattle.bay_mms.specs.RequestViews.{call_view, object_name_view};
ghost use Rattle.bay_mms.specs.Responses.{conclude_response_text, error_text, read_text};
ghost use Rattle.bay_mms_initiate.specs.Sizes.{IsPduSize, longest_pdu};
ghost use Rattle.bay_mms.specs.Views.{data_in};
ghost use Rattle.bay_mms.specs.Writing.{text_within};
ghost use Rattle.bay_mms_services.specs.Answers.{AnswerData, answer_of, pdu_answer, attributes_answer, identify_answer, read_answer, service_answer, write_answer};
ghost use Rattle.bay_mms_services.specs.Answers as spec;
ghost use Rattle.bay_mms_services.specs.Bay.{Bay};
ghost use Rattle.bay_mms_services.specs.Rows.{row_named};
ghost use Rattle.bay_mms.specs.declared.fault.MmsFault.TheVariants as MmsFault;
ghost use Rattle.bay_mms_services.specs.Controls.{IsShort};
ghost use Rattle.bay_mms_services.specs.Reads.{read_all};
ghost use Rattle.bay_mms_services.specs.Views.{bay_of, bay_with, controls_view, request_result_view, read_state_view, AnswersAs};

use crate::answer::{ControlDecision, PduAnswer};
use crate::bay::ServedBay;
use crate::client::ClientContext;
use crate::invocation::Invocation;
use crate::reply::pdu_if_fits;
use crate::writing::WriteResults;
use bay_ber::outgoing::Outgoing;
use bay_control::controls::Controls;
use bay_mms::data::Data;
use bay_mms::fault::{EncodeFault, MmsFault};
use bay_mms::request::{Call, ObjectName, Request, read_request};
use bay_mms::response::{
    ErrorClass, RejectReason, Response, Service, write_conclude, write_error, write_reject,
    write_response,
};
use bay_mms::results::{ReadResponse, WriteResponse};
use bay_process::values::InputValues;
use std::alloc::{AllocError, Global};

// Returns an answer of one PDU, with decisions and without commands.
fn answer_with_decisions(
    alloc: Global,
    pdu: Outgoing,
    decisions: Vec<ControlDecision>,
) -> Result<PduAnswer, AllocError>
    ensures { IfOk result (λ answer. (b : Bay)
        → AnswersAs answer b.controls b (spec.one_pdu_answer pdu decisions.items b)) }
{
    Ok(PduAnswer {
        sent: vec![in alloc; pdu]?,
        commands: Vec::new(alloc),
        decisions,
        termination: None,
    })
}

// Returns an answer of one PDU, with no effect.
fn answer_with_pdu(alloc: Global, pdu: Outgoing) -> Result<PduAnswer, AllocError>
    ensures { IfOk result (λ answer. (b : Bay)
        → AnswersAs answer b.controls b (spec.plain_answer pdu b)) }
{
    answer_with_decisions(alloc, pdu, Vec::new(alloc))
}

// Returns the answer with an error, with no effect.
fn answer_error(alloc: Global, id: u32, class: ErrorClass) -> Result<PduAnswer, AllocError>
    ensures { IfOk result (λ answer. (b : Bay)
        → AnswersAs answer b.controls b (spec.plain_answer (error_text id class) b)) }
{
    let error = write_error(alloc, id, class)?;
    answer_with_pdu(alloc, error)
}

// Returns the answer with a reject, with no effect.
fn answer_reject(
    alloc: Global,
    id: Option<u32>,
    reason: RejectReason,
) -> Result<PduAnswer, AllocError>
    ensures { IfOk result (λ answer. (b : Bay)
        → AnswersAs answer b.controls b (spec.reject_answer id reason b)) }
{
    let reject = write_reject(alloc, id, reason)?;
    answer_with_pdu(alloc, reject)
}

// Returns the answer to a conclude, with no effect.
fn answer_conclude(alloc: Global) -> Result<PduAnswer, AllocError>
    ensures { IfOk result (λ answer. (b : Bay)
        → AnswersAs answer b.controls b (spec.plain_answer conclude_response_text b)) }
{
    let conclude = write_conclude(alloc)?;
    answer_with_pdu(alloc, conclude)
}

// Returns the answer to a PDU with a fault, unless the fault is that an allocation failed.
fn answer_fault(alloc: Global, fault: MmsFault) -> Result<PduAnswer, AllocError>
    ensures told { IfOk result
        (λ answer. (b : Bay) → AnswersAs answer b.controls b (spec.refusal_answer fault b)) }
    ensures memory { IfOk result (λ _. fault ≢ MmsFault.OutOfMemory) }
{
    match fault {
        MmsFault::BadPdu(known) => answer_reject(alloc, known, RejectReason::InvalidPdu),
        MmsFault::UnknownService(id) => {
            answer_reject(alloc, Some(id), RejectReason::UnrecognizedService)
        }
        MmsFault::TooMany(id) => answer_error(alloc, id, ErrorClass::Resource),
        MmsFault::OutOfMemory => Err(AllocError),
    }
}

impl Invocation<'_> {
    // Returns the answer with a response, with no effect; with an error if the response has more
    // octets than agreed.
    fn answer_response(
        &self,
        response: Result<Outgoing, EncodeFault>,
    ) -> Result<PduAnswer, AllocError>
        ensures { (pdu : List ℕ) (b : Bay)
            → ExactOr EncodeFault.OutOfMemory (λ octets. octets) response
            (text_within self.now.client.size pdu)
            → IfOk result (λ answer. AnswersAs answer b.controls b
            (spec.response_answer self.now.client self.now.id b pdu)) }
    {
        match pdu_if_fits(response)? {
            Some(pdu) => answer_with_pdu(self.alloc, pdu),
            None => answer_error(self.alloc, self.id, ErrorClass::Resource),
        }
    }

    // Returns the vendor, the model and the revision of the device.
    fn identify(&self) -> Result<PduAnswer, AllocError>
        ensures { IfOk result (λ answer. AnswersAs answer (bay_of self.now).controls
            (bay_of self.now)
            (identify_answer self.now.client self.now.id (bay_of self.now))) }
    {
        let (id, bay) = (self.id, self.bay);
        let service = Service::Identify {
            vendor: bay.vendor.as_str(),
            model: bay.model.as_str(),
            revision: bay.revision.as_str(),
        };
        let response = Response { id, service };
        self.answer_response(write_response(self.alloc, &response, self.client.size))
    }

    // Returns the type of a variable; an error if it does not exist.
    fn attributes(&self, name: &ObjectName<'_>) -> Result<PduAnswer, AllocError>
        ensures { IfOk result (λ answer. AnswersAs answer (bay_of self.now).controls
            (bay_of self.now)
            (attributes_answer self.now.client self.now.id (bay_of self.now)
            (row_named (bay_of self.now) (object_name_view name.now)))) }
    {
        match self.bay.row_named(name) {
            Some(handle) => {
                let (id, tree) = (self.id, &self.bay.tree);
                let service = Service::Attributes { tree, handle };
                let response = Response { id, service };
                self.answer_response(write_response(self.alloc, &response, self.client.size))
            }
            None => answer_error(self.alloc, self.id, ErrorClass::NoSuchObject),
        }
    }

    // Returns the response to a read.
    fn read_response(
        &self,
        names: &[ObjectName<'_>],
        controls: &mut Controls,
        decisions: &mut Vec<ControlDecision>,
    ) -> Result<Outgoing, EncodeFault>
        ensures response { ExactOr EncodeFault.OutOfMemory (λ octets. octets) result
            (text_within self.now.client.size (read_text self.now.id
            (read_all self.now.client (bay_of self.now) (map object_name_view names.now)
            (read_state_view self.now.bay.now controls.old decisions.old.items [])).results)) }
        ensures after { OnOk result
            (controls_view self.now.bay.now controls.new
            ≡ (read_all self.now.client (bay_of self.now) (map object_name_view names.now)
            (read_state_view self.now.bay.now controls.old decisions.old.items [])).controls) }
        ensures decisions { OnOk result
            (decisions.new.items
            ≡ (read_all self.now.client (bay_of self.now) (map object_name_view names.now)
            (read_state_view self.now.bay.now controls.old decisions.old.items [])).decisions) }
    {
        let mut response = ReadResponse::new(self.alloc, self.client.size)?;
        self.read_all(names, controls, decisions, &mut response)?;
        response.finish(self.id)
    }

    // Reads variables. If the response has more octets than agreed, the answer is an error, and no
    // switch is selected.
    fn read(
        &self,
        names: &[ObjectName<'_>],
        controls: &mut Controls,
    ) -> Result<PduAnswer, AllocError>
        requires { controls.old ≡ self.now.bay.now.controls }
        ensures { IfOk result (λ answer. AnswersAs answer
            (controls_view self.now.bay.now controls.new) (bay_of self.now)
            (read_answer self.now.client self.now.id (bay_of self.now)
            (map object_name_view names.now))) }
    {
        let mut decisions = Vec::new(self.alloc);
        let response = self.read_response(names, controls, &mut decisions);
        match pdu_if_fits(response)? {
            Some(pdu) => answer_with_decisions(self.alloc, pdu, decisions),
            None => {
                *controls = self.bay.controls.duplicate();
                answer_error(self.alloc, self.id, ErrorClass::Resource)
            }
        }
    }

    // Writes variables in order. If the response has more octets than agreed, the answer is an
    // error, and the write has no effect.
    fn write(
        &self,
        names: &[ObjectName<'_>],
        values: &[Data<'_>],
        controls: &mut Controls,
    ) -> Result<PduAnswer, AllocError>
        requires { controls.old ≡ self.now.bay.now.controls }
        ensures { IfOk result (λ answer. AnswersAs answer
            (controls_view self.now.bay.now controls.new) (bay_of self.now)
            (write_answer self.now.client self.now.id (bay_of self.now)
            (map object_name_view names.now) (data_in values.now))) }
    {
        let mut done = WriteResults {
            response: WriteResponse::new(self.alloc),
            reports: Vec::new(self.alloc),
            commands: Vec::new(self.alloc),
            decisions: Vec::new(self.alloc),
            termination: None,
        };
        self.write_all(names, values, controls, &mut done)?;
        let WriteResults {
            response,
            mut reports,
            commands,
            decisions,
            termination,
        } = done;
        match pdu_if_fits(response.finish(self.id, self.client.size))? {
            Some(pdu) => {
                reports.push(pdu)?;
                Ok(PduAnswer {
                    sent: reports,
                    commands,
                    decisions,
                    termination,
                })
            }
            None => {
                *controls = self.bay.controls.duplicate();
                answer_error(self.alloc, self.id, ErrorClass::Resource)
            }
        }
    }

    // Answers a confirmed request.
    fn serve(&self, call: &Call<'_>, controls: &mut Controls) -> Result<PduAnswer, AllocError>
        requires sized { IsPduSize self.now.client.size }
        requires first { controls.old ≡ self.now.bay.now.controls }
        ensures { IfOk result (λ answer. AnswersAs answer
            (controls_view self.now.bay.now controls.new)
            (bay_of self.now)
            (service_answer self.now.client self.now.id (bay_of self.now) (call_view call.now))) }
    {
        match call {
            Call::Identify => self.identify(),
            Call::Names {
                class,
                scope,
                after,
            } => {
                let response = self.write_listing(class, scope, *after);
                self.answer_response(response)
            }
            Call::Attributes(name) => self.attributes(name),
            Call::Read(names) => self.read(names, controls),
            Call::Write { names, values } => self.write(names, values, controls),
        }
    }
}

impl ServedBay {
    // Answers the parsed request, or the fault for which it could not be parsed.
    fn respond(
        &self,
        alloc: Global,
        client: ClientContext,
        inputs: &InputValues,
        request: Result<Request<'_>, MmsFault>,
        controls: &mut Controls,
    ) -> Result<PduAnswer, AllocError>
        requires sized { IsPduSize client.size }
        requires first { controls.old ≡ self.now.controls }
        ensures ok { IfOk result
            (λ answer. AnswersAs answer (controls_view self.now controls.new)
            (bay_with inputs.now self.now)
            (answer_of client (bay_with inputs.now self.now)
            (request_result_view request.entry))) }
        ensures memory { IfOk result (λ _. request.entry ≢ Err MmsFault.OutOfMemory) }
    {
        match request {
            Ok(Request::Initiate(_)) => answer_reject(alloc, None, RejectReason::InvalidPdu),
            Ok(Request::Conclude) => answer_conclude(alloc),
            Ok(Request::Confirmed { id, call }) => {
                let bay = self;
                let invocation = Invocation {
                    bay,
                    inputs,
                    client,
                    id,
                    alloc,
                };
                invocation.serve(&call, controls)
            }
            Err(fault) => answer_fault(alloc, fault),
        }
    }

    /// Answers the octets that a client sent as a PDU of MMS, with these values of the bay's
    /// inputs. Does not change the bay: `controls` becomes the controls after the PDU, which the
    /// caller stores once the answer can be sent.
    ///
    /// Each PDU of the answer has at most 65,000 octets, and so have the reports for the end of an
    /// operate. If the response is longer than the agreed size, the answer is an error of the class
    /// resource and has no effect. Fails only if an allocation fails.
    pub fn answer(
        &self,
        alloc: Global,
        client: ClientContext,
        inputs: &InputValues,
        pdu: &[u8],
        controls: &mut Controls,
    ) -> Result<PduAnswer, AllocError>
        requires { IsPduSize client.size }
        ensures ok { IfOk result
            (λ answer. AnswersAs answer (controls_view self.now controls.new)
            (bay_with inputs.now self.now)
            (pdu_answer client pdu.now (bay_with inputs.now self.now))) }
        ensures short { IfOk result
            (λ answer. All (λ pdu. length pdu ≤ longest_pdu) answer.sent.items) }
        ensures termination { IfOk result (λ answer. IsShort answer.termination) }
    {
        *controls = self.controls.duplicate();
        let request = read_request(alloc, pdu);
        self.respond(alloc, client, inputs, request, controls)
    }
}
