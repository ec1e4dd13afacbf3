// The phases of an association, and the meaning of a TSDU in each.
ghost use Rattle.std.specs.Prelude.{◌≡◌, ◌≤◌, ◌∷◌, [], Some, length, option_map, IfOk, IfSome, IsErrOf, IsSome};
ghost use Rattle.bay_base.specs.Exact.{ExactOr};
ghost use Rattle.bay_base.specs.Results.{Exact};
ghost use Rattle.bay_mms_initiate.specs.Sizes.{IsPduSize};
ghost use Rattle.bay_assoc.specs.TsduMeanings.{answer_text, tsdu_meaning};
ghost use Rattle.bay_assoc.specs.TsduMeanings as spec;
ghost use Rattle.bay_assoc.specs.Presentation.{request_mode};
ghost use Rattle.bay_assoc.specs.Session.{spdu_in};
ghost use Rattle.bay_assoc.specs.Sized.{IsSized, IsShort};
ghost use Rattle.bay_assoc.specs.Allocating.{MayAllocate};
ghost use Rattle.bay_assoc.specs.Views.{context_value_view, connect_view, spdu_view, heard_view};

use crate::acse::{parse_aarq, parse_rlrq};
use crate::fault::AssocFault;
use crate::presentation::{Context, ContextValue, parse_connect_request, parse_user_data};
use crate::request::Connect;
use crate::session::{Spdu, parse_spdu};
use crate::text;
use bay_mms_initiate::initiate::{
    AgreedLimits, Proposal, agreed_size, read_initiate, write_initiate_response,
};
use std::alloc::{AllocError, Global};

/// The identifiers of the accepted presentation contexts.
#[derive(Clone, Copy)]
pub struct ContextIds {
    /// The context of ACSE.
    pub acse: u16,
    /// The context of MMS.
    pub mms: u16,
}

/// The terms agreed for an open association.
#[derive(Clone, Copy)]
pub struct AssociationTerms {
    /// The accepted presentation contexts.
    pub contexts: ContextIds,
    /// The size of the largest PDU of MMS in octets.
    pub size: u32,
}

/// The phase of an association.
#[derive(Clone, Copy)]
pub enum Phase {
    /// Nothing was received.
    Idle,
    /// The association was requested and answered.
    Open(AssociationTerms),
    /// The association was released or aborted.
    Over,
    /// A TSDU was refused, or an allocation failed.
    Failed,
}

/// The meaning of a TSDU.
#[derive(Drop)]
pub enum Heard<'a> {
    /// A request for an association. The TSDU that answers it must be sent.
    Answer(Vec<u8>),
    /// A PDU of MMS.
    Mms(&'a [u8]),
    /// A request for a release. The TSDU that answers it must be sent; later TSDUs are refused.
    Released(Vec<u8>),
    /// An abort, which has no answer.
    Aborted,
}

// Returns whether a number that was read is the identifier of this presentation context.
fn is_id(id: i64, context: u16) -> bool
    ensures { result ≡ spec.is_id id context }
{
    id == i64::from(context)
}

// Returns the first context that offers ACSE with the Basic Encoding Rules.
fn acse_of(contexts: &[Context]) -> Option<u16>
    ensures { result ≡ spec.acse_of contexts.now }
{
    contexts
        .iter()
        .find(|context| context.is_acse)
        .map(|context| context.id)
}

// Returns the first context that offers MMS with the Basic Encoding Rules.
fn mms_of(contexts: &[Context]) -> Option<u16>
    ensures { result ≡ spec.mms_of contexts.now }
{
    contexts
        .iter()
        .find(|context| context.is_mms)
        .map(|context| context.id)
}

// Returns the first context of each, if both are offered.
#[tactic(auto, unfolding(crate::specs::TsduMeanings::accepted_ids))]
fn accepted_ids(contexts: &[Context]) -> Option<ContextIds>
    ensures { result ≡ spec.accepted_ids contexts.now }
{
    let acse = acse_of(contexts)?;
    let mms = mms_of(contexts)?;
    Some(ContextIds { acse, mms })
}

// Returns a value that must be in the context of ACSE. Fails with `BadAcse` if it is in that of
// MMS, and with `NoContext` if it is in any other.
fn acse_value<'a>(contexts: ContextIds, carried: ContextValue<'a>) -> Result<&'a [u8], AssocFault>
    ensures { Exact (λ octets. octets.now) result
        (spec.acse_value contexts (context_value_view carried.entry)) }
{
    if is_id(carried.id, contexts.acse) {
        Ok(carried.value)
    } else if is_id(carried.id, contexts.mms) {
        Err(AssocFault::BadAcse)
    } else {
        Err(AssocFault::NoContext)
    }
}

// Returns a value that must be in the context of MMS. Fails with `BadAcse` if it is in that of
// ACSE, and with `NoContext` if it is in any other.
fn mms_value<'a>(contexts: ContextIds, carried: ContextValue<'a>) -> Result<&'a [u8], AssocFault>
    ensures value { Exact (λ octets. octets.now) result
        (spec.mms_value contexts (context_value_view carried.entry)) }
    ensures memory { IsErrOf result AssocFault.OutOfMemory → ⊥ }
{
    if is_id(carried.id, contexts.mms) {
        Ok(carried.value)
    } else if is_id(carried.id, contexts.acse) {
        Err(AssocFault::BadAcse)
    } else {
        Err(AssocFault::NoContext)
    }
}

// Returns the agreed number of outstanding requests: the proposed one, at most 5.
fn outstanding_of(proposed: i64) -> u32
    ensures { result ≡ spec.outstanding_of proposed }
{
    if proposed < 0 {
        0
    } else {
        proposed.min(5) as u32
    }
}

// Returns the agreed nesting of data: the proposed one, at most 10.
fn nesting_of(proposed: i64) -> i64
    ensures { result ≡ spec.nesting_of proposed }
{
    proposed.min(10)
}

// Returns the agreed limits of a proposal; `None` if the proposed size of a PDU is too small.
fn agreed_limits(proposal: Proposal) -> Option<AgreedLimits>
    ensures agreed { result ≡ spec.agreed_limits proposal }
    ensures sized { IfSome result (λ agreed. IsPduSize agreed.size) }
{
    let size = agreed_size(proposal.size)?;
    Some(AgreedLimits {
        size,
        calling: outstanding_of(proposal.calling),
        called: outstanding_of(proposal.called),
        nesting: proposal.nesting.map(|nesting| nesting_of(nesting)),
        parameters: proposal.parameters,
    })
}

// Writes the TSDU that answers a request for an association.
fn answer_connect(
    alloc: Global,
    request: &Connect<'_>,
    contexts: ContextIds,
    agreed: AgreedLimits,
) -> Result<Vec<u8>, AllocError>
    ensures text { IfOk result
        (λ octets. octets.items ≡ answer_text (connect_view request.now) contexts agreed) }
    ensures few { IfOk result (λ octets. length octets.items ≤ 1_000) }
{
    let pdu = write_initiate_response(alloc, agreed)?;
    let value = text::write_aare(alloc, contexts.mms, pdu.as_slice())?;
    let list = request.contexts.as_slice();
    let user = text::write_cpa(alloc, request.called, list, contexts, value.as_slice())?;
    text::accept(alloc, user.as_slice())
}

// Returns the accepted contexts and the agreed limits, from the contexts and the user data of a
// request: an AARQ of ACSE, with an initiate of MMS within it.
#[tactic(auto, unfolding(crate::specs::TsduMeanings::agreement))]
fn agreement(
    contexts: &[Context],
    user: ContextValue<'_>,
) -> Result<(ContextIds, AgreedLimits), AssocFault>
    ensures agreement { Exact (λ x. (x.0, x.1)) result
        (spec.agreement contexts.now (context_value_view user.entry)).result }
    ensures sized { IfOk result (λ x. IsPduSize x.1.size) }
{
    let contexts = accepted_ids(contexts).ok_or(AssocFault::NoContext)?;
    let value = acse_value(contexts, user)?;
    let information = parse_aarq(value).ok_or(AssocFault::BadAcse)?;
    let pdu = mms_value(contexts, information)?;
    let proposal = read_initiate(pdu).ok_or(AssocFault::BadAcse)?;
    let agreed = agreed_limits(proposal).ok_or(AssocFault::PduSizeTooSmall)?;
    Ok((contexts, agreed))
}

// Handles a CONNECT: a request for an association.
#[tactic(auto, unfolding(crate::specs::TsduMeanings::connection_request))]
fn receive_connect<'a>(alloc: Global, user: &'a [u8]) -> Result<(Heard<'a>, Phase), AssocFault>
    ensures heard { ExactOr AssocFault.OutOfMemory (λ x. (heard_view x.0, x.1)) result
        (spec.connection_request user.now).result }
    ensures memory { IsErrOf result AssocFault.OutOfMemory → IsSome (request_mode.reads user.now) }
    ensures short { IfOk result (λ x. IsShort x.0) }
    ensures sized { IfOk result (λ x. IsSized x.1) }
{
    let request = parse_connect_request(alloc, user)?;
    let (contexts, agreed) = agreement(request.contexts.as_slice(), request.user)?;
    let octets = answer_connect(alloc, &request, contexts, agreed)?;
    let terms = AssociationTerms {
        contexts,
        size: agreed.size,
    };
    Ok((Heard::Answer(octets), Phase::Open(terms)))
}

// Writes the answer to a FINISH without user data.
fn write_disconnect_alone(alloc: Global) -> Result<Vec<u8>, AllocError>
    ensures text { IfOk result (λ octets. octets.items ≡ 0x0A ∷ 0 ∷ []) }
    ensures few { IfOk result (λ octets. length octets.items ≤ 100) }
{
    let mut octets = Vec::new(alloc);
    octets.extend_from_slice(&[0x0A, 0x00])?;
    Ok(octets)
}

// Handles a FINISH: a request for a release.
#[tactic(auto, unfolding(crate::specs::TsduMeanings::release_request))]
fn receive_finish<'a>(
    alloc: Global,
    terms: AssociationTerms,
    user: Option<&'a [u8]>,
) -> Result<(Heard<'a>, Phase), AssocFault>
    ensures heard { ExactOr AssocFault.OutOfMemory (λ x. (heard_view x.0, x.1)) result
        (spec.release_request terms (option_map (λ octets. octets.now) user.entry)).result }
    ensures short { IfOk result (λ x. IsShort x.0) }
    ensures sized { IfOk result (λ x. IsSized x.1) }
{
    let octets = match user {
        None => write_disconnect_alone(alloc)?,
        Some(user) => {
            let carried = parse_user_data(user).ok_or(AssocFault::BadPresentation)?;
            let value = acse_value(terms.contexts, carried)?;
            parse_rlrq(value).ok_or(AssocFault::BadAcse)?;
            text::write_release_response(alloc, terms.contexts.acse)?
        }
    };
    Ok((Heard::Released(octets), Phase::Over))
}

// Handles a DATA TRANSFER: returns the PDU of MMS, which must be in the context of MMS.
#[tactic(auto, unfolding(crate::specs::TsduMeanings::data_transfer))]
fn receive_data<'a>(
    terms: AssociationTerms,
    user: &'a [u8],
) -> Result<(Heard<'a>, Phase), AssocFault>
    requires { IsPduSize terms.size }
    ensures heard { Exact (λ x. (heard_view x.0, x.1)) result
        (spec.data_transfer terms user.now).result }
    ensures memory { IsErrOf result AssocFault.OutOfMemory → ⊥ }
    ensures short { IfOk result (λ x. IsShort x.0) }
    ensures sized { IfOk result (λ x. IsSized x.1) }
{
    let carried = parse_user_data(user).ok_or(AssocFault::BadPresentation)?;
    let pdu = mms_value(terms.contexts, carried)?;
    Ok((Heard::Mms(pdu), Phase::Open(terms)))
}

// Returns the meaning of an SPDU before the association.
fn receive_idle<'a>(alloc: Global, spdu: Spdu<'a>) -> Result<(Heard<'a>, Phase), AssocFault>
    ensures heard { ExactOr AssocFault.OutOfMemory (λ x. (heard_view x.0, x.1)) result
        (spec.idle_meaning (spdu_view spdu.entry)).result }
    ensures memory { IsErrOf result AssocFault.OutOfMemory
        → MayAllocate Phase.Idle (Some (spdu_view spdu.entry)) }
    ensures short { IfOk result (λ x. IsShort x.0) }
    ensures sized { IfOk result (λ x. IsSized x.1) }
{
    match spdu {
        Spdu::Connect(user) => receive_connect(alloc, user),
        Spdu::Abort => Ok((Heard::Aborted, Phase::Over)),
        Spdu::Accept | Spdu::Finish(_) | Spdu::Disconnect | Spdu::Transfer(_) => {
            Err(AssocFault::OutOfPhase)
        }
    }
}

// Returns the meaning of an SPDU in an open association.
fn receive_open<'a>(
    alloc: Global,
    terms: AssociationTerms,
    spdu: Spdu<'a>,
) -> Result<(Heard<'a>, Phase), AssocFault>
    requires { IsPduSize terms.size }
    ensures heard { ExactOr AssocFault.OutOfMemory (λ x. (heard_view x.0, x.1)) result
        (spec.open_meaning terms (spdu_view spdu.entry)).result }
    ensures memory { IsErrOf result AssocFault.OutOfMemory
        → MayAllocate (Phase.Open terms) (Some (spdu_view spdu.entry)) }
    ensures short { IfOk result (λ x. IsShort x.0) }
    ensures sized { IfOk result (λ x. IsSized x.1) }
{
    match spdu {
        Spdu::Finish(user) => receive_finish(alloc, terms, user),
        Spdu::Transfer(user) => receive_data(terms, user),
        Spdu::Abort => Ok((Heard::Aborted, Phase::Over)),
        Spdu::Connect(_) | Spdu::Accept | Spdu::Disconnect => Err(AssocFault::OutOfPhase),
    }
}

/// Returns the meaning of a TSDU in a phase, and the next phase.
#[tactic(auto, unfolding(crate::specs::TsduMeanings::verdict))]
pub(crate) fn receive<'a>(
    alloc: Global,
    phase: Phase,
    tsdu: &'a [u8],
) -> Result<(Heard<'a>, Phase), AssocFault>
    requires { IsSized phase }
    ensures heard { ExactOr AssocFault.OutOfMemory (λ x. (heard_view x.0, x.1)) result
        (tsdu_meaning phase tsdu.now) }
    ensures memory { IsErrOf result AssocFault.OutOfMemory → MayAllocate phase (spdu_in tsdu.now) }
    ensures short { IfOk result (λ x. IsShort x.0) }
    ensures sized { IfOk result (λ x. IsSized x.1) }
{
    match phase {
        Phase::Idle => receive_idle(alloc, parse_spdu(tsdu).ok_or(AssocFault::BadSession)?),
        Phase::Open(terms) => {
            receive_open(
                alloc,
                terms,
                parse_spdu(tsdu).ok_or(AssocFault::BadSession)?,
            )
        }
        Phase::Over => Err(AssocFault::OutOfPhase),
        Phase::Failed => Err(AssocFault::Failed),
    }
}
