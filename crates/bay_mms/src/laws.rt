// Laws about the texts and the grammar. Each function does nothing, and its contract is the law.
ghost use Rattle.std.specs.Prelude.{◌≡◌, ◌<◌, ◌≤◌, ◌↔◌, IsTrue, Option, Some, Result, Ok, Err, List, ℕ, length};
ghost use Rattle.bay_ber.specs.Octets.{AreOctets};
ghost use Rattle.bay_ber.specs.Spelling.{Spells};
ghost use Rattle.bay_mms.specs.Data.{Datum, Data, datum_text};
ghost use Rattle.bay_mms.specs.Types.{TypeSpec, type_text};
ghost use Rattle.bay_mms.specs.Reports.{report_text};
ghost use Rattle.bay_mms.specs.Responses.{conclude_response_text, confirmed_response, error_text, reject_text};
ghost use Rattle.bay_ber.specs.Tags.{context, constructed};
ghost use Rattle.bay_base.specs.Exact.{ExactOr};
ghost use Rattle.bay_mms.specs.RequestResults.{IsRequestOrFault};
ghost use Rattle.bay_mms.specs.RequestRelations.{Asks, AsksUnknown, AsksMany, AsksNothing};
ghost use Rattle.bay_mms.specs.Grammar.{datum_at, request_in};
ghost use Rattle.bay_mms_initiate.specs.InitiateResponse.{initiate_response_text};
ghost use Rattle.bay_mms_initiate.specs.Initiate.{initiate_in, IsInitiate};
ghost use Rattle.bay_ber.specs.Values.{value};
ghost use Rattle.bay_mms.specs.Controls.{Control, Operate, IsOperate, operate_datum, cancel_datum, operate_from_data, cancel_from_data, is_in_range, operate_or_error};
ghost use Rattle.bay_mms.specs.Laws.{IsPlain, IsOneValue, datum_tag, datum_content, depth_of};
ghost use Rattle.bay_mms.specs.Requests.{MmsRequest};
ghost use Rattle.bay_mms.specs.RequestViews.{request_view};
ghost use Rattle.bay_mms.specs.declared.fault.MmsFault.{MmsFault};
ghost use Rattle.bay_mms.specs.declared.request.Request.{Request};
ghost use Rattle.bay_mms.specs.declared.fault.MmsFault.TheVariants as MmsFault;
ghost use Rattle.bay_mms_initiate.specs.declared.initiate.Proposal.{Proposal};
ghost use Rattle.bay_mms_initiate.specs.declared.initiate.AgreedLimits.{AgreedLimits};
ghost use Rattle.bay_mms.specs.declared.response.ErrorClass.{ErrorClass};
ghost use Rattle.bay_mms.specs.declared.response.RejectReason.{RejectReason};

/// Each written text below 2^32 octets is one value of BER (X.690 8.1): data with their tags, which
/// have one octet, and their contents; responses and reports with the tags of their PDUs. Plain
/// data are read back as the same data.
pub fn written_is_read()
    ensures datum { (datum : Datum) → (datum_tag datum).number < 31
        → length (datum_text datum) < 4294967296
        → Spells (datum_text datum) (datum_tag datum) (datum_content datum) }
    ensures received { (datum : Datum) (depth : ℕ) → IsPlain datum
        → length (datum_text datum) < 4294967296 → depth_of datum ≤ depth
        → (datum_at depth).Spells (value (datum_tag datum) (datum_content datum)) datum }
    ensures agreed { (agreed : AgreedLimits)
        → IsOneValue (initiate_response_text agreed) (constructed 9) }
    ensures concluded { IsOneValue conclude_response_text (context 12) }
    ensures error { (id : ℕ) (class : ErrorClass)
        → IsOneValue (error_text id class) (constructed 2) }
    ensures reject { (id : Option ℕ) (reason : RejectReason)
        → IsOneValue (reject_text id reason) (constructed 4) }
    ensures confirmed { (id : ℕ) (service : List ℕ)
        → length (confirmed_response id service) < 4294967296
        → IsOneValue (confirmed_response id service) (constructed 1) }
    ensures report { (names : List (List ℕ)) (values : Data)
        → length (report_text names values) < 4294967296
        → IsOneValue (report_text names values) (constructed 3) }
{}

/// Octets encode at most one request. Octets that encode a request by complete nested values are
/// read as that request, and octets that are read as a request encode it. The same holds for the
/// initiate that opens an association. The result for octets is that request or the fault that they
/// have, unless an allocation fails.
pub fn one_request()
    ensures requested { (octets : List ℕ) (request : MmsRequest) → Asks request octets
        → request_in octets ≡ Ok request }
    ensures spelled { (octets : List ℕ) (request : MmsRequest) → AreOctets octets
        → request_in octets ≡ Ok request → Asks request octets }
    ensures one { (octets : List ℕ) (first second : MmsRequest) → Asks first octets
        → Asks second octets → first ≡ second }
    ensures answer { (octets : List ℕ) (answer : Result Request MmsFault) → AreOctets octets
        → IsRequestOrFault octets answer
        → ExactOr MmsFault.OutOfMemory request_view answer (request_in octets) }
    ensures initiate { (octets : List ℕ) (proposal : Proposal) → AreOctets octets
        → (initiate_in octets ≡ Some proposal) ↔ IsInitiate octets proposal }
{}

/// Each fault has its own relation: a service that is not served, and too many variables. Anything
/// else is a bad PDU, with the invoke id if the octets begin with one.
pub fn one_fault()
    ensures unknown { (octets : List ℕ) (id : ℕ) → AreOctets octets
        → (request_in octets ≡ Err (MmsFault.UnknownService id)) ↔ AsksUnknown id octets }
    ensures many { (octets : List ℕ) (id : ℕ) → AreOctets octets
        → (request_in octets ≡ Err (MmsFault.TooMany id)) ↔ AsksMany id octets }
    ensures bad { (octets : List ℕ) (known : Option ℕ) → AreOctets octets
        → (request_in octets ≡ Err (MmsFault.BadPdu known)) ↔ AsksNothing octets known }
{}

/// Controls and their data: which data are read as an operate or a cancel. The text of an operate,
/// as in reports, is the text of the data that it was read from. The data of an operate in range
/// are plain, and are read back as that operate.
pub fn a_control_is_its_data()
    ensures operate { (given : Datum) (o : Operate) → (operate_from_data given ≡ Some o)
        ↔ IsOperate given o }
    ensures cancel { (given : Datum) (c : Control) → (cancel_from_data given ≡ Some c)
        ↔ (given ≡ cancel_datum c) }
    ensures written { (given : Datum) (o : Operate) → operate_from_data given ≡ Some o
        → datum_text given ≡ datum_text (operate_datum o) }
    ensures plain { (o : Operate) → IsTrue (is_in_range o.control) → length o.control.t ≡ 8
        → IsPlain (operate_datum o) }
    ensures back { (o : Operate) → IsTrue (is_in_range o.control)
        → operate_or_error (operate_datum o) ≡ Ok o }
{}
