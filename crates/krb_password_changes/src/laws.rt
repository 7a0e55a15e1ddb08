//! What holds of every call.
ghost use Rattle.std.specs.Prelude.{◌≡◌, ◌+◌, List, Result, Ok, length};
ghost use Rattle.krb_account_texts.specs.declared.line.Line.{Line};
ghost use Rattle.krb_ap_requests.specs.Presents.{Choice};
ghost use Rattle.krb_service.specs.Admission.{AdmissionRecord, TellsOf};
ghost use Rattle.krb_service.specs.ChosenEntry.{IsPresentedTo};
ghost use Rattle.krb_service.specs.OnceForEver.{AreOnce};
ghost use Rattle.krb_service.specs.Pair.{PairRecord};
ghost use Rattle.krb_service.specs.Seen.{IsWindow, SeenRecord};
ghost use Rattle.krb_service.specs.Unasked.{IsRepliedTo};
ghost use Rattle.krb_service.specs.declared.reply.ReplyFields.TheVariants.{TimeAlone};
ghost use Rattle.krb_password_changes.specs.Frames.{IsFrame};
ghost use Rattle.krb_password_changes.specs.declared.messages.result_code.ResultCode.{ResultCode};
ghost use Rattle.krb_password_changes.specs.declared.messages.version.Version.{Version};
ghost use Rattle.krb_password_changes.specs.declared.messages.version.Version.TheVariants.{ChangePassword};
ghost use Rattle.krb_crypto.specs.declared.suite.CipherSuite.{CipherSuite};
ghost use Rattle.krb_messages.specs.RandomBytes.{Random};
ghost use Rattle.krb_messages.specs.declared.data_types.host_address.HostAddress.{HostAddress};
ghost use Rattle.microsoft_messages.specs.declared.krb_priv.KrbPrivInner.{KrbPrivInner};
ghost use Rattle.picky_asn1.specs.Bytes.{Bytes};
ghost use Rattle.krb_password_changes.specs.Privates.{IsKrbPriv, IsPrivatePart};
ghost use Rattle.krb_password_changes.specs.Replies.{IsPrivateFrame, reply_part};
ghost use Rattle.krb_password_changes.specs.Answers.{Caller, IsAnswered};
ghost use Rattle.krb_password_changes.specs.ChangeTable.{RulesRecord, judged_change};
ghost use Rattle.krb_password_changes.specs.Facts.{IsAskedFor};
ghost use Rattle.krb_password_changes.specs.declared.answer.Answer.{Answer};
ghost use Rattle.krb_password_changes.specs.declared.judge.Granted.{Granted};

/// What is granted was asked for: by the client itself or by an administrator, with an initial ticket, in a KRB-PRIV under the key of its
/// request. It does nothing when it runs: its contract is the law.
pub fn granted_is_asked_for()
    ensures { (rules : RulesRecord) (lines : List Line) (version : Version) (admission : AdmissionRecord) (octets : Bytes) (granted : Granted)
        → (judged_change rules lines version admission octets).gives (Ok granted) → IsAskedFor rules version admission octets granted }
{}

/// A request has one outcome at most. It does nothing when it runs: its contract is the law.
pub fn one_outcome()
    ensures { (rules : RulesRecord) (lines : List Line) (version : Version) (admission : AdmissionRecord) (octets : Bytes)
        (a b : Result Granted ResultCode)
        → (judged_change rules lines version admission octets).gives a → (judged_change rules lines version admission octets).gives b → a ≡ b }
{}

/// A request that is granted or judged adds the client and the time of its authenticator to those that were admitted, among which it wasn't.
/// So no request is granted twice. It does nothing when it runs: its contract is the law.
pub fn answered_once()
    ensures { (caller : Caller) (rules : RulesRecord) (message : Bytes) (old new : List Line) (answer : Answer) (seen : SeenRecord)
        → AreOnce caller.admitted → IsAnswered caller rules message old (Ok answer) new seen
        → (after : List PairRecord) × AreOnce after × (length after ≡ 1 + length caller.admitted) × IsWindow seen after }
{}

/// The AP-REQ of a message that is judged presents a ticket under a key of the service, and the admission has that ticket's client. The AP-REP
/// answers its authenticator. It does nothing when it runs: its contract is the law.
pub fn answered_as_presented()
    ensures { (caller : Caller) (rules : RulesRecord) (message : Bytes) (old new : List Line) (answer : Answer) (seen : SeenRecord)
        → IsAnswered caller rules message old (Ok answer) new seen
        → (version : Version) × (request : Bytes) × (krb_priv : Bytes) × (choice : Choice) × IsFrame version request krb_priv message
        × IsPresentedTo caller.service.entries choice request × TellsOf choice answer.admission × IsRepliedTo TimeAlone caller.words choice answer.admission }
{}

/// What a reply carries is read by whoever has its key: the frame has a KRB-PRIV, whose part opens under the key to the same data. It does
/// nothing when it runs: its contract is the law.
pub fn reply_is_read()
    ensures { (suite : CipherSuite) (key ap_rep octets : Bytes) (address : HostAddress) (words : Random) (message : Bytes)
        → IsPrivateFrame suite key ap_rep octets address words message
        → (krb_priv : Bytes) × (inner : KrbPrivInner) × IsFrame ChangePassword ap_rep krb_priv message × IsKrbPriv krb_priv inner
        × IsPrivatePart suite key inner.enc_part.0 (reply_part octets address) }
{}
