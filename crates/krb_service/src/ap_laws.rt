//! What holds of every AP request.
ghost use Rattle.std.specs.Prelude.{◌≡◌, ℕ, List, Ok, Option};
ghost use Rattle.krb_messages.specs.RandomBytes.{AreEnoughForApReply};
ghost use Rattle.krb_ap_requests.specs.Acceptable.{IsAcceptable, presented_choice};
ghost use Rattle.krb_service.specs.ApReply.{IsReplyTo};
ghost use Rattle.krb_ap_requests.specs.ApTable.{presented};
ghost use Rattle.krb_ap_requests.specs.Entry.{EntryRecord};
ghost use Rattle.krb_ap_requests.specs.Fitting.{IsFitting};
ghost use Rattle.krb_ap_requests.specs.Presents.{Choice, Presents};
ghost use Rattle.krb_ap_requests.specs.Received.{Receives};
ghost use Rattle.krb_ap_requests.specs.declared.presented.Presented.{Presented};
ghost use Rattle.block_ciphers.specs.Bytes.{IsBytes};
ghost use Rattle.decision_tables.specs.Some.{HasSome};
ghost use Rattle.krb_messages.specs.declared.messages.ap_req.ApReqInner.{ApReqInner};

/// For a service's key each choice of outer fields, ticket's part, authenticator and confounders presents one string of
/// bytes at most, and each string is presented by one choice at most. It does nothing when it runs: its contract is the
/// law.
pub fn one_presentation()
    ensures choice { (key bytes : List ℕ) (a b : Choice) → Presents key a bytes → Presents key b bytes → a ≡ b }
    ensures bytes { (key : List ℕ) (choice : Choice) (a b : List ℕ) → Presents key choice a → Presents key choice b → a ≡ b }
{}

/// Each choice whose etypes and confounders fit its keys' suites is presented by a string of bytes; by `one_presentation` there is
/// one. It does nothing when it runs: its contract is the law.
pub fn has_presentation()
    ensures { (key : List ℕ) (choice : Choice) → IsFitting key choice → (bytes : List ℕ) × Presents key choice bytes }
{}

/// Bytes that spell a choice that is acceptable are received as it; and what is received was spelled so by one that is.
/// It does nothing when it runs: its contract is the law.
pub fn received_as_chosen()
    ensures received { (entry : EntryRecord) (skew moment : ℕ) (choice : Choice) (bytes : List ℕ) (x : IsAcceptable entry skew moment choice)
        → Presents entry.key choice bytes → Receives entry skew moment bytes (Ok (presented_choice entry skew moment choice x)) }
    ensures chosen { (entry : EntryRecord) (skew moment : ℕ) (bytes : List ℕ) (p : Presented) → Receives entry skew moment bytes (Ok p)
        → (choice : Choice) × Presents entry.key choice bytes × (x : IsAcceptable entry skew moment choice) × (p ≡ presented_choice entry skew moment choice x) }
{}

/// Each request is judged: it can't be that the table gives nothing. It does nothing when it runs: its contract is the
/// law.
pub fn has_judgement()
    ensures { (entry : EntryRecord) (skew moment : ℕ) (request : ApReqInner) → HasSome (presented entry skew moment request).gives }
{}

/// If a choice is acceptable, what it presents has a reply or requires none. It does nothing when it runs: its
/// contract is the law.
pub fn has_reply_to()
    ensures { (entry : EntryRecord) (skew moment : ℕ) (choice : Choice) (bytes words : List ℕ) (x : IsAcceptable entry skew moment choice)
        → Presents entry.key choice bytes → AreEnoughForApReply words → IsBytes words
        → (reply : Option (List ℕ)) × IsReplyTo (presented_choice entry skew moment choice x) words reply }
{}
