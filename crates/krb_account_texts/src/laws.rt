//! What holds of every text of accounts. Each is a function that does nothing when it runs: its contract is the law.
ghost use Rattle.std.specs.Prelude.{◌≡◌, ℕ, Bool, List, Ok};
ghost use Rattle.picky_asn1.specs.Bytes.{Bytes};
ghost use Rattle.krb_realm_accounts.specs.Account.{AccountRecord};
ghost use Rattle.krb_account_texts.specs.Lines.{WrittenLine, account, text_of};
ghost use Rattle.krb_account_texts.specs.Reading.{account_in, lines_in};
ghost use Rattle.krb_account_texts.specs.Writable.{AreWritable, IsAccount};

/// What is written of lines is read as the same lines, if each is writable. A comment is one line that begins with `#`, and not with the
/// mark of a disabled account. A realm's name is printable, and its settings and greatest renewable life are in their ranges. An account's
/// name is a principal's, its key has its suite's length, its salt's octets are below 128, its kvno is at least 1 and below 2^32, the kvnos
/// of its older keys fall, and it ends between 1970 and 2106, if it ends.
pub fn written_is_read()
    ensures { (lines : List WrittenLine) → AreWritable lines → lines_in (text_of lines) ≡ Ok lines }
{}

/// Each account that is read, disabled or not, can be written: what is written of it is read as the same account.
pub fn read_account_is_writable()
    ensures { (is_disabled : Bool) (name suite kvno salt key : List ℕ) (further : List (List ℕ)) (read : List Bytes) (own : AccountRecord)
        → account_in is_disabled name suite kvno salt key further ≡ Ok (account read own is_disabled) → IsAccount read own }
{}
