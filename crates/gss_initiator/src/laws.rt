//! The laws of first tokens.
ghost use Rattle.std.specs.Prelude.{◌≡◌, ℕ, List};
ghost use Rattle.krb_client.specs.Client.{ClientRecord, CredentialRecord};
ghost use Rattle.gss_acceptor.specs.declared.checksum.InitialChecksum.{InitialChecksum};
ghost use Rattle.gss_initiator.specs.Initiating.{SendsFirst};
ghost use Rattle.gss_initiator.specs.declared.initiated.TokenForm.{TokenForm};

/// There is one first token of what is chosen. It does nothing when it runs: its contract is the law.
pub fn one_first_token()
    ensures { (client : ClientRecord) (credential : CredentialRecord) (initial : InitialChecksum) (form : TokenForm) (moment : ℕ) (words a b : List ℕ)
        → SendsFirst client credential initial form moment words a → SendsFirst client credential initial form moment words b → a ≡ b }
{}
