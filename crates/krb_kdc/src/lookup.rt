//! What accounts are looked up in.
ghost use Rattle.std.specs.Prelude.{◌≡◌, List, IfOk, IfErr};
ghost use Rattle.krb_realm_accounts.specs.Accounts.{Look};
ghost use Rattle.picky_asn1.specs.Bytes.{Bytes};
ghost use Rattle.krb_kdc.specs.Faults.{MayFail};
ghost use Rattle.krb_kdc.specs.declared.fault.LookupFault.{LookupFault};

use crate::fault::LookupFault;
use krb_realm_accounts::{Account, Accounts};
use picky_asn1::wrapper::GeneralStringAsn1;
use std::alloc::{AllocError, Global};

/// What accounts are looked up in: memory, a file, a table of a database, a directory.
pub trait Lookup {
    // Whether it may be that each name has the account which this function gives. Where the accounts can't be read, any account may be.
    ghost holds: { Self → Look → Type 0 };

    // Whether it may be that the account of a name can't be read by this fault.
    ghost may_fail: { Self → List Bytes → LookupFault → Type 0 };

    /// The account of a name, or none if the name has none. It refuses as `Damaged` or `Failed` if the account can't be read, and as
    /// `Memory` if memory runs out.
    fn account(
        &self,
        alloc: Global,
        name: &[GeneralStringAsn1],
    ) -> Result<Option<Account>, LookupFault>
        ensures account { (all : Look) → holds self.now all → IfOk result (λ account. account ≡ all name.now) }
        ensures fault { IfErr result (MayFail (may_fail self.now name.now)) };
}

// Accounts in memory can always be read.
impl Lookup for Accounts {
    ghost use Rattle.krb_realm_accounts.specs.Accounts.{look_in};

    ghost holds = { λ accounts all. look_in accounts ≡ all };

    ghost may_fail = { λ _ _ _. ⊥ };

    fn account(
        &self,
        _alloc: Global,
        name: &[GeneralStringAsn1],
    ) -> Result<Option<Account>, LookupFault> {
        match self.get(name) {
            Some(account) => Ok(Some(copy_of(account)?)),
            None => Ok(None),
        }
    }
}

// Returns a copy of an account.
fn copy_of(account: &Account) -> Result<Account, AllocError>
    ensures { IfOk result (λ copy. copy ≡ account.now) }
{
    let copy = account.clone()?;
    Ok(copy)
}
