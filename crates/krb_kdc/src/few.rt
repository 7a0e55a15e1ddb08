//! The few accounts that were looked up.
ghost use Rattle.std.specs.Prelude.{◌≡◌, IfErr, OnOk};
ghost use Rattle.std.specs.FinMap as finite;
ghost use Rattle.std.specs.Option.{is_some};
ghost use Rattle.krb_realm_accounts.specs.Accounts.{Look, look_in};
ghost use Rattle.krb_kdc.specs.Faults.{MayFail};
ghost use Rattle.krb_kdc.specs.Few.{IsFetched};
ghost use Rattle.krb_kdc.specs.declared.fault.LookupFault.TheVariants.{Memory};

use crate::fault::LookupFault;
use crate::lookup::Lookup;
use krb_realm_accounts::{Account, Accounts};
use picky_asn1::wrapper::GeneralStringAsn1;
use std::alloc::Global;

/// Looks the account of a name up and puts it among the few, if it is not among them.
pub(crate) fn fetch<L: Lookup>(
    alloc: Global,
    lookup: &L,
    few: &mut Accounts,
    name: &[GeneralStringAsn1],
) -> Result<(), LookupFault>
    ensures few { (all : Look) → L.holds lookup.now all → OnOk result (IsFetched all name.now few.old few.new) }
    ensures fault { IfErr result (MayFail (L.may_fail lookup.now name.now)) }
{
    if has(few, name) {
        return Ok(());
    }
    let Some(account) = lookup.account(alloc, name)? else {
        return Ok(());
    };
    put(alloc, few, name, account)
}

// Returns whether the few have an account of this name.
fn has(few: &Accounts, name: &[GeneralStringAsn1]) -> bool
    ensures { result ≡ is_some (look_in few.now name.now) }
{
    few.get(name).is_some()
}

// Puts the account of a name among the few.
fn put(
    alloc: Global,
    few: &mut Accounts,
    name: &[GeneralStringAsn1],
    account: Account,
) -> Result<(), LookupFault>
    ensures few { OnOk result (few.new ≡ finite.insert few.old name.now account) }
    ensures fault { IfErr result (λ fault. fault ≡ Memory) }
{
    let own = name.to_vec(alloc)?;
    match few.insert_new(own, account) {
        Ok(()) => Ok(()),
        Err(_) => Err(LookupFault::Memory),
    }
}
