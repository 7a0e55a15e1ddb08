//! The PAC in a ticket's authorization data (RFC 4120, section 5.2.6; MS-PAC, section 2).
ghost use Rattle.std.specs.Prelude.{◌≡◌, ◌⊎◌, ◌++◌, ℕ, List, Result, Ok, Err, IfOk, MatchResult};
ghost use Rattle.asn1_der.specs.Tree.{Writes};
ghost use Rattle.picky_asn1_der.specs.Found.{IsFound};
ghost use Rattle.krb_messages.specs.declared.data_types.authorization_data.AuthorizationDataInner.{AuthorizationDataInner as Element};
ghost use Rattle.krb_pac.specs.declared.error.PacFault.{PacFault};
ghost use Rattle.krb_pac.specs.declared.error.PacFault.TheVariants.{Memory, AuthorizationData as NoEncoding};
ghost use Rattle.krb_pac.specs.AuthorizationData.{elements_tree, pac_of, pacs_of, ElementHas, ElementsHave, sole_pac, FindsPac};

use crate::error::PacFault;
use krb_messages::data_types::{AuthorizationData, AuthorizationDataInner};
use krb_messages::is_number;
use picky_asn1::wrapper::OctetStringAsn1;
use picky_asn1_der::read_whole;
use std::alloc::{AllocError, Global};

/// AD-IF-RELEVANT (RFC 4120, section 7.5.4).
pub(crate) const AD_IF_RELEVANT: u32 = 1;

/// AD-WIN2K-PAC (RFC 4120, section 7.5.4).
pub(crate) const AD_WIN2K_PAC: u32 = 128;

// Returns the authorization data whose encoding the octets are, or none.
fn read_elements(alloc: Global, octets: &[u8]) -> Result<Option<AuthorizationData>, AllocError>
    ensures { IfOk result (IsFound (λ elements. Writes elements_tree elements octets.now)) }
{
    read_whole(alloc, octets)
}

// Appends the octets of an element of type AD-WIN2K-PAC.
fn put_pac(
    pacs: &mut Vec<OctetStringAsn1>,
    element: &AuthorizationDataInner,
) -> Result<(), AllocError>
    ensures { IfOk result (λ _. pacs.new.items ≡ pacs.old.items ++ pac_of element.now) }
{
    if !is_number(&element.ad_type.0, AD_WIN2K_PAC) {
        return Ok(());
    }
    let octets = element.ad_data.0.clone()?;
    pacs.push(octets)?;
    Ok(())
}

// Appends the octets of each element of type AD-WIN2K-PAC.
fn put_pacs(
    pacs: &mut Vec<OctetStringAsn1>,
    elements: &[AuthorizationDataInner],
) -> Result<(), AllocError>
    ensures { IfOk result (λ _. pacs.new.items ≡ pacs.old.items ++ pacs_of elements.now) }
{
    for element in elements {
        put_pac(pacs, element)?;
    }
    Ok(())
}

// Appends the PACs that an element has.
fn put_from(
    alloc: Global,
    pacs: &mut Vec<OctetStringAsn1>,
    element: &AuthorizationDataInner,
) -> Result<(), PacFault>
    ensures { MatchResult result
        (λ _. (here : List (List ℕ)) × ElementHas element.now here × (pacs.new.items ≡ pacs.old.items ++ here))
        (λ e. (e ≡ Memory) ⊎ ((e ≡ NoEncoding) × ((here : List (List ℕ)) → ElementHas element.now here → ⊥))) }
{
    if !is_number(&element.ad_type.0, AD_IF_RELEVANT) {
        return Ok(());
    }
    let Some(inner) = read_elements(alloc, element.ad_data.0.as_bytes())? else {
        return Err(PacFault::AuthorizationData);
    };
    put_pacs(pacs, inner.as_slice())?;
    Ok(())
}

// Returns the PACs of all elements.
fn pacs_in(
    alloc: Global,
    elements: &[AuthorizationDataInner],
) -> Result<Vec<OctetStringAsn1>, PacFault>
    ensures { MatchResult result
        (λ pacs. ElementsHave elements.now pacs.items)
        (λ e. (e ≡ Memory) ⊎ ((e ≡ NoEncoding) × ((pacs : List (List ℕ)) → ElementsHave elements.now pacs → ⊥))) }
{
    let mut pacs = Vec::new(alloc);
    for element in elements {
        put_from(alloc, &mut pacs, element)?;
    }
    Ok(pacs)
}

// Returns the only PAC of these.
fn sole_pac(pacs: Vec<OctetStringAsn1>) -> Result<Vec<u8>, PacFault>
    ensures { MatchResult result (λ pac. sole_pac pacs.items ≡ Ok pac.items) (λ e. sole_pac pacs.items ≡ Err e) }
{
    let mut pacs = pacs;
    if pacs.len() > 1 {
        return Err(PacFault::Twice);
    }
    match pacs.pop() {
        Some(pac) => Ok(Vec::from(pac)),
        None => Err(PacFault::NoPac),
    }
}

/// Returns the PAC that these elements of authorization data have.
pub(crate) fn find_pac(
    alloc: Global,
    elements: &[AuthorizationDataInner],
) -> Result<Vec<u8>, PacFault>
    ensures { MatchResult result
        (λ pac. FindsPac elements.now (Ok pac.items))
        (λ e. (e ≡ Memory) ⊎ FindsPac elements.now (Err e)) }
{
    let pacs = pacs_in(alloc, elements)?;
    sole_pac(pacs)
}

/// The law that elements of authorization data have one PAC, or one reason why they have none.
pub fn one_pac()
    ensures { (elements : List Element) (found other : Result (List ℕ) PacFault) → FindsPac elements found → FindsPac elements other → found ≡ other }
{}
