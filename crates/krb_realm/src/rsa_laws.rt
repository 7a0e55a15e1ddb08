//! What every honest login by RSA certificates ends with.
ghost use Rattle.std.specs.Prelude.{◌≡◌, Result, Some};
ghost use Rattle.picky_asn1.specs.Bytes.{Bytes};
ghost use Rattle.krb_kdc_exchanges.specs.Calls.{AreKeyed};
ghost use Rattle.krb_client.specs.Client.{ClientRecord};
ghost use Rattle.krb_service.specs.Service.{ServiceRecord};
ghost use Rattle.krb_logins.specs.Honest.{AreEnough, AreParties, AreUnlimited, IsGranting, IsOneKey};
ghost use Rattle.krb_logins.specs.LoginRun.{Login, LoginRun};
ghost use Rattle.krb_logins.specs.Parties.{LoginRecord, RealmRecord, RememberedRecord};
ghost use Rattle.krb_logins.specs.declared.refusal.LoginRefusal.{LoginRefusal};
ghost use Rattle.pkinit_validation.specs.Anchors.{AnchorRecord};
ghost use Rattle.pkinit_validation.specs.PkinitRows.{pkinit_rows};
ghost use Rattle.pkinit_validation.specs.Trust.{TrustRecord};
ghost use Rattle.pkinit_clients.specs.Means.{by_certificate};
ghost use Rattle.rsa_keys.specs.Functions.{rsa_functions};
ghost use Rattle.rsa_keys.specs.declared.own_key.OwnKey.{OwnKey};
ghost use Rattle.krb_realm.specs.HonestByRsa.{IsHonestByRsa};

use public_key_cryptography::Group;

/// Every honest login by RSA certificates ends with one session key on both sides, under the client's name, or memory runs out (RFC
/// 4556, section 3.2). Client and realm agree in one group.
pub fn one_key_by_rsa(group: Group)
    ensures { (client : ClientRecord) (certificate : Bytes) (anchor : AnchorRecord) (client_own : OwnKey) (realm : RealmRecord) (trust : TrustRecord) (realm_own : OwnKey)
        (service : ServiceRecord) (before : RememberedRecord) (login : LoginRecord) (result : Result Login LoginRefusal) (after : RememberedRecord)
        → AreParties client service → AreEnough login → IsGranting realm → AreKeyed realm.look → AreUnlimited client service realm
        → IsHonestByRsa group client certificate anchor client_own realm trust realm_own service before login
        → LoginRun client (by_certificate certificate anchor (rsa_functions group (Some client_own))) realm (pkinit_rows trust (rsa_functions group (Some realm_own)))
        service login before result after → IsOneKey client result }
{
    rsa_keys::laws::one_secret(group);
    crate::laws::one_key_by_certificate();
}
