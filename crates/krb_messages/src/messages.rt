//! Messages between clients, a KDC and services (RFC 4120, sections 5.4, 5.5 and 5.9).

mod ap_rep;
mod ap_req;
mod enc_kdc_rep_part;
mod kdc_rep;
mod kdc_req;
mod kdc_req_body;
mod krb_error;

pub use ap_rep::{ApRep, ApRepInner};
pub use ap_req::{ApReq, ApReqInner};
pub use enc_kdc_rep_part::{EncAsRepPart, EncKdcRepPart, EncTgsRepPart};
pub use kdc_rep::{AsRep, KdcRep, TgsRep};
pub use kdc_req::{AsReq, KdcReq, TgsReq};
pub use kdc_req_body::KdcReqBody;
pub use krb_error::{KrbError, KrbErrorInner};
