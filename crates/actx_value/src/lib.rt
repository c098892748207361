//! What the machine computes with: values, texts by number, errors, limits, ends, and the requests
//! that the body of a function makes.
#![tactic(auto)]

mod caller_id;
mod end;
mod error_kind;
mod ids;
mod laws;
mod limits;
mod operator;
mod request;
mod store_error;
mod texts;
mod truth;
mod value;
mod values;
mod word;

pub use caller_id::CallerId;
pub use end::{End, Reason, Which};
pub use error_kind::{ErrorKind, message};
pub use ids::{ObjId, ScopeId, TextId};
pub use laws::{equal_texts_share_their_least_number, numbers_outlast_additions};
pub use limits::{Limits, standard};
pub use operator::{BinaryOp, Op, UnaryOp};
pub use request::Request;
pub use store_error::StoreError;
pub use texts::Texts;
pub use truth::is_true;
pub use value::{Answer, Key, Value};
pub use values::Values;

#[cfg(test)]
mod tests;
