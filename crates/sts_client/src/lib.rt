//! Types of AWSSecurityTokenServiceV20110615 for AssumeRole, Credentials.
#![tactic(auto)]

mod assume_role_request;
mod assume_role_response;
mod assumed_role_user;
mod credentials;
mod tag;

pub use assume_role_request::{
    AssumeRoleRequest, read_assume_role_request, write_assume_role_request,
};
pub use assume_role_response::{
    AssumeRoleResponse, read_assume_role_response, write_assume_role_response,
};
pub use assumed_role_user::AssumedRoleUser;
pub use credentials::{Credentials, read_credentials, write_credentials};
pub use tag::Tag;
