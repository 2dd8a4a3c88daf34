// What stands in the way of the commands that need an entity; a file a command, under its standard name.

pub mod policy_authorize;
pub mod policy_authorize_nv;
pub mod policy_nv;
pub mod policy_secret;
pub mod policy_signed;
mod reading;
