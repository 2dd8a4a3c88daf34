use crate::Closing;
use tpol_tree::Facts;

/// All that takes memory when a command that succeeds is carried out: the use of a policy session to be closed, and the
/// empty facts of the session that the command starts, if it starts one.
#[derive(Drop)]
pub struct Success {
    pub closing: Option<Closing>,
    pub facts: Option<Facts>,
}
