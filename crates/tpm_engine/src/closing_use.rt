use tpol_tree::Facts;

/// The use of a policy session that is to be closed: the session, whether it continues, the entity that it
/// authorized, and the empty facts that take the place of its own.
#[derive(Drop)]
pub struct Closing {
    pub session: u32,
    pub keep: bool,
    pub entity: u32,
    pub facts: Facts,
}
