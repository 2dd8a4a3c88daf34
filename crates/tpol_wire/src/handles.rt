//! The handles of a command, its authorization, and the session of a policy command.

ghost use Rattle.std.specs.Prelude.{◌≡◌, ◌≤◌, [], ◌∷◌, length};
ghost use Rattle.std.specs.Option.{option_copied};
ghost use Rattle.tpol_wire.specs.Handles as spec;

use crate::auth_area::AuthArea;
use crate::command::Command;
use std::marker::Model;

/// The greatest number of handles of a command.
const GREATEST: usize = 3;

/// The handles of a command; contracts see the list of them.
#[derive(Drop)]
pub struct Handles {
    handles: [u32; GREATEST],
    count: usize,
}

impl Model for Handles {
    ghost use Rattle.std.specs.Prelude.{◌≤◌, List, ℕ, take};

    ghost Value = { List ℕ };

    ghost view = { λ h. take h.count h.handles };

    ghost invariant = { λ h. h.count ≤ 3 };
}

impl Handles {
    // No handle.
    fn none() -> Handles
        ensures { result ≡ [] }
    {
        Handles {
            handles: [0; GREATEST],
            count: 0,
        }
    }

    // One handle.
    fn one(first: u32) -> Handles
        ensures { result ≡ first ∷ [] }
    {
        Handles {
            handles: [first, 0, 0],
            count: 1,
        }
    }

    // Two handles.
    fn two(first: u32, second: u32) -> Handles
        ensures { result ≡ first ∷ second ∷ [] }
    {
        Handles {
            handles: [first, second, 0],
            count: 2,
        }
    }

    // Three handles.
    fn three(first: u32, second: u32, third: u32) -> Handles
        ensures { result ≡ first ∷ second ∷ third ∷ [] }
    {
        Handles {
            handles: [first, second, third],
            count: 3,
        }
    }

    /// The handles in order, of which there are 0 to 3.
    pub fn as_slice(&self) -> &[u32]
        ensures handles { result.now ≡ self.now }
        ensures most { length result.now ≤ 3 }
    {
        &self.handles[..self.count]
    }
}

impl Command {
    /// The handles of a command, in the order of the wire. Where the command is authorized, that is by the first.
    pub fn handles(&self) -> Handles
        ensures handles { result ≡ spec.handles_of self.now }
    {
        match self {
            Command::FlushContext { .. } | Command::ContextLoad { .. } | Command::PcrRead { .. } =>
                { Handles::none() }
            Command::StartAuthSession { tpm_key, bind, .. } => Handles::two(*tpm_key, *bind),
            Command::PcrExtend { pcr, .. } => Handles::one(*pcr),
            Command::VerifySignature { key, .. } | Command::Hmac { key, .. } => Handles::one(*key),
            Command::Unseal { object, .. } => Handles::one(*object),
            Command::Duplicate { object, parent, .. } => Handles::two(*object, *parent),
            Command::NvRead {
                authority,
                index,
                ..
            }
            | Command::NvWrite {
                authority,
                index,
                ..
            }
            | Command::NvIncrement {
                authority,
                index,
                ..
            } => Handles::two(*authority, *index),
            Command::PolicyNv {
                authority,
                index,
                session,
                ..
            }
            | Command::PolicyAuthorizeNv {
                authority,
                index,
                session,
                ..
            } => Handles::three(*authority, *index, *session),
            Command::PolicySigned { key, session, .. } => Handles::two(*key, *session),
            Command::PolicySecret {
                entity,
                session,
                ..
            } => Handles::two(*entity, *session),
            Command::ContextSave { session }
            | Command::PolicyRestart { session }
            | Command::PolicyGetDigest { session }
            | Command::PolicyCpHash { session, .. }
            | Command::PolicyNameHash { session, .. }
            | Command::PolicyAuthValue { session }
            | Command::PolicyPassword { session }
            | Command::PolicyPhysicalPresence { session }
            | Command::PolicyCommandCode { session, .. }
            | Command::PolicyCounterTimer { session, .. }
            | Command::PolicyLocality { session, .. }
            | Command::PolicyPcr { session, .. }
            | Command::PolicyDuplicationSelect { session, .. }
            | Command::PolicyNvWritten { session, .. }
            | Command::PolicyTicket { session, .. }
            | Command::PolicyAuthorize { session, .. }
            | Command::PolicyOr { session, .. } => Handles::one(*session),
        }
    }

    /// The authorization of a command; `None` exactly where it has none.
    pub fn area(&self) -> Option<&AuthArea>
        ensures area { option_copied result ≡ spec.area_of self.now }
    {
        match self {
            Command::PcrExtend { auth, .. }
            | Command::Unseal { auth, .. }
            | Command::Hmac { auth, .. }
            | Command::NvRead { auth, .. }
            | Command::NvWrite { auth, .. }
            | Command::NvIncrement { auth, .. }
            | Command::Duplicate { auth, .. }
            | Command::PolicyNv { auth, .. }
            | Command::PolicySecret { auth, .. }
            | Command::PolicyAuthorizeNv { auth, .. } => Some(auth),
            _ => None,
        }
    }

    /// The session that a policy command acts on, and the position of its handle, from 1; `None` exactly where it
    /// is no policy command. The policy commands are those that add a fact to the session: PolicyRestart and
    /// PolicyGetDigest are none.
    pub fn policy_session(&self) -> Option<(u32, u8)>
        ensures session { result ≡ spec.policy_session_of self.now }
    {
        match self {
            Command::PolicyNv { session, .. } | Command::PolicyAuthorizeNv { session, .. } => {
                Some((*session, 3))
            }
            Command::PolicySigned { session, .. } | Command::PolicySecret { session, .. } => {
                Some((*session, 2))
            }
            Command::PolicyCpHash { session, .. }
            | Command::PolicyNameHash { session, .. }
            | Command::PolicyAuthValue { session }
            | Command::PolicyPassword { session }
            | Command::PolicyPhysicalPresence { session }
            | Command::PolicyCommandCode { session, .. }
            | Command::PolicyCounterTimer { session, .. }
            | Command::PolicyLocality { session, .. }
            | Command::PolicyPcr { session, .. }
            | Command::PolicyDuplicationSelect { session, .. }
            | Command::PolicyNvWritten { session, .. }
            | Command::PolicyTicket { session, .. }
            | Command::PolicyAuthorize { session, .. }
            | Command::PolicyOr { session, .. } => Some((*session, 1)),
            _ => None,
        }
    }
}
