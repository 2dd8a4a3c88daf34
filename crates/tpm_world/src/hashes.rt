//! Hashes of commands, and the machine's nonces, proof and HMACs of saved sessions.

ghost use Rattle.std.specs.Prelude.{◌≡◌, ℕ, List, ◌++◌, IfOk};
ghost use Rattle.tpol_hash.specs.Messages.{Holds};
ghost use Rattle.tpol_wire.specs.Handles.{handles_of};
ghost use Rattle.tpm_world.specs.Hashes as spec;

use crate::World;
use std::alloc::Global;
use tpol_base::{Digest32, NoMemory};
use tpol_hash::{Hasher, Mac};
use tpol_wire::{Command, code_of, parameters_of};

impl World {
    /// The cpHash of a command: the hash of its code, the Names of its handles and its parameters
    /// (TPM 2.0 Part 1, "cpHash").
    #[tactic(auto, unfolding(tpol_wire::specs::Hashes::cp_hash))]
    pub fn cp_hash(&self, alloc: Global, command: &Command) -> Result<Digest32, NoMemory>
        ensures hash { IfOk result (λ hash. hash ≡ spec.cp_hash self.now command.now) }
    {
        let parameters = parameters_of(alloc, command)?;
        let mut hasher = Hasher::new();
        hasher.put(&code_of(command).to_be_bytes());
        self.put_names(&mut hasher, command);
        hasher.put(parameters.as_slice());
        Ok(hasher.done())
    }

    /// The nameHash of a command: the hash of the Names of its handles (TPM 2.0 Part 3, TPM2_PolicyNameHash).
    #[tactic(auto, unfolding(tpol_wire::specs::Hashes::name_hash))]
    pub fn name_hash(&self, command: &Command) -> Digest32
        ensures hash { result ≡ spec.name_hash self.now command.now }
    {
        let mut hasher = Hasher::new();
        self.put_names(&mut hasher, command);
        hasher.done()
    }

    // Adds the Names of a command's handles to a message.
    fn put_names(&self, hasher: &mut Hasher, command: &Command)
        ensures longer { (m : List ℕ) → Holds hasher.old m
            → Holds hasher.new (m ++ spec.joined_names self.now (handles_of command.now)) }
    {
        let handles = command.handles();
        for handle in handles.as_slice() {
            hasher.put_name(&self.name_of(*handle));
        }
    }
}

/// The nonce that a session gets that is started or used at this event: the hash of the seed, 0x4e4f4e43
/// (`NONC`) and the event's number.
#[tactic(auto, unfolding(crate::specs::Hashes::nonce_of_event))]
pub fn nonce_of_event(seed: &Digest32, event: u32) -> Digest32
    ensures nonce { result ≡ spec.nonce_of_event seed.now event }
{
    let mut hasher = Hasher::new();
    hasher.put(&seed.bytes);
    hasher.put(&[0x4e, 0x4f, 0x4e, 0x43]);
    hasher.put(&event.to_be_bytes());
    hasher.done()
}

/// The proof of a machine with this seed, which is the key of all its tickets: the hash of the seed and
/// 0x50524f46 (`PROF`).
#[tactic(auto, unfolding(crate::specs::Hashes::proof_of))]
pub fn proof_of(seed: &Digest32) -> Digest32
    ensures proof { result ≡ spec.proof_of seed.now }
{
    let mut hasher = Hasher::new();
    hasher.put(&seed.bytes);
    hasher.put(&[0x50, 0x52, 0x4f, 0x46]);
    hasher.done()
}

/// The HMAC by which a machine with this proof knows the context of a saved session again: over 0x43545853
/// (`CTXS`), the sequence and the session's handle.
#[tactic(auto, unfolding(crate::specs::Hashes::context_mac))]
pub fn context_mac(proof: &Digest32, sequence: u64, handle: u32) -> Digest32
    ensures mac { result ≡ spec.context_mac proof.now sequence handle }
{
    let mut mac = Mac::new(&proof.bytes);
    mac.put(&[0x43, 0x54, 0x58, 0x53]);
    mac.put(&sequence.to_be_bytes());
    mac.put(&handle.to_be_bytes());
    mac.done()
}
