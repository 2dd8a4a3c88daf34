//! What a journal promises of tickets: functions whose clauses are the laws.

ghost use Rattle.std.specs.Prelude.{◌≡◌, ◌≤◌, ◌↔◌, ◌^◌, ℕ, false, true, List, Ok, Option, Some, option_map};
ghost use Rattle.tpol_base.specs.declared.digest.Digest32.{Digest32};
ghost use Rattle.tpol_base.specs.declared.name.Name.{Name};
ghost use Rattle.tpol_fields.specs.declared.ticket.Ticket.{Ticket};
ghost use Rattle.tpol_name.specs.declared.setup.Setup.{Setup as SetupOf};
ghost use Rattle.tpol_wire.specs.declared.command.Command.TheVariants.{PolicyAuthorize, PolicyTicket, VerifySignature};
ghost use Rattle.tpol_wire.specs.Commands.{spelling};
ghost use Rattle.tpol_wire.specs.Reading.{reading};
ghost use Rattle.tpm_engine.specs.declared.event.Event.{Event as EventOf};
ghost use Rattle.tpm_engine.specs.Events.{is_success};
ghost use Rattle.tpm_engine.specs.Legal.{IsLegal, answer_to};
ghost use Rattle.tpm_engine.specs.PolicyCommands.{has_timeout};
ghost use Rattle.tpm_engine.specs.Tickets.{Ticketed, has_reset, ticket_command};
ghost use Rattle.tpm_engine.specs.Views.{time_of, world_at};
ghost use Rattle.tpm_rules.specs.declared.outcome.Outcome.TheVariants.{Accepted};
ghost use Rattle.tpm_world.specs.Entities.{name_at};
ghost use Rattle.tpol_laws.specs.JournalTickets.{CommandIn, IsApprovalAccepted, IsAuthorizationTicket, IsOfBytes, IsTicketAccepted, IsVerificationTicket, TakesAuthorization, given_by, ticket_told, verification_told};

/// The bytes of the reply to a PolicySecret or a PolicySigned of a journal tell a ticket with its deadline exactly where
/// one is given (`given_by`): where the command succeeds and its expiration is negative, and then that one. Its digest is
/// the HMAC under the machine's proof over the ticket's kind, the deadline, the reset count at that event, cpHashA,
/// policyRef and the Name (`IsAuthorizationTicket`). The bytes of the reply to a VerifySignature tell a ticket exactly
/// where the command succeeds and it is the machine's for the digest and the key (`IsVerificationTicket`).
pub fn journals_tell_tickets()
    ensures told { (setup : SetupOf) (journal : List EventOf) (it : CommandIn journal)
        → IsLegal setup journal → IsOfBytes it.buffer → time_of setup it.earlier ≤ 2 ^ 63
        → has_timeout it.command ≡ true
        → ticket_told it.command it.reply
        ≡ option_map (λ given. (given.deadline, given.ticket))
        (given_by setup it.earlier it.command it.outcome) }
    ensures given { (setup : SetupOf) (journal : List EventOf) (it : CommandIn journal)
        (given : Ticketed)
        → given_by setup it.earlier it.command it.outcome ≡ Some given
        → IsAuthorizationTicket setup it.earlier given.deadline given.cp_hash given.policy_ref
        given.name given.ticket }
    ensures verified { (setup : SetupOf) (journal : List EventOf) (it : CommandIn journal) (key : ℕ)
        (digest signature : Digest32) (ticket : Ticket)
        → IsLegal setup journal → IsOfBytes it.buffer
        → it.command ≡ VerifySignature key digest signature
        → (verification_told it.command it.reply ≡ Some ticket)
        ↔ ((is_success it.outcome ≡ true)
        × IsVerificationTicket setup digest (name_at (world_at setup it.earlier) key) ticket) }
{}

/// A PolicyTicket of a journal is accepted exactly where its session is live, has room and a slot that takes the cpHashA,
/// the deadline has not passed, and the ticket is the machine's own for these fields and the reset count at that event
/// (`IsTicketAccepted`). A PolicyAuthorize is accepted exactly where its session is live, has room and the approved
/// digest, and the ticket is the machine's own for the approval and the key (`IsApprovalAccepted`). A ticket that was
/// given in the journal comes back: the PolicyTicket with its fields can be sent to each session that takes it, and is
/// accepted while its deadline has not passed and no Reset came since.
pub fn own_tickets_are_accepted()
    ensures tickets { (setup : SetupOf) (journal : List EventOf) (it : CommandIn journal)
        (own deadline : ℕ) (cp_hash : Option Digest32) (policy_ref : List ℕ) (name : Name)
        (ticket : Ticket)
        → IsLegal setup journal → it.command
        ≡ PolicyTicket own deadline cp_hash policy_ref name ticket
        → (it.outcome ≡ Accepted)
        ↔ IsTicketAccepted setup it.earlier own deadline cp_hash policy_ref name ticket }
    ensures approvals { (setup : SetupOf) (journal : List EventOf) (it : CommandIn journal)
        (own : ℕ) (approved : Digest32) (policy_ref : List ℕ) (key : Name) (ticket : Ticket)
        → IsLegal setup journal → it.command ≡ PolicyAuthorize own approved policy_ref key ticket
        → (it.outcome ≡ Accepted)
        ↔ IsApprovalAccepted setup it.earlier own approved policy_ref key ticket }
    ensures can_be_sent { (setup : SetupOf) (journal : List EventOf) (it : CommandIn journal)
        (given : Ticketed) (own : ℕ)
        → given_by setup it.earlier it.command it.outcome ≡ Some given → IsOfBytes it.buffer
        → time_of setup it.earlier ≤ 2 ^ 63
        → TakesAuthorization setup journal own given.cp_hash
        → reading (spelling (ticket_command own given)) ≡ Ok (ticket_command own given) }
    ensures come_back { (setup : SetupOf) (journal : List EventOf) (it : CommandIn journal)
        (given : Ticketed) (own locality : ℕ)
        → given_by setup it.earlier it.command it.outcome ≡ Some given → IsOfBytes it.buffer
        → time_of setup it.earlier ≤ 2 ^ 63
        → has_reset it.later ≡ false → TakesAuthorization setup journal own given.cp_hash
        → time_of setup journal ≤ given.deadline
        → (answer_to setup journal locality (spelling (ticket_command own given))).outcome
        ≡ Accepted }
{}
