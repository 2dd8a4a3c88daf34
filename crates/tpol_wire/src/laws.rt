//! What the definitions promise together: functions without a body, whose clauses are the laws.

ghost use Rattle.std.specs.Prelude.{◌≡◌, ◌<◌, ◌^◌, ◌↔◌, Err, IsOk, None, Ok, List, Option, Some, slice_index, ℕ};
ghost use Rattle.tpol_wire.specs.declared.auth_area.ReplyAuth.{ReplyAuth};
ghost use Rattle.tpol_wire.specs.declared.command.Command.{Command};
ghost use Rattle.tpol_wire.specs.declared.reply.Reply.{Reply};
ghost use Rattle.tpol_wire.specs.Commands.{FitsCommand, Spells, spelling};
ghost use Rattle.tpol_wire.specs.Reading.{reading};
ghost use Rattle.tpol_wire.specs.Replies.{SpellsReply};
ghost use Rattle.tpol_wire.specs.WireRules.{wire_refusal};

/// No two byte strings spell one command, no two commands have one spelling, and what spells a command
/// breaks no rule of the wire. The same of replies: one text each, and to a command's code one reply each.
pub fn one_spelling()
    ensures one_text { (a b : List ℕ) (command : Command) → Spells a command → Spells b command
        → a ≡ b }
    ensures one_command { (bytes : List ℕ) (a b : Command) → Spells bytes a → Spells bytes b
        → a ≡ b }
    ensures unbroken { (bytes : List ℕ) (command : Command) → Spells bytes command
        → wire_refusal bytes ≡ None }
    ensures one_reply_text { (code other : ℕ) (a b : List ℕ) (reply : Reply)
        (auth : Option ReplyAuth) → SpellsReply code a reply auth → SpellsReply other b reply auth
        → a ≡ b }
    ensures one_reply { (code : ℕ) (bytes : List ℕ) (reply other : Reply)
        (auth area : Option ReplyAuth) → SpellsReply code bytes reply auth
        → SpellsReply code bytes other area → (reply ≡ other) × (auth ≡ area) }
{}

/// A command whose fields are within their bounds is read again from its spelling, and so it is from all bytes
/// that spell it; what is read of bytes is spelled by them.
pub fn read_back()
    ensures command { (command : Command) → FitsCommand command
        → reading (spelling command) ≡ Ok command }
    ensures bytes { (bytes : List ℕ) (command : Command) → Spells bytes command
        → reading bytes ≡ Ok command }
    ensures spelled { (bytes : List ℕ) (command : Command) → ((i : ℕ) → slice_index bytes i < 2 ^ 8)
        → reading bytes ≡ Ok command → Spells bytes command }
{}

/// Bytes are refused exactly where they break a rule of the wire, with the code of the first that they break,
/// and read as a command exactly where they break none.
pub fn first_rule_broken()
    ensures refused { (bytes : List ℕ) (code : ℕ)
        → (reading bytes ≡ Err code) ↔ (wire_refusal bytes ≡ Some code) }
    ensures unbroken { (bytes : List ℕ) → IsOk (reading bytes) ↔ (wire_refusal bytes ≡ None) }
{}
