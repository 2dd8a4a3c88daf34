//! The codes of commands and their names in documents (TPM 2.0 Part 2, TPM_CC).

ghost use Rattle.std.specs.Prelude.{◌≡◌, map, option_map};
ghost use Rattle.tpol_base.specs.CommandCode.{code_of_number, command_codes, command_name, find_name, number_of_code};

/// A command that the machine carries out, by its code (TPM 2.0 Part 2, TPM_CC); its rules stand in Part 3
/// under its name.
#[derive(Clone, Copy, Debug, PartialEq, Eq)]
pub enum CommandCode {
    NvIncrement = 0x134,
    NvWrite = 0x137,
    PolicyNv = 0x149,
    Duplicate = 0x14b,
    NvRead = 0x14e,
    PolicySecret = 0x151,
    Hmac = 0x155,
    Unseal = 0x15e,
    PolicySigned = 0x160,
    ContextLoad = 0x161,
    ContextSave = 0x162,
    FlushContext = 0x165,
    PolicyAuthorize = 0x16a,
    PolicyAuthValue = 0x16b,
    PolicyCommandCode = 0x16c,
    PolicyCounterTimer = 0x16d,
    PolicyCpHash = 0x16e,
    PolicyLocality = 0x16f,
    PolicyNameHash = 0x170,
    PolicyOr = 0x171,
    PolicyTicket = 0x172,
    StartAuthSession = 0x176,
    VerifySignature = 0x177,
    PcrRead = 0x17e,
    PolicyPcr = 0x17f,
    PolicyRestart = 0x180,
    PcrExtend = 0x182,
    PolicyPhysicalPresence = 0x187,
    PolicyDuplicationSelect = 0x188,
    PolicyGetDigest = 0x189,
    PolicyPassword = 0x18c,
    PolicyNvWritten = 0x18f,
    PolicyAuthorizeNv = 0x192,
}

impl CommandCode {
    /// The command's code.
    pub fn number(self) -> u32
        ensures { result ≡ number_of_code self }
    {
        self as u32
    }

    /// The command with this code; `None` where the machine carries out no such command.
    #[tactic(auto, unfolding(crate::specs::CommandCode::code_of_number))]
    pub fn from_number(number: u32) -> Option<CommandCode>
        ensures { result ≡ code_of_number number }
    {
        match number {
            0x134 => Some(CommandCode::NvIncrement),
            0x137 => Some(CommandCode::NvWrite),
            0x149 => Some(CommandCode::PolicyNv),
            0x14b => Some(CommandCode::Duplicate),
            0x14e => Some(CommandCode::NvRead),
            0x151 => Some(CommandCode::PolicySecret),
            0x155 => Some(CommandCode::Hmac),
            0x15e => Some(CommandCode::Unseal),
            0x160 => Some(CommandCode::PolicySigned),
            0x161 => Some(CommandCode::ContextLoad),
            0x162 => Some(CommandCode::ContextSave),
            0x165 => Some(CommandCode::FlushContext),
            0x16a => Some(CommandCode::PolicyAuthorize),
            0x16b => Some(CommandCode::PolicyAuthValue),
            0x16c => Some(CommandCode::PolicyCommandCode),
            0x16d => Some(CommandCode::PolicyCounterTimer),
            0x16e => Some(CommandCode::PolicyCpHash),
            0x16f => Some(CommandCode::PolicyLocality),
            0x170 => Some(CommandCode::PolicyNameHash),
            0x171 => Some(CommandCode::PolicyOr),
            0x172 => Some(CommandCode::PolicyTicket),
            0x176 => Some(CommandCode::StartAuthSession),
            0x177 => Some(CommandCode::VerifySignature),
            0x17e => Some(CommandCode::PcrRead),
            0x17f => Some(CommandCode::PolicyPcr),
            0x180 => Some(CommandCode::PolicyRestart),
            0x182 => Some(CommandCode::PcrExtend),
            0x187 => Some(CommandCode::PolicyPhysicalPresence),
            0x188 => Some(CommandCode::PolicyDuplicationSelect),
            0x189 => Some(CommandCode::PolicyGetDigest),
            0x18c => Some(CommandCode::PolicyPassword),
            0x18f => Some(CommandCode::PolicyNvWritten),
            0x192 => Some(CommandCode::PolicyAuthorizeNv),
            _ => None,
        }
    }
}

/// The names of commands with their codes, as documents use them: 30 of the machine's commands, and further
/// ones that a policy may name.
pub fn command_codes() -> &'static [(&'static str, u32)]
    ensures { map (λ word. (word.0.now, word.1)) result.now ≡ command_codes }
{
    &[
        ("StartAuthSession", 0x176),
        ("FlushContext", 0x165),
        ("PolicyRestart", 0x180),
        ("PolicyGetDigest", 0x189),
        ("PCR_Extend", 0x182),
        ("PCR_Read", 0x17e),
        ("VerifySignature", 0x177),
        ("Unseal", 0x15e),
        ("HMAC", 0x155),
        ("NV_Read", 0x14e),
        ("NV_Write", 0x137),
        ("NV_Increment", 0x134),
        ("Duplicate", 0x14b),
        ("PolicyNV", 0x149),
        ("PolicyCpHash", 0x16e),
        ("PolicyNameHash", 0x170),
        ("PolicyAuthValue", 0x16b),
        ("PolicyPassword", 0x18c),
        ("PolicyPhysicalPresence", 0x187),
        ("PolicyCommandCode", 0x16c),
        ("PolicyCounterTimer", 0x16d),
        ("PolicyLocality", 0x16f),
        ("PolicyPCR", 0x17f),
        ("PolicyDuplicationSelect", 0x188),
        ("PolicyNvWritten", 0x18f),
        ("PolicySigned", 0x160),
        ("PolicySecret", 0x151),
        ("PolicyAuthorize", 0x16a),
        ("PolicyOR", 0x171),
        ("PolicyAuthorizeNV", 0x192),
        ("Sign", 0x15d),
        ("RSA_Decrypt", 0x159),
        ("Certify", 0x148),
        ("Quote", 0x158),
        ("ActivateCredential", 0x147),
        ("ObjectChangeAuth", 0x150),
        ("Create", 0x153),
        ("Load", 0x157),
        ("Import", 0x156),
        ("NV_Extend", 0x136),
        ("NV_SetBits", 0x135),
        ("NV_ChangeAuth", 0x13b),
        ("NV_UndefineSpaceSpecial", 0x11f),
    ]
}

/// The name of the command with this code; `None` where documents have no name for it.
pub fn command_name(code: u32) -> Option<&'static str>
    ensures { option_map (λ name. name.now) result ≡ command_name code }
{
    find_name(command_codes(), code)
}

// The first of these words with this number.
#[tactic(auto, unfolding(crate::specs::CommandCode::find_name))]
fn find_name<'a>(words: &[(&'a str, u32)], code: u32) -> Option<&'a str>
    ensures { option_map (λ name. name.now) result
        ≡ find_name (map (λ word. (word.0.now, word.1)) words.now) code }
{
    for (word, number) in words {
        if *number == code {
            return Some(*word);
        }
    }
    None
}
