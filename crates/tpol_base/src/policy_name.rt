//! Names of policies.

ghost use Rattle.std.specs.Prelude.{◌≡◌};
ghost use Rattle.std.specs.List.{list_all};
ghost use Rattle.tpol_base.specs.PolicyName.{is_policy_name, is_name_byte, without_folder};

/// Whether a text is the name of a policy or of a scene: 1 to 64 characters of `A-Z a-z 0-9 _ - .`, the
/// first not a `.`.
pub fn is_policy_name(name: &str) -> bool
    ensures { result ≡ is_policy_name name.now }
{
    let bytes = name.as_bytes();
    match bytes {
        [] | [b'.', ..] => false,
        _ => bytes.len() <= 64 && has_name_bytes(bytes),
    }
}

/// A name without `/policy/` in front, which may stand there (FAPI's folder of policies).
pub fn without_folder(name: &str) -> &str
    ensures { result.now ≡ without_folder name.now }
{
    name.strip_prefix("/policy/").unwrap_or(name)
}

fn has_name_bytes(bytes: &[u8]) -> bool
    ensures { result ≡ list_all is_name_byte bytes.now }
{
    bytes.iter().all(|byte| is_name_byte(*byte))
}

fn is_name_byte(byte: u8) -> bool
    ensures { result ≡ is_name_byte byte }
{
    byte.is_ascii_alphanumeric() || byte == b'_' || byte == b'-' || byte == b'.'
}
