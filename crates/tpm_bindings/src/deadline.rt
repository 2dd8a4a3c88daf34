ghost use Rattle.std.specs.Prelude.{◌≡◌};
ghost use Rattle.tpm_bindings.specs.Facts as spec;

/// Whether the time is at most the deadline, if there is one; both are in milliseconds.
pub fn is_before(time: u64, deadline: Option<u64>) -> bool
    ensures before { result ≡ spec.is_before time deadline }
{
    match deadline {
        None => true,
        Some(deadline) => time <= deadline,
    }
}
