//! Paths of the key store.

ghost use Rattle.std.specs.Prelude.{◌≡◌, ◌==◌, position};
ghost use Rattle.std.specs.List.{after_first};
ghost use Rattle.tpol_name.specs.Paths.{is_same_path, path_key};

/// Whether two paths name one entity: they are equal after one `/` in front and then a first component
/// that begins with `P_` (the name of a profile) are taken away from each. Case counts.
pub fn same_path(a: &str, b: &str) -> bool
    ensures same { result ≡ is_same_path a.now b.now }
{
    key_of_path(a) == key_of_path(b)
}

// What a path is compared by.
fn key_of_path(path: &str) -> &[u8]
    ensures { result.now ≡ path_key path.now }
{
    let path = path.as_bytes();
    let path = path.strip_prefix(b"/").unwrap_or(path);
    if path.starts_with(b"P_") {
        after_component(path)
    } else {
        path
    }
}

// What stands behind the first slash, or nothing where there is none.
fn after_component(path: &[u8]) -> &[u8]
    ensures { result.now ≡ after_first (λ c. c == 47) path.now }
{
    match first_slash(path) {
        Some(slash) => &path[slash + 1..],
        None => &[],
    }
}

fn first_slash(path: &[u8]) -> Option<usize>
    ensures { result ≡ position (λ c. c == 47) path.now }
{
    path.iter().position(|byte| *byte == b'/')
}
