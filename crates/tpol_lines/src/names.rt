// Names as JSON texts.

ghost use Rattle.std.specs.Prelude.{◌≡◌, ◌++◌, OnOk};
ghost use Rattle.std.specs.List.{list_all};
ghost use Rattle.json.specs.Print.{quoted};
ghost use Rattle.json.specs.Run.{is_plain};

use std::alloc::Global;
use tpol_base::NoMemory;
use tpol_json::push_quoted;

// Adds a name as a JSON text, with its quotation marks. Most have nothing to escape, and are added as they are.
pub fn push_name(alloc: Global, text: &mut Vec<u8>, name: &str) -> Result<(), NoMemory>
    ensures { OnOk result (text.new.items ≡ text.old.items ++ quoted name.now) }
{
    if !is_plain(name) {
        return push_quoted(alloc, text, name);
    }
    text.push(b'"')?;
    text.extend_from_slice(name.as_bytes())?;
    text.push(b'"')?;
    Ok(())
}

// Whether nothing in a name is escaped.
fn is_plain(name: &str) -> bool
    ensures { result ≡ list_all is_plain name.now }
{
    name.bytes().all(|c| !(c == b'"' || c == b'\\' || c < 0x20))
}
