//! JSON texts.

ghost use Rattle.std.specs.Prelude.{◌≡◌, ◌≤◌, Some, None, Err, IfOk};
ghost use Rattle.serde_json.specs.Data.{depth};
ghost use Rattle.serde_json.specs.Read.{max_depth};
ghost use Rattle.serde_json.specs.View.{view};
ghost use Rattle.tpol_json.specs.Document.{document_of};

use serde_json::Value;
use std::alloc::Global;
use thiserror::Error;

/// Why bytes are not read as a JSON document.
#[derive(Clone, Copy, Debug, PartialEq, Eq, Error)]
pub enum ParseFault {
    /// The bytes are no UTF-8, or the text is no JSON (RFC 8259) or one that `parse` does not take, as one that is
    /// nested past 127.
    #[error("the document is no JSON text")]
    NotJson,
    /// Memory ran out.
    #[error("out of memory")]
    NoMemory,
}

/// Reads a JSON document. Of a repeated member the last value counts. `NotJson` comes where the bytes are not the
/// UTF-8 of a JSON text that `serde_json` reads, and only there: a byte-order mark, a lone surrogate, a number too
/// large for a float and lists or objects nested past 127 are refused. `NoMemory` may come in place of any answer.
pub fn parse(alloc: Global, bytes: &[u8]) -> Result<Value, ParseFault>
    ensures value { IfOk result (λ v. document_of bytes.now ≡ Some (view v)) }
    ensures nests { IfOk result (λ v. depth (view v) ≤ max_depth) }
    ensures refused { result ≡ Err ParseFault.NotJson → document_of bytes.now ≡ None }
{
    match Value::from_slice(alloc, bytes) {
        Ok(value) => Ok(value),
        Err(error) => {
            if error.is_memory() {
                Err(ParseFault::NoMemory)
            } else {
                Err(ParseFault::NotJson)
            }
        }
    }
}
