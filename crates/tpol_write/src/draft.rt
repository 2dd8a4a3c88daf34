//! Canonical text while it is written.

ghost use Rattle.std.specs.Prelude.{◌≡◌, ◌∷◌, [], OnOk};
ghost use Rattle.std.specs.Str.{IsUtf8};
ghost use Rattle.json.specs.Lex.{tokens};
ghost use Rattle.json.specs.Print.{print};
ghost use Rattle.json.specs.Token.{begin_object, end_object, begin_array, end_array, key, string, boolean};
ghost use Rattle.tpol_write.specs.Drafts.{Adds, Reads, tokens_of};
ghost use Rattle.tpol_write.specs.Objects.{hex_text, integer, natural};

use json::Writer;
use std::alloc::Global;
use std::marker::Model;
use tpol_base::{Blob, NoMemory};

/// A JSON text without spaces that is being written; contracts see its tokens.
#[derive(Drop)]
pub struct Draft {
    writer: Writer,
}

impl Model for Draft {
    ghost use Rattle.std.specs.Prelude.{◌≡◌, [], List};
    ghost use Rattle.json.specs.Token.{Token, tokens_code};

    ghost Value = { List Token };

    ghost coded = { tokens_code };

    ghost view = { λ draft. draft.writer.tokens };

    ghost invariant = { λ draft. draft.writer.before ≡ [] };
}

impl Draft {
    /// A text of which nothing is written, in this memory. What it holds is lost.
    pub fn new(mut room: Vec<u8>) -> Draft
        ensures { result ≡ [] }
    {
        room.clear();
        Draft {
            writer: Writer::new(room),
        }
    }

    /// The text.
    pub fn into_blob(self) -> Blob
        ensures text { result ≡ print self }
        ensures reads { tokens (print self) ≡ self }
        ensures utf8 { IsUtf8 (print self) }
    {
        let Draft { writer } = self;
        Blob::from_vec(writer.into_inner())
    }

    /// Begins an object.
    pub fn begin_object(&mut self) -> Result<(), NoMemory>
        ensures { OnOk result (Adds self.old self.new (begin_object ∷ [])) }
    {
        Ok(self.writer.begin_object()?)
    }

    /// Ends an object.
    pub fn end_object(&mut self) -> Result<(), NoMemory>
        ensures { OnOk result (Adds self.old self.new (end_object ∷ [])) }
    {
        Ok(self.writer.end_object()?)
    }

    /// Begins a list.
    pub fn begin_list(&mut self) -> Result<(), NoMemory>
        ensures { OnOk result (Adds self.old self.new (begin_array ∷ [])) }
    {
        Ok(self.writer.begin_array()?)
    }

    /// Ends a list.
    pub fn end_list(&mut self) -> Result<(), NoMemory>
        ensures { OnOk result (Adds self.old self.new (end_array ∷ [])) }
    {
        Ok(self.writer.end_array()?)
    }

    /// Writes a member's name.
    pub fn name(&mut self, name: &str) -> Result<(), NoMemory>
        ensures { OnOk result (Adds self.old self.new (key name.now ∷ [])) }
    {
        Ok(self.writer.key(name)?)
    }

    /// Writes a text.
    pub fn text(&mut self, text: &str) -> Result<(), NoMemory>
        ensures { OnOk result (Adds self.old self.new (string text.now ∷ [])) }
    {
        Ok(self.writer.string(text)?)
    }

    /// Writes the hexadecimal text of bytes.
    pub fn hex(&mut self, alloc: Global, bytes: &[u8]) -> Result<(), NoMemory>
        ensures { OnOk result (Adds self.old self.new (tokens_of (hex_text bytes.now))) }
    {
        let digits = hex::encode(alloc, bytes)?;
        self.text(digits.as_str())
    }

    /// Writes a truth value.
    pub fn truth(&mut self, truth: bool) -> Result<(), NoMemory>
        ensures { OnOk result (Adds self.old self.new (boolean truth ∷ [])) }
    {
        Ok(self.writer.boolean(truth)?)
    }

    /// Writes a number.
    pub fn natural(&mut self, number: u32) -> Result<(), NoMemory>
        ensures tokens { OnOk result (Adds self.old self.new (tokens_of (natural number))) }
        ensures reads { OnOk result (Reads (natural number)) }
    {
        Ok(self.writer.u64(u64::from(number))?)
    }

    /// Writes a number with a sign.
    pub fn integer(&mut self, number: i32) -> Result<(), NoMemory>
        ensures tokens { OnOk result (Adds self.old self.new (tokens_of (integer number))) }
        ensures reads { OnOk result (Reads (integer number)) }
    {
        Ok(self.writer.i64(i64::from(number))?)
    }
}
