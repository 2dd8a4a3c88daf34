ghost use Rattle.std.specs.Prelude.{◌≡◌, ◌+◌, ◌∷◌, ◌++◌, [], codes, length, OnOk};
ghost use Rattle.json.specs.Print.{quoted};
ghost use Rattle.tpol_lines.specs.Lines.{line_of};
ghost use Rattle.tpol_lines.specs.Pen.{behind_separator, line_behind, written};

use crate::names::push_name;
use itoa::Buffer;
use std::alloc::Global;
use tpol_base::NoMemory;
use tpol_texts::Texts;

// What is written of a path that is whole.
#[derive(Clone, Copy)]
pub enum Form {
    // Its line.
    Line,
    // Its choices alone, with no line end.
    Label,
}

// Writes what is asked of paths, each when its path is whole. It holds the choices and the kinds of the policy
// commands so far.
#[derive(Drop)]
pub struct Pen {
    pub lines: Texts,
    // Each choice behind a `/`.
    pub choices: Vec<u8>,
    // Each kind behind a `,`.
    pub kinds: Vec<u8>,
}

impl Pen {
    // A pen that has written nothing.
    pub fn new(alloc: Global) -> Pen
        ensures lines { result.lines ≡ [] }
        ensures choices { result.choices.items ≡ [] }
        ensures kinds { result.kinds.items ≡ [] }
    {
        Pen {
            lines: Texts::new(alloc),
            choices: Vec::new(alloc),
            kinds: Vec::new(alloc),
        }
    }

    // Adds the choice of a name behind its mark.
    pub fn push_name(&mut self, alloc: Global, mark: &str, name: &str) -> Result<(), NoMemory>
        ensures choices { OnOk result (self.new.choices.items
            ≡ self.old.choices.items ++ (mark.now ++ quoted name.now)) }
        ensures lines { self.new.lines ≡ self.old.lines }
        ensures kinds { self.new.kinds ≡ self.old.kinds }
    {
        self.choices.extend_from_slice(mark.as_bytes())?;
        push_name(alloc, &mut self.choices, name)
    }

    // Adds the choice of an approval of a policy that no listed document has.
    pub fn push_outside(&mut self) -> Result<(), NoMemory>
        ensures choices { OnOk result
            (self.new.choices.items ≡ self.old.choices.items ++ codes "/@*") }
        ensures lines { self.new.lines ≡ self.old.lines }
        ensures kinds { self.new.kinds ≡ self.old.kinds }
    {
        self.choices.extend_from_slice(b"/@*")?;
        Ok(())
    }

    // Adds the kind of a policy command.
    pub fn push_kind(&mut self, kind: &str) -> Result<(), NoMemory>
        ensures kinds { OnOk result (self.new.kinds.items ≡ self.old.kinds.items ++ 44 ∷ kind.now) }
        ensures lines { self.new.lines ≡ self.old.lines }
        ensures choices { self.new.choices ≡ self.old.choices }
    {
        self.kinds.push(b',')?;
        self.kinds.extend_from_slice(kind.as_bytes())?;
        Ok(())
    }

    // Writes what is asked of the path that is whole.
    pub fn write(&mut self, form: Form) -> Result<(), NoMemory>
        ensures lines { OnOk result (self.new.lines ≡ self.old.lines
            ++ written form (length self.old.lines + 1) self.old.choices.items self.old.kinds.items
            ∷ []) }
        ensures choices { self.new.choices ≡ self.old.choices }
        ensures kinds { self.new.kinds ≡ self.old.kinds }
    {
        match form {
            Form::Line => self.write_line(),
            Form::Label => self.write_label(),
        }
    }

    // Writes the line of the path that is whole.
    fn write_line(&mut self) -> Result<(), NoMemory>
        ensures lines { OnOk result (self.new.lines ≡ self.old.lines
            ++ line_of (line_behind (length self.old.lines + 1) self.old.choices.items
            self.old.kinds.items) ∷ []) }
        ensures choices { self.new.choices ≡ self.old.choices }
        ensures kinds { self.new.kinds ≡ self.old.kinds }
    {
        let position = self.lines.len().checked_add(1).ok_or(NoMemory)?;
        let mut digits = Buffer::new();
        push_path(
            &mut self.lines,
            digits.format(position as u64).as_bytes(),
            behind_separator(self.choices.as_slice(), b"-"),
            behind_separator(self.kinds.as_slice(), b""),
        )
    }

    // Writes the choices of the path that is whole.
    fn write_label(&mut self) -> Result<(), NoMemory>
        ensures lines { OnOk result (self.new.lines ≡ self.old.lines
            ++ behind_separator self.old.choices.items (codes "-") ∷ []) }
        ensures choices { self.new.choices ≡ self.old.choices }
        ensures kinds { self.new.kinds ≡ self.old.kinds }
    {
        self.lines
            .push(behind_separator(self.choices.as_slice(), b"-"))
    }
}

// Adds the line of a path at this position, with these choices and kinds.
fn push_path<'a>(
    lines: &mut Texts,
    position: &'a [u8],
    choices: &'a [u8],
    kinds: &'a [u8],
) -> Result<(), NoMemory>
    ensures { OnOk result
        (lines.new ≡ lines.old ++ line_of (codes "path " ++ position.now ++ codes " "
        ++ choices.now ++ codes " " ++ kinds.now) ∷ []) }
{
    lines.push_pieces(&[b"path ", position, b" ", choices, b" ", kinds, b"\n"])
}

// The pieces without the separator in front of the first, or what stands for none.
fn behind_separator<'a>(pieces: &'a [u8], none: &'a [u8]) -> &'a [u8]
    ensures { result.now ≡ behind_separator pieces.now none.now }
{
    match pieces.split_first() {
        None => none,
        Some((_, rest)) => rest,
    }
}
