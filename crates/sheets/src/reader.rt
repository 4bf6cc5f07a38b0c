// The reader of a sheet: its fields, one after the other.
ghost use Rattle.std.specs.Prelude.{◌≡◌, ◌<◌, ◌≤◌, IfSome, length, is_some, ◌==◌};
ghost use Rattle.std.specs.Iterator.{at_most};
ghost use Rattle.std.specs.Option.{option_map};

use crate::field::{Field, Kind, Part};
use crate::value::{is_choice, is_sought};

// What was read before, on which it depends which field may come next.
#[derive(Clone, Copy, PartialEq, Eq, Debug)]
pub(crate) enum Stage {
    Start,
    Chosen,
    Accounts,
    Labels,
}

impl Stage {
    ghost use Rattle.sheets.specs.Grammar.{next};

    // The stage that follows, if a field of this kind and value is allowed now.
    fn next(self, kind: Kind, value: &[u8]) -> Option<Stage>
        ensures { result ≡ next self kind value.now }
    {
        match (self, kind) {
            (Stage::Start, Kind::Directory) if is_choice(value) => Some(Stage::Chosen),
            // widths in bytes as the grammar states them: an account number has 4, a label 16
            (Stage::Chosen, Kind::Accounts) if value.len() % 4 == 0 => Some(Stage::Accounts),
            (Stage::Chosen, Kind::Labels) if value.len() % 16 == 0 => Some(Stage::Labels),
            (Stage::Accounts | Stage::Labels, Kind::Strike | Kind::Restore) if value.len() == 4 => {
                Some(self)
            }
            (Stage::Accounts, Kind::Place) if is_sought(value, 4) => Some(self),
            (Stage::Labels, Kind::Place) if is_sought(value, 16) => Some(self),
            _ => None,
        }
    }
}

// Of a sheet of `whole` bytes, `rest` is left.
#[derive(Clone, Copy, PartialEq, Eq, Debug)]
pub struct Reader<'a> {
    stage: Stage,
    whole: usize,
    rest: &'a [u8],
    ghost within: { length rest.now ≤ whole },
}

impl<'a> Reader<'a> {
    ghost use Rattle.sheets.specs.Fields.{told};
    ghost use Rattle.sheets.specs.Grammar.{state, opened, front, onward, ended, left};

    pub fn new(bytes: &'a [u8]) -> Reader<'a>
        ensures { state result ≡ opened bytes.now }
    {
        Reader {
            stage: Stage::Start,
            whole: bytes.len(),
            rest: bytes,
        }
    }

    // The next field, if there is one that is allowed here; else the reader stays where it is. (Never inlined: into `next`
    // it is compiled to half as many instructions again.)
    #[inline(never)]
    pub fn field(&mut self) -> Option<Field<'a>>
        ensures field { option_map told result ≡ front (state self.old) }
        ensures reader { state self.new ≡ onward (state self.old) }
        ensures less { IfSome result (λ _. length (state self.new).rest < length (state self.old).rest) }
    {
        let [tag, hi, lo, after @ ..] = self.rest else {
            return None;
        };
        let size = usize::from(u16::from_be_bytes([*hi, *lo]));
        if size > after.len() {
            return None;
        }
        let kind = Kind::of(char::from(*tag))?;
        let (value, rest) = after.split_at(size);
        self.stage = self.stage.next(kind, value)?;
        self.rest = rest;
        Some(Field::of(
            kind,
            Part {
                place: self.whole - after.len(),
                bytes: value,
            },
        ))
    }

    // Whether nothing is left.
    pub fn is_done(&self) -> bool
        ensures { result ≡ (length (state self.now).rest == 0) }
    {
        self.rest.is_empty()
    }

    // Whether a sheet may end here.
    pub fn may_end(&self) -> bool
        ensures { result ≡ is_some (ended (state self.now).stage) }
    {
        matches!(self.stage, Stage::Accounts | Stage::Labels)
    }

    // Whether what is left is fields to the end.
    pub fn is_well_formed(&self) -> bool
        ensures { result ≡ is_some (left (state self.now)) }
    {
        let mut ahead = *self;
        // a loop without a body: the reader is asked afterwards where it came to, and a chain would take it
        while ahead.next().is_some() {}
        ahead.is_done() && ahead.may_end()
    }
}

// It hands on fields until there is none that is allowed.
impl<'a> Iterator for Reader<'a> {
    ghost use Rattle.sheets.specs.Grammar.{state, Reads};

    type Item = Field<'a>;

    ghost next_gives = { Reads };

    ghost remaining = { λ reader. at_most (length (state reader).rest) };

    fn next(&mut self) -> Option<Field<'a>> {
        self.field()
    }
}
