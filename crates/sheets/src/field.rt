// The kinds of fields, and a field as a part of the sheet.
ghost use Rattle.std.specs.Prelude.{◌≡◌};
ghost use Rattle.sheets.specs.Fields.{kind, piece, told};

#[derive(Clone, Copy, PartialEq, Eq, Debug)]
pub enum Kind {
    Directory,
    Accounts,
    Labels,
    Strike,
    Restore,
    Place,
}

// Bytes of the sheet, and the place of the first.
#[derive(Clone, Copy, PartialEq, Eq, Debug)]
pub struct Part<'a> {
    pub place: usize,
    pub bytes: &'a [u8],
}

// A field, with its value.
#[derive(Clone, Copy, PartialEq, Eq, Debug)]
pub enum Field<'a> {
    Directory(Part<'a>),
    Accounts(Part<'a>),
    Labels(Part<'a>),
    Strike(Part<'a>),
    Restore(Part<'a>),
    Place(Part<'a>),
}

impl Kind {
    // The kind that a tag names. An Option says as much as a TryFrom: there is one way to fail.
    pub(crate) fn of(tag: char) -> Option<Kind>
        ensures { result ≡ kind tag }
    {
        match tag {
            'D' => Some(Kind::Directory),
            'K' => Some(Kind::Accounts),
            'T' => Some(Kind::Labels),
            'S' => Some(Kind::Strike),
            'R' => Some(Kind::Restore),
            'Q' => Some(Kind::Place),
            _ => None,
        }
    }
}

impl<'a> Field<'a> {
    // A case for each kind, since the cases of a field are what callers match: a From of the pair has the same arms.
    pub(crate) fn of(kind: Kind, part: Part<'a>) -> Field<'a>
        ensures { told result ≡ piece kind part.entry }
    {
        match kind {
            Kind::Directory => Field::Directory(part),
            Kind::Accounts => Field::Accounts(part),
            Kind::Labels => Field::Labels(part),
            Kind::Strike => Field::Strike(part),
            Kind::Restore => Field::Restore(part),
            Kind::Place => Field::Place(part),
        }
    }
}
