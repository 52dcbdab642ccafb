// The tags of fields.
ghost use Rattle.std.specs.Prelude.{◌≡◌};
ghost use Rattle.fields.specs.Tags.{Named, length_of};

use checks::Reason;

// What a field asks for.
#[derive(Clone, Copy, PartialEq, Eq, Debug)]
pub enum Tag {
    Place,
    Lift,
    Shift,
    Undo,
}

impl Tag {
    // The length of the body that belongs to it.
    pub fn size(self) -> usize
        ensures { result ≡ length_of self }
    {
        match self {
            Tag::Place => 38,
            Tag::Lift => 1,
            Tag::Shift => 13,
            Tag::Undo => 0,
        }
    }
}

impl TryFrom<u8> for Tag {
    type Error = Reason;

    ghost try_from_gives = { Named };

    fn try_from(number: u8) -> Result<Tag, Reason> {
        match number {
            1 => Ok(Tag::Place),
            2 => Ok(Tag::Lift),
            3 => Ok(Tag::Shift),
            4 => Ok(Tag::Undo),
            _ => Err(Reason::UnknownField),
        }
    }
}
