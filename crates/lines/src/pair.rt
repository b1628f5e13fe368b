// A key is picked by two fields of a record, a cipher and a key ID.
ghost use Rattle.text.specs.Walked.{left};
ghost use Rattle.lines.specs.Pairs.{IsPair};

use text::field::Fields;

// The most that a number of a record is.
pub const MOST_NUMBER: u32 = 255;

// Kept: numbers, which may be any that a line has: it is the operation that refuses them.
#[derive(Clone, Copy)]
pub struct Pair {
    pub cipher: u8,
    pub id: u8,
}

// The pair that the next two fields are; those after them are left where it is one.
pub fn next_pair(fields: &mut Fields) -> Option<Pair>
    ensures { IsPair (left fields.old) result (left fields.new) }
{
    let cipher = fields.number(MOST_NUMBER)?;
    let id = fields.number(MOST_NUMBER)?;
    Some(Pair {
        cipher: cipher as u8,
        id: id as u8,
    })
}
