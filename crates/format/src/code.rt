// The contents of a leaf from their code.
ghost use Rattle.std.specs.Prelude.{◌≡◌};
ghost use Rattle.std.specs.Int.{w16, w32};
ghost use Rattle.format.specs.Code as Code;

use crate::contents::BspLeafContents;

// The contents of a code: 1 to 6 and 9 to 14. (No `TryFrom`: a clip node, a leaf and a row have the code in three forms, and each call says which.)
#[tactic(auto, unfolding(crate::specs::Code::contents_of))]
pub fn contents_of(code: u32) -> Option<BspLeafContents>
    ensures { result ≡ Code.contents_of code }
{
    match code {
        1 => Some(BspLeafContents::Empty),
        2 => Some(BspLeafContents::Solid),
        3 => Some(BspLeafContents::Water),
        4 => Some(BspLeafContents::Slime),
        5 => Some(BspLeafContents::Lava),
        6 => Some(BspLeafContents::Sky),
        9 => Some(BspLeafContents::Current0),
        10 => Some(BspLeafContents::Current90),
        11 => Some(BspLeafContents::Current180),
        12 => Some(BspLeafContents::Current270),
        13 => Some(BspLeafContents::CurrentUp),
        14 => Some(BspLeafContents::CurrentDown),
        _ => None,
    }
}

// The contents of the code -x, `BspLeafContents::from_i32(-x)`.
pub fn contents_of_negated_i32(x: i32) -> Option<BspLeafContents>
    ensures { result ≡ Code.negated_contents w32 x }
{
    if x < 0 {
        return contents_of(x.unsigned_abs());
    }
    None
}

// The contents of the code -x, `BspLeafContents::from_i16(-x)`.
pub fn contents_of_negated_i16(x: i16) -> Option<BspLeafContents>
    ensures { result ≡ Code.negated_contents w16 x }
{
    contents_of_negated_i32(x as i32)
}
