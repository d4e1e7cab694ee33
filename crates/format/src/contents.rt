// The contents of a leaf.
ghost use Rattle.std.specs.Prelude.{◌≡◌};
ghost use Rattle.format.specs.Contents as Contents;

// The contents of a leaf in the BSP tree. Sky (6) is the specifications' (document 02, note 1); the Rust has no name for it. Origin and
// Collide (7, 8) are left out, as in the Rust.
#[derive(Clone, Copy, PartialEq, Eq)]
pub enum BspLeafContents {
    Empty = 1,
    Solid = 2,
    Water = 3,
    Slime = 4,
    Lava = 5,
    Sky = 6,
    Current0 = 9,
    Current90 = 10,
    Current180 = 11,
    Current270 = 12,
    CurrentUp = 13,
    CurrentDown = 14,
}

impl BspLeafContents {
    // The number of these contents in a file, where it stands negated: 1 to 6 and 9 to 14.
    pub fn code(self) -> u32
        ensures { result ≡ Contents.code_of self }
    {
        self as u32
    }
}
