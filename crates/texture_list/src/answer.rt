// What is answered of a texture by its number in the file, if it is there: the 16 bytes of its name, lowered, with zeros from the first zero on,
// as two numbers whose lowest byte comes first; its width and height.
#[derive(Clone, Copy)]
pub struct BspTexture {
    pub name_start: u64,
    pub name_end: u64,
    pub width: u32,
    pub height: u32,
}
