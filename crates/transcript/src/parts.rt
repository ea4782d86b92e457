// The seven parts of a transcript's file, lent. Nothing compares or prints them.

// Document 01, Transcript: the parts, each from its offset on.
#[derive(Clone, Copy)]
pub struct FileParts<'a> {
    pub p1: &'a [u8],
    pub p2: &'a [u8],
    pub p3: &'a [u8],
    pub p4: &'a [u8],
    pub p5: &'a [u8],
    pub p6: &'a [u8],
    pub p7: &'a [u8],
}
