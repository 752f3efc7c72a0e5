// A drawing: its commands and the characters of its values and texts.
#[derive(Clone, Copy)]
pub struct Drawing<'a> {
    pub script: &'a [u8],
    pub characters: &'a [u8],
}
