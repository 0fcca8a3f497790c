// "A name of spaces only (hex 20) is blank": of 8 bytes, and of 4. No `Option` stands for it: the blank lies so in records, tables and answers, and the
// definitions of the model speak of it as a name.
pub const BLANK: u64 = 0x2020202020202020;

pub const NONE: u32 = 0x20202020;
