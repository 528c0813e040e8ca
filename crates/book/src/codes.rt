// The codes of a line's program, by the names of specs/Program.antt. A letter and a name are their own codes.
// Stays: as bytes, since a program lies in a lent buffer of bytes, with letters and names among its codes.
pub const ALL_CODE: u8 = 1;

pub const MARK_CODE: u8 = 2;

pub const PATTERN_CODE: u8 = 3;

pub const RIGHT_CODE: u8 = 4;

pub const STORE_PATTERN_CODE: u8 = 5;

pub const STORE_RIGHT_CODE: u8 = 6;

pub const ERASE_CODE: u8 = 7;

pub const MEET_CODE: u8 = 8;

pub const COMPLEMENT_CODE: u8 = b'!';

pub const BOTH_CODE: u8 = b'&';

pub const STAR_CODE: u8 = b'*';

pub const PLUS_CODE: u8 = b'+';

pub const WITHOUT_CODE: u8 = b'-';

pub const DOT_CODE: u8 = b'.';

pub const JOIN_CODE: u8 = b';';

pub const OPTION_CODE: u8 = b'?';

pub const EMPTY_CODE: u8 = b'@';

pub const EITHER_CODE: u8 = b'|';
