// The bytes that lines are made of; `space` and the others of specs/Characters.antt are the same for contracts.
#![tactic(auto)]

pub const SPACE: u8 = b' ';

pub const NEWLINE: u8 = b'\n';

pub const DASH: u8 = b'-';

pub const COLON: u8 = b':';

pub const FIRST_DIGIT: u8 = b'0';

pub const LAST_DIGIT: u8 = b'9';
