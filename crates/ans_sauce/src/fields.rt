//! Where the fields are in a record, in bytes from its start (SAUCE 00.5, record layout).

/// How many bytes a record has.
pub const RECORD_SIZE: usize = 128;

/// The end of file character, between a content and its record.
pub const END_MARK: u8 = 0x1A;

pub const VERSION: usize = 5;

pub const TITLE: usize = 7;

pub const AUTHOR: usize = 42;

pub const GROUP: usize = 62;

pub const DATE: usize = 82;

pub const FILE_SIZE: usize = 90;

pub const DATA_TYPE: usize = 94;

pub const FILE_TYPE: usize = 95;

pub const TINFO_1: usize = 96;

pub const TINFO_2: usize = 98;

pub const COMMENT_COUNT: usize = 104;

pub const FLAGS: usize = 105;

pub const FONT: usize = 106;
