// The phases of a member: numbers, since they are words of a table, and number 3 refuses a table that has any other one.

pub const IDLE: u32 = 0;

pub const SUBMIT_SENT: u32 = 1;

pub const REPLY_SENT: u32 = 2;

pub const COMMIT_SENT: u32 = 3;

pub const ACCEPTED_SENT: u32 = 4;

pub const ABORTED_SENT: u32 = 5;

pub const HALTED: u32 = 6;
