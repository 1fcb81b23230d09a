// Paper 01's numbers by name, the limits, commands, documents and refusals, and those of paper 02's reasons (N9), operations (N8) and
// refusals.

#![tactic(auto)]

// No document is longer, in bytes.
pub const MAX_BYTES: usize = 60000;

// One more than that: where lengths are held.
pub const OVER_BYTES: usize = 60001;

// The most types of a table, members of a type, steps of a path, and levels of a tree.
pub const MAX_TYPES: usize = 64;

pub const MAX_MEMBERS: usize = 16;

pub const MAX_STEPS: usize = 12;

pub const MAX_LEVELS: usize = 128;

// The commands of a table.
pub const TEXT_TYPE: u8 = 0x10;

pub const EMPTY_TYPE: u8 = 0x11;

pub const SEQUENCE_TYPE: u8 = 0x12;

pub const CHOICE_TYPE: u8 = 0x13;

pub const LIST_TYPE: u8 = 0x14;

pub const MEMBER: u8 = 0x15;

pub const OPTIONAL_TYPE: u8 = 0x17;

pub const TABLE_END: u8 = 0x1F;

// The commands of an embedding.
pub const MAPS_TO: u8 = 0x20;

pub const PATH: u8 = 0x21;

pub const STEP: u8 = 0x22;

pub const EMBEDDING_END: u8 = 0x2F;

// The commands of a tree.
pub const OPENS: u8 = 0x30;

pub const CHARACTER: u8 = 0x31;

pub const CLOSES: u8 = 0x32;

pub const TREE_END: u8 = 0x3F;

// The operations of a document of operations: 51 n and n bytes, 52 t m.
pub const APPEND_TYPE: u8 = 0x51;

pub const APPEND_MEMBER: u8 = 0x52;

// Documents, as refusals number them.
pub const SOURCE_TABLE: u64 = 1;

pub const TARGET_TABLE: u64 = 2;

pub const EMBEDDING: u64 = 3;

pub const TREE: u64 = 4;

pub const OUTPUT: u64 = 5;

pub const OPERATIONS: u64 = 11;

// Refusals.
pub const TOO_LONG: u64 = 1;

pub const BAD_FORM: u64 = 2;

pub const OVER_LIMIT: u64 = 3;

pub const BAD_OPERAND: u64 = 4;

pub const REPEATED_MEMBER: u64 = 5;

pub const NO_FINITE_INSTANCE: u64 = 6;

pub const ROOT_MOVED: u64 = 7;

pub const WRONG_END: u64 = 8;

pub const WRONG_STEPS: u64 = 9;

pub const PATH_CLASH: u64 = 10;

pub const UNEXPECTED: u64 = 11;

pub const IMAGE_TOO_DEEP: u64 = 12;

pub const IMAGE_TOO_LONG: u64 = 13;

pub const OUTPUT_TOO_SHORT: u64 = 14;

pub const NO_IMAGE: u64 = 15;

pub const UNREADABLE: u64 = 17;

pub const NO_CHOICE: u64 = 19;

// The bytes of an element without what it holds: the command that opens it, its type, the command that closes it.
pub const ELEMENT_BYTES: usize = 3;

// The bytes of a tree document without what its root holds: those of the root, and the end.
pub const ROOT_BYTES: usize = 4;

// Reasons for which two paths clash.
pub const EQUAL_PATHS: u64 = 1;

pub const EARLIER_BEGINS: u64 = 2;

pub const LATER_BEGINS: u64 = 3;

pub const PART_AT_SEQUENCE: u64 = 4;
