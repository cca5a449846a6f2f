//! The numbers that limit a configuration, and what a size is where no line gives it.

/// The most bytes of a text.
pub const MAX_TEXT: usize = 1048576;

/// The most rules of one direction.
pub const MAX_RULES: u32 = 1024;

/// The most tests of all conditions together.
pub const MAX_TESTS: u64 = 65536;

/// The most filters of one direction.
pub const MAX_FILTERS: u32 = 8;

/// The most bytes of a needle, and of what replaces one.
pub const MAX_NEEDLE: usize = 256;

/// The most bytes of an application's root, and of a file's name there.
pub const MAX_PATH: usize = 255;

/// The most digits of a port, and of a number of rules and filters.
pub const MAX_DIGITS: u32 = 18;

/// What a received head may take at least.
pub const MIN_HEAD: u32 = 512;

/// The most refused lines that are kept of a text.
pub const MAX_KEPT: u32 = 100;

/// The size of the buffer where no line gives it.
pub const DEFAULT_BUFSIZE: u32 = 16384;

/// The most that is left free of the buffer where no line says how much.
pub const DEFAULT_MAXREWRITE: u32 = 1024;
