//! Which token stands first in a text, and where a text is refused in which none can be read.
ghost use Rattle.rows.specs.Texts.Tokens.{TokenRows, ByteRows, LongRows};

/// Each token, where it begins and where it ends.
pub fn token_rows()
    ensures { TokenRows }
{}

/// The first byte that fits no token.
pub fn byte_rows()
    ensures { ByteRows }
{}

/// Names and numbers up to their lengths, and those that are too long.
pub fn long_rows()
    ensures { LongRows }
{}
