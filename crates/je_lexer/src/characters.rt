//! The code points of characters that the lexical grammar names.

/// Backspace.
pub const BACKSPACE: u32 = '\u{8}' as u32;
/// Horizontal tab.
pub const TAB: u32 = '\t' as u32;
/// LF, which ends a line.
pub const LINE_FEED: u32 = '\n' as u32;
/// Form feed.
pub const FORM_FEED: u32 = '\u{c}' as u32;
/// CR, which ends a line.
pub const CARRIAGE_RETURN: u32 = '\r' as u32;
/// Space.
pub const SPACE: u32 = ' ' as u32;
/// The quote of string literals.
pub const DOUBLE_QUOTE: u32 = '"' as u32;
/// The quote of character literals.
pub const SINGLE_QUOTE: u32 = '\'' as u32;
/// `*`.
pub const STAR: u32 = '*' as u32;
/// `+`.
pub const PLUS: u32 = '+' as u32;
/// `-`.
pub const MINUS: u32 = '-' as u32;
/// `.`.
pub const POINT: u32 = '.' as u32;
/// `/`.
pub const SLASH: u32 = '/' as u32;
/// The first digit.
pub const DIGIT_0: u32 = '0' as u32;
/// The last octal digit.
pub const DIGIT_7: u32 = '7' as u32;
/// A suffix of long literals.
pub const UPPER_L: u32 = 'L' as u32;
/// The mark of a hexadecimal exponent.
pub const UPPER_P: u32 = 'P' as u32;
/// The mark of hexadecimal literals, behind `0`.
pub const UPPER_X: u32 = 'X' as u32;
/// The mark of escapes.
pub const BACKSLASH: u32 = '\\' as u32;
/// The escape of backspace.
pub const LOWER_B: u32 = 'b' as u32;
/// The escape of form feed.
pub const LOWER_F: u32 = 'f' as u32;
/// A suffix of long literals.
pub const LOWER_L: u32 = 'l' as u32;
/// The escape of LF.
pub const LOWER_N: u32 = 'n' as u32;
/// The mark of a hexadecimal exponent.
pub const LOWER_P: u32 = 'p' as u32;
/// The escape of CR.
pub const LOWER_R: u32 = 'r' as u32;
/// The escape of a tab.
pub const LOWER_T: u32 = 't' as u32;
/// The mark of hexadecimal literals, behind `0`.
pub const LOWER_X: u32 = 'x' as u32;
