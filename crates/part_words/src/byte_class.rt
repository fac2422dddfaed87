//! What a byte of a text is to the scans, by one look into a table.

ghost use Rattle.std.specs.Prelude.{◌≡◌};
ghost use Rattle.part_words.specs.ByteClasses.{IsOf, is_name_class, is_trivia_class, is_letter_class, is_line_class, is_comment_class, is_alone_class, is_end_class};

use crate::byte_class::ByteClass::*;

/// What the bytes of characters begin, or are part of.
#[derive(Clone, Copy)]
pub enum ByteClass {
    /// An ASCII letter, `$` or `_`: a name may begin with it.
    Letter,
    /// An ASCII digit: a number may begin with it, and it may stand in a name.
    Digit,
    /// A backslash.
    Backslash,
    /// A quote of a string.
    Quote,
    /// A backquote.
    Backquote,
    /// The character `#`.
    Hash,
    /// A dot.
    Dot,
    /// What is a punctuator and begins no longer one.
    Alone,
    /// Any other ASCII character.
    Sign,
    /// A space or a tab.
    Blank,
    /// Any other control character of ASCII.
    Control,
    /// `<` or `-`: an HTML-like comment may begin with it.
    Angle,
    /// An asterisk.
    Star,
    /// A slash.
    Solidus,
    /// LF or CR.
    LineEnd,
    /// A byte of a character above ASCII.
    High,
}

static CLASSES: [ByteClass; 256] = [
    Control, Control, Control, Control, Control, Control, Control, Control, Control, Blank,
    LineEnd, Control, Control, LineEnd, Control, Control, Control, Control, Control, Control,
    Control, Control, Control, Control, Control, Control, Control, Control, Control, Control,
    Control, Control, Blank, Sign, Quote, Hash, Letter, Sign, Sign, Quote, Alone, Alone, Star,
    Sign, Alone, Angle, Dot, Solidus, Digit, Digit, Digit, Digit, Digit, Digit, Digit, Digit,
    Digit, Digit, Alone, Alone, Angle, Sign, Sign, Sign, Sign, Letter, Letter, Letter, Letter,
    Letter, Letter, Letter, Letter, Letter, Letter, Letter, Letter, Letter, Letter, Letter, Letter,
    Letter, Letter, Letter, Letter, Letter, Letter, Letter, Letter, Letter, Letter, Alone,
    Backslash, Alone, Sign, Letter, Backquote, Letter, Letter, Letter, Letter, Letter, Letter,
    Letter, Letter, Letter, Letter, Letter, Letter, Letter, Letter, Letter, Letter, Letter, Letter,
    Letter, Letter, Letter, Letter, Letter, Letter, Letter, Letter, Alone, Sign, Alone, Sign,
    Control, High, High, High, High, High, High, High, High, High, High, High, High, High, High,
    High, High, High, High, High, High, High, High, High, High, High, High, High, High, High, High,
    High, High, High, High, High, High, High, High, High, High, High, High, High, High, High, High,
    High, High, High, High, High, High, High, High, High, High, High, High, High, High, High, High,
    High, High, High, High, High, High, High, High, High, High, High, High, High, High, High, High,
    High, High, High, High, High, High, High, High, High, High, High, High, High, High, High, High,
    High, High, High, High, High, High, High, High, High, High, High, High, High, High, High, High,
    High, High, High, High, High, High, High, High, High, High, High, High, High, High, High, High,
    High, High,
];

/// What a byte is.
#[inline]
pub fn class_of(byte: u8) -> ByteClass
    ensures { IsOf byte result }
{
    CLASSES[byte as usize]
}

impl ByteClass {
    /// Whether such a byte is an ASCII character with which a name may begin.
    #[inline]
    pub fn is_letter(self) -> bool
        ensures { result ≡ is_letter_class self }
    {
        matches!(self, ByteClass::Letter)
    }

    /// Whether such a byte is an ASCII character that may stand in a name.
    #[inline]
    pub(crate) fn is_in_name(self) -> bool
        ensures { result ≡ is_name_class self }
    {
        matches!(self, ByteClass::Letter | ByteClass::Digit)
    }

    /// Whether trivia may begin with such a byte.
    #[inline]
    pub fn may_begin_trivia(self) -> bool
        ensures { result ≡ is_trivia_class self }
    {
        matches!(
            self,
            ByteClass::Blank
                | ByteClass::Control
                | ByteClass::Angle
                | ByteClass::Solidus
                | ByteClass::LineEnd
                | ByteClass::High
        )
    }

    /// Whether such a byte is a punctuator that begins no longer one.
    #[inline]
    pub fn is_alone(self) -> bool
        ensures { result ≡ is_alone_class self }
    {
        matches!(self, ByteClass::Alone)
    }

    /// Whether each punctuator of one character ends before such a byte.
    #[inline]
    pub fn ends_sign(self) -> bool
        ensures { result ≡ is_end_class self }
    {
        matches!(
            self,
            ByteClass::Letter
                | ByteClass::Backslash
                | ByteClass::Quote
                | ByteClass::Backquote
                | ByteClass::Hash
                | ByteClass::Alone
                | ByteClass::Blank
                | ByteClass::Control
                | ByteClass::LineEnd
        )
    }

    /// Whether a line terminator may begin with such a byte.
    #[inline]
    pub fn may_end_line(self) -> bool
        ensures { result ≡ is_line_class self }
    {
        matches!(self, ByteClass::LineEnd | ByteClass::High)
    }

    /// Whether such a byte may tell something of a block comment that it stands in.
    #[inline]
    pub fn may_end_comment(self) -> bool
        ensures { result ≡ is_comment_class self }
    {
        matches!(
            self,
            ByteClass::Star | ByteClass::Solidus | ByteClass::LineEnd | ByteClass::High
        )
    }
}
