//! Fields of a line.

ghost use Rattle.std.specs.Prelude.{◌≡◌, ◌<◌, ◌≤◌, [], ◌∷◌, length, map};
ghost use Rattle.std.specs.List.{flat_map};
ghost use Rattle.std.specs.Fmt.{decimal};
ghost use Rattle.transcript.specs.Text.{text, line_of, begun_with};
ghost use Rattle.transcript.specs.Fields.{field_of, spaced, IsShort};
ghost use Rattle.transcript.specs.declared.field.Field.TheVariants.{Number as NumberField};

/// A field of a line.
#[derive(Clone, Copy)]
pub(crate) enum Field {
    /// A word.
    Word(&'static [u8]),
    /// A number, in decimal.
    Number(u32),
}

// Writes a byte at the beginning of a buffer.
fn put_byte(buffer: &mut [u8], byte: u8) -> usize
    requires { 0 < length buffer.old }
    ensures text { buffer.new ≡ begun_with (byte ∷ []) buffer.old }
    ensures length { result ≡ 1 }
{
    buffer[0] = byte;
    1
}

// Writes a word at the beginning of a buffer, and answers its length.
fn put_word(buffer: &mut [u8], word: &[u8]) -> usize
    requires { length word.now ≤ length buffer.old }
    ensures text { buffer.new ≡ begun_with word.now buffer.old }
    ensures length { result ≡ length word.now }
{
    buffer[..word.len()].copy_from_slice(word);
    word.len()
}

// Writes a number at the beginning of a buffer, and answers how many digits it has.
#[tactic(auto, using(crate::proofs::Decimals::by_last_digit))]
fn put_number(buffer: &mut [u8], number: u32) -> usize
    requires { length (decimal number) ≤ length buffer.old }
    ensures text { buffer.new ≡ begun_with (decimal number) buffer.old }
    ensures length { result ≡ length (decimal number) }
{
    if number < 10 {
        return put_byte(buffer, b'0' + number as u8);
    }
    let at = put_number(buffer, number / 10);
    at + put_byte(&mut buffer[at..], b'0' + (number % 10) as u8)
}

impl Field {
    /// A number of at most three digits.
    #[tactic(auto, using(crate::proofs::Decimals::three_digits))]
    pub(crate) fn byte(number: u8) -> Field
        ensures is { result ≡ NumberField number }
        ensures short { IsShort result }
    {
        Field::Number(number as u32)
    }

    // Writes the field at the beginning of a buffer, and answers its length.
    fn put(self, buffer: &mut [u8]) -> usize
        requires { length (text (field_of self)) ≤ length buffer.old }
        ensures text { buffer.new ≡ begun_with (text (field_of self)) buffer.old }
        ensures length { result ≡ length (text (field_of self)) }
    {
        match self {
            Field::Word(word) => put_word(buffer, word),
            Field::Number(number) => put_number(buffer, number),
        }
    }
}

// Writes fields at the beginning of a buffer, with a space before each, and answers how long that is.
#[tactic(auto, using(crate::proofs::Spaced::by_fields))]
fn put_spaced(buffer: &mut [u8], fields: &[Field]) -> usize
    requires { length (flat_map spaced fields.now) ≤ length buffer.old }
    ensures text { buffer.new ≡ begun_with (flat_map spaced fields.now) buffer.old }
    ensures length { result ≡ length (flat_map spaced fields.now) }
{
    let mut at = 0;
    for field in fields {
        at += put_byte(&mut buffer[at..], b' ');
        at += field.put(&mut buffer[at..]);
    }
    at
}

/// Writes the line of some fields at the beginning of a buffer, and answers its length.
#[tactic(auto, using(crate::proofs::Spaced::by_parts))]
pub(crate) fn put_line(buffer: &mut [u8], fields: &[Field]) -> usize
    requires { length (line_of (map field_of fields.now)) ≤ length buffer.old }
    ensures text { buffer.new ≡ begun_with (line_of (map field_of fields.now)) buffer.old }
    ensures length { result ≡ length (line_of (map field_of fields.now)) }
{
    let [first, rest @ ..] = fields else {
        return put_byte(buffer, b'\n');
    };
    let mut at = first.put(buffer);
    at += put_spaced(&mut buffer[at..], rest);
    at + put_byte(&mut buffer[at..], b'\n')
}
