//! What stands before and behind a byte.

ghost use Rattle.std.specs.Prelude.{◌≡◌, ◌∷◌, IfSome, ◌<◌, length, position};
ghost use Rattle.std.specs.Option.{option_copied};
ghost use Rattle.pesp_stream.specs.Words.{is_byte, pieces, pieces_left};

/// The first place of the byte.
fn first_place(byte: u8, text: &[u8]) -> Option<usize>
    ensures { result ≡ position (is_byte byte) text.now }
{
    text.iter().position(|b| *b == byte)
}

/// What stands before the first such byte, and what stands behind it; None where there is no such byte.
pub fn split_at_byte(byte: u8, text: &[u8]) -> (&[u8], Option<&[u8]>)
    // The first piece between such bytes, and a text that has the others.
    ensures cut { pieces byte text.now ≡ result.0.now ∷ pieces_left byte (option_copied result.1) }
    ensures shorter { IfSome result.1 (λ rest. length rest.now < length text.now) }
{
    match first_place(byte, text) {
        None => (text, None),
        Some(at) => (&text[..at], Some(&text[at + 1..])),
    }
}
