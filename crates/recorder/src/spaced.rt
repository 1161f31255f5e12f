//! What stands between the values of a JSON text: white space, brackets, commas and colons.

ghost use Rattle.std.specs.Prelude.{◌≡◌, ◌∷◌, [], IsTrue, true, false};
ghost use Rattle.json.specs.Word.{is_space, ends_word};
ghost use Rattle.json.specs.Lex.{lex, between, begins_colon};
ghost use Rattle.recorder.specs.ByTokens.{later_tokens};

use texts::Cursor;

fn is_space(byte: u8) -> bool
    ensures { result ≡ is_space byte }
{
    byte == b' ' || byte == b'\t' || byte == b'\n' || byte == b'\r'
}

/// Passes over white space.
pub(crate) fn skip_space(rest: &mut Cursor<'_>)
    ensures { lex between rest.new ≡ lex between rest.old }
{
    'spaces: loop {
        let bytes = rest.rest();
        if bytes.is_empty() || !is_space(bytes[0]) {
            return;
        }
        *rest = Cursor::new(&bytes[1..]);
    }
}

/// Takes the byte that stands next, if it is this one.
fn take_byte(rest: &mut Cursor<'_>, byte: u8) -> bool
    ensures found { IsTrue result → rest.old ≡ byte ∷ rest.new }
    ensures kept { result ≡ false → rest.new ≡ rest.old }
{
    let bytes = rest.rest();
    if bytes.is_empty() || bytes[0] != byte {
        return false;
    }
    *rest = Cursor::new(&bytes[1..]);
    true
}

/// Passes over one space, if one stands next.
pub(crate) fn skip_one(rest: &mut Cursor<'_>)
    ensures { lex between rest.new ≡ lex between rest.old }
{
    if take_byte(rest, b' ') {
        return;
    }
}

/// Takes the byte that stands next after white space, if it is this sign; else white space alone.
pub(crate) fn take_sign(rest: &mut Cursor<'_>, sign: u8) -> bool
    ensures found { IsTrue result → lex between rest.old ≡ lex between (sign ∷ rest.new) }
    ensures kept { result ≡ false → lex between rest.new ≡ lex between rest.old }
{
    if take_byte(rest, sign) {
        return true;
    }
    skip_space(rest);
    take_byte(rest, sign)
}

/// Whether a number or a word may end here: before a comma, a bracket or a brace that closes, white space, or the end.
pub(crate) fn ends_word(rest: &Cursor<'_>) -> bool
    ensures { IsTrue result → ends_word rest.now ≡ true }
{
    let bytes = rest.rest();
    if bytes.is_empty() {
        return true;
    }
    let next = bytes[0];
    next == b',' || next == b']' || next == b'}' || is_space(next)
}

/// Passes over white space, and says whether a comma or a brace that closes stands next.
pub(crate) fn ends_member(rest: &mut Cursor<'_>) -> bool
    ensures same { lex between rest.new ≡ lex between rest.old }
    ensures ends { IsTrue result → begins_colon (lex between rest.new) ≡ false }
{
    skip_space(rest);
    let bytes = rest.rest();
    if bytes.is_empty() {
        return false;
    }
    let next = bytes[0];
    next == b',' || next == b'}'
}

/// Passes over white space, and says whether the text is over.
pub(crate) fn is_over(rest: &mut Cursor<'_>) -> bool
    ensures { IsTrue result → later_tokens rest.old ≡ [] }
{
    skip_space(rest);
    rest.is_empty()
}
