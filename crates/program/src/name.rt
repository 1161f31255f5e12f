//! The names of addresses.

ghost use Rattle.std.specs.Prelude.{◌≡◌, ◌≤◌, IsTrue, IfOk, Some, true, false, length, position};
ghost use Rattle.program.specs.Names.{name_at, is_letter_or_digit, is_name, is_zero, name_of, name_text};
ghost use Rattle.std.specs.List.{list_all, position_or_len};

use indexmap::IndexSet;

/// The name of an address: one letter `a` to `z`, then at most 7 of `a` to `z` and `0` to `9`.
#[derive(Clone, Copy, PartialEq, Eq, Hash)]
pub struct Name {
    bytes: [u8; 8],
}

impl Name {
    ghost use Rattle.std.specs.Prelude.{◌≡◌, ◌∷◌, ◌≤◌, length};
    ghost use Rattle.program.specs.Names.{name_of, name_text, no_name, padded};

    /// The name that the text is; None where it is no name.
    #[tactic(auto, unfolding(crate::specs::Names::name_of))]
    pub fn new(text: &[u8]) -> Option<Name>
        ensures { result ≡ name_of text.now }
    {
        if !is_name(text) {
            return None;
        }
        let mut bytes = [0; 8];
        bytes[..text.len()].copy_from_slice(text);
        Some(Name { bytes })
    }

    /// The letter and the bytes after it, which have to make a name.
    pub(crate) fn of_parts(letter: u8, rest: &[u8]) -> Name
        requires { length rest.now ≤ 7 }
        ensures { result ≡ record { bytes = padded (letter ∷ rest.now) } }
    {
        let mut bytes = [0; 8];
        bytes[0] = letter;
        bytes[1..1 + rest.len()].copy_from_slice(rest);
        Name { bytes }
    }

    // What stands where there is no name.
    pub(crate) fn none() -> Name
        ensures { result ≡ no_name }
    {
        Name { bytes: [0; 8] }
    }

    /// The bytes of the name, without a newline.
    pub fn text(&self) -> &[u8]
        ensures { result.now ≡ name_text self.now }
    {
        let len = zero_in(&self.bytes);
        &self.bytes[..len]
    }
}

/// The name of the address with that number.
pub fn name_at(names: &IndexSet<Name>, number: usize) -> Name
    ensures { result ≡ name_at names.now.keys number }
{
    match names.get_index(number) {
        Some(name) => *name,
        None => Name::none(),
    }
}

/// Whether some text is this name.
#[tactic(auto, using(crate::proofs::ManyNames::same_name))]
pub(crate) fn is_lawful(name: Name) -> bool
    ensures yes { result ≡ true → name_of (name_text name) ≡ Some name }
    ensures other { result ≡ false → name_of (name_text name) ≡ Some name → ⊥ }
{
    match Name::new(name.text()) {
        Some(found) => found == name,
        None => false,
    }
}

#[tactic(auto, using(crate::proofs::OnLists::none_passes))]
fn zero_in(bytes: &[u8]) -> usize
    ensures value { result ≡ position_or_len is_zero bytes.now }
    ensures within { result ≤ length bytes.now }
{
    match first_zero(bytes) {
        Some(at) => at,
        None => bytes.len(),
    }
}

fn first_zero(bytes: &[u8]) -> Option<usize>
    ensures { result ≡ position is_zero bytes.now }
{
    bytes.iter().position(|b| *b == 0)
}

fn all_letters_or_digits(text: &[u8]) -> bool
    ensures { result ≡ list_all is_letter_or_digit text.now }
{
    text.iter()
        .all(|b| b.is_ascii_lowercase() || b.is_ascii_digit())
}

fn is_name(text: &[u8]) -> bool
    ensures value { result ≡ is_name text.now }
    ensures short { IsTrue result → length text.now ≤ 8 }
{
    if text.is_empty() {
        return false;
    }
    if !text[0].is_ascii_lowercase() {
        return false;
    }
    if !all_letters_or_digits(text) {
        return false;
    }
    text.len() <= 8
}
