//! Why a line is none of a program, in words for a person.

use program::Name;
use texts::decimal;

/// Whether a line is made of words, with one space between them.
fn has_words(line: &[u8]) -> bool {
    let mut was_space = true;
    for byte in line {
        let is_space = *byte == b' ';
        if is_space && was_space || !is_space && !byte.is_ascii_graphic() {
            return false;
        }
        was_space = is_space;
    }
    !was_space
}

/// How many words an operation takes; none where there is no such operation.
fn words_after(operation: &[u8]) -> Option<usize> {
    let operations: [(&[u8], usize); 8] = [
        (b"core", 0),
        (b"fence", 0),
        (b"ld", 1),
        (b"st", 2),
        (b"swap", 2),
        (b"add", 2),
        (b"init", 2),
        (b"cas", 3),
    ];
    for (name, count) in operations {
        if name == operation {
            return Some(count);
        }
    }
    None
}

/// What is wrong with a line of words.
fn cause_in_words(line: &[u8]) -> &'static str {
    let mut words = line.split(|byte| *byte == b' ');
    let Some(wanted) = words_after(words.next().unwrap_or(b"")) else {
        return "there is no such operation, only `st`, `ld`, `fence`, `swap`, `add`, `cas` and `init`";
    };
    let mut count: usize = 0;
    for word in words {
        if count == 0 && Name::new(word).is_none() {
            return "a name is a letter `a` to `z`, then at most 7 of `a` to `z` and `0` to `9`";
        }
        if count > 0 && decimal(word).is_none() {
            return "a value is `0`, or digits of which the first is not `0`";
        }
        count = count.saturating_add(1);
    }
    if count == wanted {
        "`core` comes before operations, and `init` after them"
    } else if count < wanted {
        "there are too few words"
    } else {
        "there are too many words"
    }
}

/// Why a line that was refused by L1 is none of a program.
pub(crate) fn cause_of(line: &[u8], is_ended: bool) -> &'static str {
    if !is_ended {
        "its newline is missing"
    } else if line.is_empty() {
        "a program has no empty lines"
    } else if line.starts_with(b"#") {
        "a program has no remarks"
    } else if has_words(line) {
        cause_in_words(line)
    } else {
        "words are separated by one space, and nothing stands before or after them"
    }
}
