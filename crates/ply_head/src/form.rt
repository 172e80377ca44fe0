// The form of a line.
ghost use Rattle.std.specs.Prelude.{◌≡◌, ◌||◌, ◌&&◌, map, bytes_eq, codes, if◌then◌else◌};
ghost use Rattle.ply_head.specs.Headers.{form_of, is_end, FormatLine, ElementLine, ScalarLine, ListLine, EndLine, NoForm};
ghost use Rattle.ply_head.specs.Forms.{seen_form};

use crate::names::is_word;

/// The form of a line, by its words.
#[derive(Clone, Copy)]
pub enum Form<'a> {
    /// Nothing is read of it: it is blank, a comment, or the first line.
    Passed,
    /// `format NAME VERSION`.
    FormatLine {
        format: &'a [u8],
        version: &'a [u8],
    },
    /// `element NAME COUNT`.
    ElementLine {
        name: &'a [u8],
        count: &'a [u8],
    },
    /// `property TYPE NAME`.
    ScalarLine {
        kind: &'a [u8],
        name: &'a [u8],
    },
    /// `property list TYPE TYPE NAME`: the count's type, then an item's.
    ListLine {
        count_kind: &'a [u8],
        kind: &'a [u8],
        name: &'a [u8],
    },
    /// `end_header`.
    EndLine,
    /// No line of a header is so.
    NoForm,
}

/// The form of a line with these words.
pub fn form_of<'a>(words: &[&'a [u8]]) -> Form<'a>
    ensures { seen_form result ≡ form_of (map (λ word. word.now) words.now) }
{
    match words {
        [] => Form::Passed,
        [first, ..] if is_comment(first) => Form::Passed,
        [word] => alone(word),
        [word, a, b] => with_two(word, a, b),
        [word, list, a, b, c] => with_four(word, list, a, b, c),
        _ => Form::NoForm,
    }
}

/// Whether a line of this form ends the header.
pub fn is_end(form: Form<'_>) -> bool
    ensures { result ≡ is_end (seen_form form.entry) }
{
    matches!(form, Form::EndLine)
}

fn is_comment(word: &[u8]) -> bool
    ensures { result ≡ (bytes_eq word.now (codes "comment") || bytes_eq word.now (codes "obj_info")) }
{
    is_word(word, b"comment") || is_word(word, b"obj_info")
}

// A line of one word that isn't a comment.
fn alone(word: &[u8]) -> Form<'_>
    ensures { seen_form result ≡ (if bytes_eq word.now (codes "end_header") then EndLine else NoForm) }
{
    if is_word(word, b"end_header") {
        Form::EndLine
    } else {
        Form::NoForm
    }
}

// A line of three words that isn't a comment.
fn with_two<'a>(word: &[u8], a: &'a [u8], b: &'a [u8]) -> Form<'a>
    ensures { seen_form result ≡ (if bytes_eq word.now (codes "format") then FormatLine a.now b.now else
        (if bytes_eq word.now (codes "element") then ElementLine a.now b.now else
        (if bytes_eq word.now (codes "property") then ScalarLine a.now b.now else NoForm))) }
{
    if is_word(word, b"format") {
        Form::FormatLine {
            format: a,
            version: b,
        }
    } else if is_word(word, b"element") {
        Form::ElementLine { name: a, count: b }
    } else if is_word(word, b"property") {
        Form::ScalarLine { kind: a, name: b }
    } else {
        Form::NoForm
    }
}

// A line of five words that isn't a comment.
fn with_four<'a>(word: &[u8], list: &[u8], a: &'a [u8], b: &'a [u8], c: &'a [u8]) -> Form<'a>
    ensures { seen_form result ≡ (if bytes_eq word.now (codes "property") && bytes_eq list.now (codes "list") then ListLine a.now b.now c.now else NoForm) }
{
    if is_word(word, b"property") && is_word(list, b"list") {
        Form::ListLine {
            count_kind: a,
            kind: b,
            name: c,
        }
    } else {
        Form::NoForm
    }
}
