//! The first line of a connection.

ghost use Rattle.std.specs.Prelude.{◌≡◌, ◌++◌, ◌∷◌, List, ℕ, [], length, take, true, false, not, ◌&&◌, ◌||◌};
ghost use Rattle.alm_serve.specs.Http.{ends_request, is_break, is_request, is_version, is_whole, first_line_of, http_text};
ghost use Rattle.alm_serve.specs.Beginnings.{KnowsLine};

use arrayvec::ArrayVec;

/// How many bytes of a word are kept: one more than the longest version of HTTP with a CR has.
const WORD: usize = 10;

/// Whether a byte ends a line, or stands before an end.
fn is_break(byte: u8) -> bool
    ensures { result ≡ is_break byte }
{
    byte == b'\n' || byte == b'\r'
}

/// Whether a byte is one of the text: its first isn't of an empty line.
fn is_text(has_begun: bool, byte: u8) -> bool
    ensures { result ≡ (has_begun || not (is_break byte)) }
{
    has_begun || !is_break(byte)
}

/// Whether a word is a version of HTTP.
fn is_version(word: &[u8]) -> bool
    ensures { result ≡ is_version word.now }
{
    word.len() == 8
        && word.starts_with(b"HTTP/")
        && word[5].is_ascii_digit()
        && word[6] == b'.'
        && word[7].is_ascii_digit()
}

/// The same where a CR may stand after it.
fn ends_request(word: &[u8]) -> bool
    ensures { result ≡ ends_request word.now }
{
    is_version(word) || (word.len() == 9 && word[8] == b'\r' && is_version(&word[..8]))
}

/// By what a connection's first line is a request's, or isn't: whether it has begun, has ended and has a space, and the first
/// bytes of its last word.
#[derive(Drop)]
pub struct FirstLine {
    has_begun: bool,
    has_ended: bool,
    has_space: bool,
    word: ArrayVec<u8, WORD>,
}

/// Keeps the next byte of a word, if there is room.
fn keep(kept: &mut ArrayVec<u8, WORD>, byte: u8)
    ensures { (word : List ℕ) → kept.old.items ≡ take 10 word →
        kept.new.items ≡ take 10 (word ++ byte ∷ []) }
{
    if !kept.is_full() {
        kept.push(byte);
    }
}

impl FirstLine {
    /// That of a connection on which nothing came.
    pub fn new() -> Self
        ensures { KnowsLine [] result.has_begun result.has_ended result.has_space result.word.items }
    {
        FirstLine {
            has_begun: false,
            has_ended: false,
            has_space: false,
            word: ArrayVec::new(),
        }
    }

    /// Takes the byte that came next.
    fn take_byte(&mut self, byte: u8)
        ensures { (came : List ℕ) →
            KnowsLine came self.old.has_begun self.old.has_ended self.old.has_space self.old.word.items →
            KnowsLine (came ++ byte ∷ []) self.new.has_begun self.new.has_ended self.new.has_space
            self.new.word.items }
    {
        if self.has_ended {
            return;
        }
        if !is_text(self.has_begun, byte) {
            return;
        }
        self.has_begun = true;
        if byte == b'\n' {
            self.has_ended = true;
        } else if byte == b' ' {
            self.has_space = true;
            self.word.clear();
        } else {
            keep(&mut self.word, byte);
        }
    }

    /// Takes what came next.
    pub fn take(&mut self, came: &[u8])
        ensures { (before : List ℕ) →
            KnowsLine before self.old.has_begun self.old.has_ended self.old.has_space self.old.word.items →
            KnowsLine (before ++ came.now) self.new.has_begun self.new.has_ended self.new.has_space
            self.new.word.items }
    {
        for byte in came {
            self.take_byte(*byte);
        }
    }

    /// Whether it has ended, and is a request's.
    pub fn is_request(&self) -> bool
        ensures { (came : List ℕ) →
            KnowsLine came self.now.has_begun self.now.has_ended self.now.has_space self.now.word.items →
            result ≡ (is_whole (http_text came) && is_request (first_line_of (http_text came))) }
    {
        self.has_ended && self.has_space && ends_request(self.word.as_slice())
    }
}
