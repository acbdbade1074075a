//! What the texts of cases spell.

use std::alloc::Global;
use std::mem;

/// Bytes, and where those that are repeated begin, and how often.
#[derive(Drop)]
struct Spelled {
    bytes: Vec<u8>,
    from: usize,
    times: usize,
}

impl Spelled {
    fn put(&mut self, bytes: &[u8]) -> Option<()> {
        self.bytes.extend_from_slice(bytes).ok()
    }

    /// Ends what is repeated.
    fn repeat(&mut self, alloc: Global) -> Option<()> {
        let piece = self.bytes.get(self.from..)?.to_vec(alloc).ok()?;
        for _ in 1..self.times {
            self.put(&piece)?;
        }
        Some(())
    }

    /// Puts what a word between angles means.
    fn put_word(&mut self, alloc: Global, word: &str) -> Option<()> {
        if let Some(times) = word.strip_suffix(" times") {
            self.from = self.bytes.len();
            self.times = times.parse().ok()?;
            return Some(());
        }
        match word {
            "CR" => self.put(b"\r"),
            "LF" => self.put(b"\n"),
            "end" => self.repeat(alloc),
            _ => self.put(&hex::decode(alloc, word).ok()?),
        }
    }
}

/// The bytes that a text spells, in which words are written between angles.
pub fn spell(alloc: Global, text: &str) -> Option<Vec<u8>> {
    let mut spelled = Spelled {
        bytes: Vec::new(alloc),
        from: 0,
        times: 0,
    };
    let mut rest = text;
    for _ in 0..=text.len() {
        let Some((front, tail)) = rest.split_once('<') else {
            spelled.put(rest.as_bytes())?;
            let Spelled {
                bytes,
                from: _,
                times: _,
            } = spelled;
            return Some(bytes);
        };
        let (word, tail) = tail.split_once('>')?;
        spelled.put(front.as_bytes())?;
        spelled.put_word(alloc, word)?;
        rest = tail;
    }
    None
}

/// The words of a line, between spaces. A space may be written between quotes.
pub fn words_of(alloc: Global, line: &str) -> Option<Vec<String>> {
    let line = String::from_utf8(spell(alloc, line)?).ok()?;
    let mut words = Vec::new(alloc);
    let mut word = String::new(alloc);
    let mut quoted = false;
    for letter in line.chars() {
        if letter == '\'' {
            quoted = !quoted;
        } else if letter == ' ' && !quoted {
            words
                .push(mem::replace(&mut word, String::new(alloc)))
                .ok()?;
        } else {
            word.push(letter).ok()?;
        }
    }
    if !line.is_empty() {
        words.push(word).ok()?;
    }
    Some(words)
}
