//! Lines of text that a program with a stored run collects, and prints at its end. What adds a line returns nothing: where memory ran out, the last line says so. So a
//! function that adds lines has one way out, at which it owns nothing, and its proof takes little time.
#![tactic(auto)]

use std::alloc::{AllocError, Global};
use std::fmt::{Debug, Display};
use std::io;
use std::io::Print;

/// Lines of text.
#[derive(Drop)]
pub struct Lines {
    alloc: Global,
    text: String,
    is_whole: bool,
}

impl Lines {
    /// No lines, in memory of this allocator.
    pub fn new(alloc: Global) -> Lines {
        Lines {
            alloc,
            text: String::new(alloc),
            is_whole: true,
        }
    }

    /// Adds a piece of a line.
    fn piece(&mut self, piece: &str) {
        if self.text.push_str(piece).is_err() {
            self.is_whole = false;
        }
    }

    /// Adds a line.
    pub fn line(&mut self, text: &str) {
        self.piece(text);
        self.piece("\n");
    }

    /// Adds a name, and a text behind it.
    pub fn named(&mut self, name: &str, text: &str) {
        self.piece(name);
        self.piece(": ");
        self.line(text);
    }

    /// Adds a name, and a text that was made behind it.
    pub fn written(&mut self, name: &str, text: &Result<String, AllocError>) {
        match text {
            Ok(text) => self.named(name, text),
            Err(_) => self.is_whole = false,
        }
    }

    /// Adds a name, and the text of a value.
    pub fn text(&mut self, name: &str, value: &impl Display) {
        let text = format!(in self.alloc; "{value}");
        self.written(name, &text);
    }

    /// Adds a name, and what `Debug` gives of a value.
    pub fn debug(&mut self, name: &str, value: &impl Debug) {
        let text = format!(in self.alloc; "{value:?}");
        self.written(name, &text);
    }

    /// Adds a name, and bytes in hexadecimal digits.
    pub fn hex(&mut self, name: &str, bytes: &[u8]) {
        let digits = hex::encode(self.alloc, bytes);
        self.written(name, &digits);
    }

    /// Adds a name, and what `Debug` gives of what a call made, or the text of its error.
    pub fn made<T: Debug + Drop, E: Display + Drop>(&mut self, name: &str, made: Result<T, E>) {
        match made {
            Ok(value) => self.debug(name, &value),
            Err(error) => self.text(name, &error),
        }
    }

    /// Adds a name, and in hexadecimal digits the bytes that a call made, or the text of its error.
    pub fn bytes<E: Display + Drop>(&mut self, name: &str, made: Result<Vec<u8>, E>) {
        match made {
            Ok(bytes) => self.hex(name, &bytes),
            Err(error) => self.text(name, &error),
        }
    }

    /// Prints the lines.
    pub fn print(&self, rt: &impl Print) -> io::Result<()> {
        rt.print(self.text.as_str())?;
        rt.print(if self.is_whole { "" } else { "out of memory\n" })
    }
}
