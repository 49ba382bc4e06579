//! A text with the line feed that ends it.
ghost use Rattle.std.specs.Prelude.{◌≡◌, ℕ, List, ◌++◌, ◌∷◌, [], string_bytes, IfOk};
ghost use Rattle.prop_engine.specs.inner.Lines.{before_last, EndsWithFeed};

use std::alloc::AllocError;
use std::marker::Model;

/// A text that is to be written, with a line feed behind it.
#[derive(Debug, Drop)]
pub struct Line {
    text: String,
}

impl Model for Line {
    ghost Value = { List ℕ };

    ghost view = { λ line. before_last (string_bytes line.text) };

    ghost invariant = { λ line. EndsWithFeed (string_bytes line.text) };
}

impl Line {
    /// The line of a text, for whose line feed room is made here.
    pub fn new(mut text: String) -> Result<Line, AllocError>
        ensures { IfOk result (λ line. line ≡ string_bytes text) }
    {
        text.push('\n')?;
        Ok(Line { text })
    }

    /// The text and the line feed.
    pub fn as_str(&self) -> &str
        ensures { result.now ≡ self.now ++ 10 ∷ [] }
    {
        self.text.as_str()
    }

    /// The text alone.
    pub fn text(&self) -> &str
        ensures { result.now ≡ self.now }
    {
        &self.text[..self.text.len() - 1]
    }
}
