//! What stands at a key, as a fault shows it.

use std::alloc::Global;
use std::fmt::{self, Display, Formatter};
use thiserror::Error;
use toml::Value;

/// What stands at a key, as a fault shows it.
#[derive(Debug, Drop)]
pub enum Found {
    Text(String),
    Number(i64),
    YesOrNo(bool),
    /// Another value, or a text for which there was no memory, by the name of its kind.
    Other(Kind),
}

/// The kind of a value.
#[derive(Clone, Copy, Debug, PartialEq, Eq, Error)]
pub enum Kind {
    #[error("the text")]
    Text,
    #[error("a number with a point")]
    Float,
    #[error("a date or a time")]
    Datetime,
    #[error("an array")]
    Array,
    #[error("a table")]
    Table,
}

impl Found {
    /// This value.
    pub fn of(alloc: Global, value: &Value) -> Found {
        match value {
            Value::String(text) => Found::of_text(alloc, text.as_str()),
            Value::Integer(number) => Found::Number(*number),
            Value::Boolean(is_on) => Found::YesOrNo(*is_on),
            Value::Float(_) => Found::Other(Kind::Float),
            Value::Datetime(_) => Found::Other(Kind::Datetime),
            Value::Array(_) => Found::Other(Kind::Array),
            Value::Table(_) => Found::Other(Kind::Table),
        }
    }

    /// This text.
    pub fn of_text(alloc: Global, text: &str) -> Found {
        match String::from_str(alloc, text) {
            Ok(text) => Found::Text(text),
            Err(_) => Found::Other(Kind::Text),
        }
    }
}

impl Display for Found {
    fn fmt<W: fmt::Write>(&self, f: &mut Formatter<W>) -> fmt::Result {
        match self {
            Found::Text(text) => Display::fmt(&Quoted(text.as_str()), f),
            Found::Number(number) => Display::fmt(number, f),
            Found::YesOrNo(is_on) => Display::fmt(is_on, f),
            Found::Other(kind) => Display::fmt(kind, f),
        }
    }
}

// How many characters of a text are shown.
const SHOWN_CHARACTERS: usize = 64;

/// A text between quotes: its first characters, on one line.
#[derive(Clone, Copy)]
pub struct Quoted<'a>(pub &'a str);

impl Display for Quoted<'_> {
    fn fmt<W: fmt::Write>(&self, f: &mut Formatter<W>) -> fmt::Result {
        f.write_str("'")?;
        for character in self.0.chars().take(SHOWN_CHARACTERS) {
            Display::fmt(&character.escape_debug(), f)?;
        }
        f.write_str("'")
    }
}

/// The name of a key, as far as there was memory for it.
#[derive(Debug, Drop)]
pub struct Name {
    text: Option<String>,
}

impl Name {
    /// This name.
    pub fn of(alloc: Global, text: &str) -> Name {
        Name {
            text: String::from_str(alloc, text).ok(),
        }
    }
}

impl Display for Name {
    fn fmt<W: fmt::Write>(&self, f: &mut Formatter<W>) -> fmt::Result {
        match &self.text {
            Some(text) => f.write_str(text.as_str()),
            None => f.write_str("a key"),
        }
    }
}
