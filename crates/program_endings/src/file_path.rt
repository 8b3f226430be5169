//! The path of a file, as a fault names it.
ghost use Rattle.std.specs.Prelude.{◌≡◌, IfSome};

use std::alloc::Global;
use std::fmt::{self, Display, Formatter};
use std::marker::Model;

/// The path of a file, as far as there was memory for it.
#[derive(Debug, Drop)]
pub struct FilePath {
    path: Option<String>,
}

impl Model for FilePath {
    ghost use Rattle.std.specs.Prelude.{ℕ, List, Option, option_map, string_bytes};

    ghost Value = { Option (List ℕ) };

    ghost view = { λ named. option_map string_bytes named.path };
}

impl FilePath {
    /// This path.
    pub fn of(alloc: Global, path: &str) -> FilePath
        ensures { IfSome result (λ named. named ≡ path.now) }
    {
        FilePath {
            path: String::from_str(alloc, path).ok(),
        }
    }
}

impl Display for FilePath {
    fn fmt<W: fmt::Write>(&self, f: &mut Formatter<W>) -> fmt::Result {
        match &self.path {
            Some(path) => f.write_str(path.as_str()),
            None => f.write_str("the file"),
        }
    }
}
