ghost use Rattle.std.specs.Prelude.{◌≡◌, [], ◌∷◌, ◌++◌, ◌↔◌, IsTrue, OnOk, OnErr};

use sig_diff::NoMemory;
use std::alloc::Global;
use std::marker::Model;

/// The words of a command line, after the program's name.
#[derive(Debug, Drop)]
pub struct Words {
    words: Vec<String>,
}

impl Model for Words {
    ghost use Rattle.std.specs.Prelude.{ℕ, List, map, string_bytes};

    ghost Value = { List (List ℕ) };

    ghost view = { λ list. map string_bytes list.words.items };
}

impl Words {
    /// No words. It takes no memory.
    pub fn new(alloc: Global) -> Words
        ensures { result ≡ [] }
    {
        Words {
            words: Vec::new(alloc),
        }
    }

    /// Puts a word at the end. After a refusal the words are as they were.
    pub fn push(&mut self, word: &str) -> Result<(), NoMemory>
        ensures ok { OnOk result (self.new ≡ self.old ++ word.now ∷ []) }
        ensures err { OnErr result (self.new ≡ self.old) }
    {
        let alloc = *self.words.allocator();
        self.words.push(String::from_str(alloc, word)?)?;
        Ok(())
    }

    /// Whether this is the one word, and there is no other.
    pub fn are_only(&self, word: &str) -> bool
        ensures { IsTrue result ↔ (self.now ≡ word.now ∷ []) }
    {
        match self.words.as_slice() {
            [only] => are_same(only.as_str(), word),
            _ => false,
        }
    }
}

fn are_same(text: &str, other: &str) -> bool
    ensures { IsTrue result ↔ (text.now ≡ other.now) }
{
    text == other
}
