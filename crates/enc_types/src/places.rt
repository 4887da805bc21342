// Words by their places.
ghost use Rattle.std.specs.Prelude.{◌≡◌, ◌<◌, [], ◌∷◌, ◌++◌, length, OnOk, OnErr, IfSome};
ghost use Rattle.enc_types.specs.Words as spec;

use enc_ast::{Row, Word};
use indexmap::IndexMap;
use std::alloc::{AllocError, Global};
use std::marker::Model;

/// Words in a row, each of which is found by what it says.
#[derive(Drop)]
pub struct Places {
    words: Row<Word>,
    /// The first place of each word.
    firsts: IndexMap<String, u32>,
}

impl Model for Places {
    ghost use Rattle.std.specs.Prelude.{ℕ, List};

    ghost Value = { List (List ℕ) };

    ghost use Rattle.enc_types.specs.Kept.{IsKept};

    ghost view = { λ places. places.words };

    ghost invariant = { λ places. IsKept places.words places.firsts };
}

impl Places {
    /// No words. They take no memory yet.
    pub fn new(alloc: Global) -> Places
        ensures { result ≡ [] }
    {
        Places {
            words: Row::new(alloc),
            firsts: IndexMap::new(alloc),
        }
    }

    /// Adds a copy of a word at the end, whether or not it is there already. Where memory runs out,
    /// and where there would be 4,294,967,295 words, it adds nothing.
    pub fn add(&mut self, word: &Word) -> Result<(), AllocError>
        ensures ok { OnOk result (self.new ≡ self.old ++ word.now ∷ []) }
        ensures err { OnErr result (self.new ≡ self.old) }
    {
        let place = self.words.len();
        if place >= 4_294_967_294 {
            return Err(AllocError);
        }
        if self.firsts.contains_key(word.as_str()) {
            self.words.push(word.copy()?)?;
            return Ok(());
        }
        let key = word.copy()?.into_string();
        self.words.push(word.copy()?)?;
        if let Ok(_) = self.firsts.insert(key, place as u32) {
            return Ok(());
        }
        self.words.truncate(place);
        Err(AllocError)
    }

    /// The first place of a word, or `None` where it isn't one of them.
    pub fn find(&self, word: &str) -> Option<u32>
        ensures place { result ≡ spec.place_in self.now word.now }
        ensures within { IfSome result (λ place. place < length self.now) }
    {
        self.firsts.get(word).copied()
    }

    /// Whether the word is one of them.
    #[tactic(auto, using(crate::proofs::Finding::places))]
    pub fn has(&self, word: &str) -> bool
        ensures { result ≡ spec.has self.now word.now }
    {
        self.find(word).is_some()
    }

    /// How many words there are, repeated ones too.
    pub fn len(&self) -> usize
        ensures { result ≡ length self.now }
    {
        self.words.len()
    }
}
