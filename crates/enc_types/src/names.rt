// Names of declarations.
ghost use Rattle.std.specs.Prelude.{◌≡◌, ◌<◌, length, map, option_map, slice_get, IfOk, IfSome};
ghost use Rattle.std.specs.Option.{option_copied};
ghost use Rattle.enc_types.specs.Words.{all_there};
ghost use Rattle.enc_types.specs.Names as spec;
ghost use Rattle.enc_types.specs.Plain as plain;
ghost use Rattle.enc_types.specs.Written as written;

use crate::Places;
use enc_ast::{Decl, GroupText, ModeWord, Row, Word};
use enc_modes::{Alt, Cap, Group, Mode, Ty, in_order};
use std::alloc::{AllocError, Global};
use std::marker::Model;

/// What the name of a declaration stands for.
#[derive(Drop)]
pub enum Meaning {
    Trait(Mode),
    /// A class of passive objects and its groups, unless its list has a name of no trait.
    Class(Option<Cap>),
    Active,
    Fun,
}

/// A declaration by its name.
#[derive(Drop)]
pub struct Named {
    pub word: Word,
    pub is: Meaning,
}

/// What the names of declarations stand for, in the order of the declarations.
#[derive(Drop)]
pub struct Names {
    alloc: Global,
    places: Places,
    rows: Row<Named>,
}

impl Model for Names {
    ghost use Rattle.std.specs.Prelude.{◌≡◌, List, map};
    ghost use Rattle.enc_types.specs.declared.names.Named.{Named};

    ghost Value = { List Named };

    ghost view = { λ names. names.rows };

    ghost invariant = { λ names. names.places ≡ map (λ n. n.word) names.rows };
}

impl Names {
    /// What the names of a program's declarations stand for, or `AllocError` where memory runs out.
    pub fn of(alloc: Global, decls: &[Decl]) -> Result<Names, AllocError>
        ensures { IfOk result (λ names. names ≡ spec.names_of decls.now) }
    {
        let plain = Names::plain(alloc, decls)?;
        let rows = plain.meanings(decls)?;
        let Names { places, .. } = plain;
        Ok(Names {
            alloc,
            places,
            rows,
        })
    }

    fn plain(alloc: Global, decls: &[Decl]) -> Result<Names, AllocError>
        ensures { IfOk result (λ names. names ≡ plain.plain_names decls.now) }
    {
        let mut places = Places::new(alloc);
        let mut rows = Row::new(alloc);
        for decl in decls {
            let word = word_of(decl);
            places.add(word)?;
            rows.push(Named {
                word: word.copy()?,
                is: plain_meaning(decl),
            })?;
        }
        Ok(Names {
            alloc,
            places,
            rows,
        })
    }

    fn meanings(&self, decls: &[Decl]) -> Result<Row<Named>, AllocError>
        ensures { IfOk result (λ rows. rows ≡ map (plain.named_by (spec.trait_named self.now)) decls.now) }
    {
        let mut rows = Row::new(self.alloc);
        for decl in decls {
            rows.push(Named {
                word: word_of(decl).copy()?,
                is: self.meaning_of(decl)?,
            })?;
        }
        Ok(rows)
    }

    fn meaning_of(&self, decl: &Decl) -> Result<Meaning, AllocError>
        ensures { IfOk result (λ is. is ≡ plain.meaning_by (spec.trait_named self.now) decl.now) }
    {
        match decl {
            Decl::Class(decl) => Ok(Meaning::Class(self.cap_named(decl.groups.as_slice())?)),
            _ => Ok(plain_meaning(decl)),
        }
    }

    /// The groups in order, or `None` where one of their names is that of no trait.
    pub(crate) fn cap_named(&self, groups: &[GroupText]) -> Result<Option<Cap>, AllocError>
        ensures { IfOk result (λ cap. cap ≡ plain.cap_by (spec.trait_named self.now) groups.now) }
    {
        match self.groups_named(groups)? {
            None => Ok(None),
            Some(groups) => Ok(Some(in_order(self.alloc, groups)?)),
        }
    }

    fn groups_named(&self, groups: &[GroupText]) -> Result<Option<Row<Group>>, AllocError>
        ensures { IfOk result (λ cap. cap ≡ all_there (λ g. all_there (λ n. spec.trait_named self.now n.word) g.names) groups.now) }
    {
        let mut rows = Row::new(self.alloc);
        for group in groups {
            match self.group_named(group)? {
                None => return Ok(None),
                Some(row) => rows.push(row)?,
            }
        }
        Ok(Some(rows))
    }

    fn group_named(&self, group: &GroupText) -> Result<Option<Group>, AllocError>
        ensures { IfOk result (λ alts. alts ≡ all_there (λ n. spec.trait_named self.now n.word) group.now.names) }
    {
        let mut row = Row::new(self.alloc);
        for name in group.names.as_slice() {
            match self.trait_named(name.word.as_str()) {
                None => return Ok(None),
                Some(alt) => row.push(alt)?,
            }
        }
        Ok(Some(row))
    }

    /// Where the names have their memory.
    pub(crate) fn alloc(&self) -> Global {
        self.alloc
    }

    /// The number of the first declaration of this name, or `None` where there is none.
    #[tactic(auto, unfolding(crate::specs::Names::number_of))]
    pub fn find(&self, name: &str) -> Option<u32>
        ensures number { result ≡ spec.number_of self.now name.now }
        ensures within { IfSome result (λ number. number < length self.now) }
    {
        self.places.find(name)
    }

    /// The declaration with this number, or `None` past the end.
    pub fn get(&self, number: u32) -> Option<&Named>
        ensures { option_copied result ≡ slice_get self.now number }
    {
        self.rows.get(number as usize)
    }

    /// What the first declaration of this name stands for, or `None` where there is none.
    #[tactic(auto, unfolding(crate::specs::Names::found))]
    pub fn meaning(&self, name: &str) -> Option<&Meaning>
        ensures { option_copied result ≡ option_map (λ p. p.1) (spec.found self.now name.now) }
    {
        let named = self.get(self.find(name)?)?;
        Some(&named.is)
    }

    /// The trait of this name, or `None` where the first declaration of the name is no trait.
    #[tactic(auto, unfolding(crate::specs::Names::trait_named, crate::specs::Names::found))]
    pub fn trait_named(&self, name: &str) -> Option<Alt>
        ensures { result ≡ spec.trait_named self.now name.now }
    {
        let number = self.find(name)?;
        match self.get(number)?.is {
            Meaning::Trait(mode) => Some(Alt { number, mode }),
            _ => None,
        }
    }

    /// Whether the first declaration of this name is of a trait or a class.
    pub(crate) fn is_type(&self, name: &str) -> bool
        ensures { result ≡ written.is_type (spec.found self.now name.now) }
    {
        match self.meaning(name) {
            None => false,
            Some(Meaning::Fun) => false,
            Some(_) => true,
        }
    }

    /// The type that a name by itself stands for, or `None` where it stands for none. Where memory runs out,
    /// it answers `AllocError`.
    #[tactic(auto, unfolding(crate::specs::Written::type_named, crate::specs::Names::found))]
    pub fn type_named(&self, name: &str) -> Result<Option<Ty>, AllocError>
        ensures { IfOk result (λ ty. ty ≡ written.type_named self.now name.now) }
    {
        let Some(number) = self.find(name) else {
            return Ok(None);
        };
        match self.get(number) {
            None => Ok(None),
            Some(named) => self.alone(number, &named.is),
        }
    }

    fn alone(&self, number: u32, is: &Meaning) -> Result<Option<Ty>, AllocError>
        ensures { IfOk result (λ ty. ty ≡ written.alone_layer (number, is.now)) }
    {
        match is {
            Meaning::Trait(mode) => {
                let mode = *mode;
                let cap = Cap::of_trait(self.alloc, Alt { number, mode })?;
                Ok(Some(Ty::Cap(cap)))
            }
            Meaning::Class(Some(cap)) => Ok(Some(Ty::Cap(cap.share()?))),
            Meaning::Class(None) => Ok(None),
            Meaning::Active => Ok(Some(Ty::Actor(number))),
            Meaning::Fun => Ok(None),
        }
    }
}

fn word_of(decl: &Decl) -> &Word
    ensures { result.now ≡ spec.word_of decl.now }
{
    match decl {
        Decl::Trait(decl) => &decl.name.word,
        Decl::Class(decl) => &decl.name.word,
        Decl::Active(decl) => &decl.name.word,
        Decl::Fun(decl) => &decl.name.word,
    }
}

// What a declaration stands for, apart from the groups of a class.
fn plain_meaning(decl: &Decl) -> Meaning
    ensures { result ≡ plain.plain_meaning decl.now }
{
    match decl {
        Decl::Trait(decl) => Meaning::Trait(mode_by(decl.mode)),
        Decl::Class(_) => Meaning::Class(None),
        Decl::Active(_) => Meaning::Active,
        Decl::Fun(_) => Meaning::Fun,
    }
}

fn mode_by(word: ModeWord) -> Mode
    ensures { result ≡ spec.mode_by word }
{
    match word {
        ModeWord::Linear => Mode::Linear,
        ModeWord::Local => Mode::Local,
        ModeWord::Read => Mode::Read,
        ModeWord::Subordinate => Mode::Subordinate,
    }
}
