// What is known of the types of a trait's fields.
ghost use Rattle.std.specs.Prelude.{◌≡◌, IfOk};
ghost use Rattle.std.specs.HashMap.{get_by_text};
ghost use Rattle.enc_types.specs.Words.{every};
ghost use Rattle.enc_decls.specs.Conflicts as conflicts;
ghost use Rattle.enc_decls.specs.Known as spec;

use enc_ast::{Field, Row, Word};
use enc_modes::Ty;
use enc_types::Names;
use indexmap::IndexMap;
use std::alloc::{AllocError, Global};
use std::marker::Model;

/// A field by its name, with its type.
#[derive(Drop)]
pub struct Entry {
    pub word: Word,
    pub ty: Ty,
}

/// The fields of a trait whose types are known.
#[derive(Drop)]
pub struct Fields {
    entries: Row<Entry>,
    // By each name the type that all fields of the name have, or `None` where they have several.
    types: IndexMap<String, Option<Ty>>,
}

impl Model for Fields {
    ghost use Rattle.std.specs.Prelude.{List};
    ghost use Rattle.std.specs.Coded.{codes};
    ghost use Rattle.enc_modes.specs.contracts.ty.Ty as ty;
    ghost use Rattle.enc_decls.specs.declared.known.Entry.{Entry};
    ghost use Rattle.enc_decls.specs.Known.{IsIndexed};

    ghost Value = { List Entry };

    ghost coded = { Prim.hlevel (codes, ty.the_row.coded) };

    ghost view = { λ fields. fields.entries };

    ghost invariant = { λ fields. IsIndexed fields.entries fields.types };
}

impl Fields {
    /// Those of these fields whose types are known. Where memory runs out, it answers `AllocError`.
    pub fn of(alloc: Global, names: &Names, fields: &[Field]) -> Result<Fields, AllocError>
        ensures { IfOk result (λ known. known ≡ conflicts.known_fields names.now fields.now) }
    {
        let entries = entries_of(alloc, names, fields)?;
        let types = types_of(alloc, entries.as_slice())?;
        Ok(Fields { entries, types })
    }

    /// Whether each of them agrees with each of the others. It goes over those that are fewer.
    #[tactic(auto, using(crate::proofs::Agreeing::turned))]
    pub fn fit(&self, other: &Fields) -> bool
        ensures { result ≡ conflicts.each_agrees self.now other.now }
    {
        if other.entries.len() < self.entries.len() {
            other.all_agree(self)
        } else {
            self.all_agree(other)
        }
    }

    fn all_agree(&self, other: &Fields) -> bool
        ensures { result ≡ conflicts.each_agrees self.now other.now }
    {
        for entry in self.entries.as_slice() {
            if !may_have(&other.types, entry) {
                return false;
            }
        }
        true
    }
}

fn entries_of(alloc: Global, names: &Names, fields: &[Field]) -> Result<Row<Entry>, AllocError>
    ensures { IfOk result (λ entries. entries ≡ conflicts.known_fields names.now fields.now) }
{
    let mut entries = Row::new(alloc);
    for field in fields {
        if let Some(ty) = names.ty(&field.ty)? {
            let word = field.name.word.copy()?;
            entries.push(Entry { word, ty })?;
        }
    }
    Ok(entries)
}

fn types_of(alloc: Global, entries: &[Entry]) -> Result<IndexMap<String, Option<Ty>>, AllocError>
    ensures { IfOk result (λ types. spec.IsIndexed entries.now types) }
{
    let mut types = IndexMap::new(alloc);
    for entry in entries {
        let ty = narrowed(&types, entry)?;
        let word = entry.word.copy()?;
        types.insert(word.into_string(), ty)?;
    }
    Ok(types)
}

// The type that the fields of a name have behind one more of them.
fn narrowed(types: &IndexMap<String, Option<Ty>>, entry: &Entry) -> Result<Option<Ty>, AllocError>
    ensures { IfOk result (λ ty. ty ≡ spec.narrowed (get_by_text types.now entry.now.word) entry.now.ty) }
{
    if !may_have(types, entry) {
        return Ok(None);
    }
    Ok(Some(entry.ty.share()?))
}

// Whether the known fields of the name have the type of this one.
fn may_have(types: &IndexMap<String, Option<Ty>>, entry: &Entry) -> bool
    ensures { result ≡ spec.has_all (get_by_text types.now entry.now.word) entry.now.ty }
{
    match types.get(entry.word.as_str()) {
        None => true,
        Some(None) => false,
        Some(Some(ty)) => ty.is(&entry.ty),
    }
}
